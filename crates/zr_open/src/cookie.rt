//! The cookie by which an accepting end knows the peer of its INIT again.

ghost use Rattle.std.specs.Prelude.{◌≡◌, length};
ghost use Rattle.zr_open.specs.Cookie.{cookie_of};
ghost use Rattle.zr_open.specs.Table.{is_cookie};

use crate::opening::Opening;
use sha2::{Digest, Sha256};
use zr_bytes::ByteString;
use zr_id::zid::Zid;

impl Opening {
    /// The cookie for a peer of this link.
    pub(crate) fn cookie(&self, id: Zid) -> [u8; 32]
        ensures value { result ≡ cookie_of self.now id }
        ensures size { length result ≡ 32 }
    {
        let mut hasher = Sha256::new();
        hasher.update(self.secret.as_slice());
        hasher.update(self.number.to_le_bytes().as_slice());
        hasher.update([id.bytes().len() as u8].as_slice());
        hasher.update(id.bytes());
        hasher.finalize()
    }

    /// Whether it is the cookie that this peer was given.
    pub(crate) fn is_cookie(&self, id: Zid, cookie: &Option<ByteString>) -> bool
        ensures { result ≡ is_cookie self.now id cookie.now }
    {
        match cookie {
            Some(cookie) => cookie.as_slice() == self.cookie(id).as_slice(),
            None => false,
        }
    }
}
