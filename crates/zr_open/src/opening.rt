//! What one end brings to an opening.

ghost use Rattle.std.specs.Prelude.{◌≡◌, ◌<◌, ◌^◌, length};
ghost use Rattle.zr_trans.specs.Writing.{writes_trans, Fits};
ghost use Rattle.zr_open.specs.Table.{greeting};

use std::marker::Model;
use zr_id::zid::Zid;
use zr_trans::Trans;

/// The version byte of Zenoh protocol 1.0.
pub(crate) const VERSION: u8 = 0x09;
/// The value of extension 9 of INIT, this profile's own: a router tells other routers its links with their weights.
/// The value 1 was that of routers that told no weights.
pub(crate) const SPEAKS: u64 = 2;
/// The role bits of INIT.
pub(crate) const ROUTER: u8 = 0;

pub(crate) const CLIENT: u8 = 2;

/// How many bytes the secret of the cookies has.
pub(crate) const SECRET: usize = 32;

/// One link of a router: what an opening on it starts from, at either end.
#[derive(Drop)]
pub struct Opening {
    pub(crate) me: Zid,
    pub(crate) secret: [u8; SECRET],
    pub(crate) number: u64,
    pub(crate) word: u64,
    pub(crate) weight: u16,
}

impl Model for Opening {
    ghost use Rattle.std.specs.Prelude.{◌<◌};
    ghost use Rattle.zr_open.specs.Opening.{OpeningState};

    ghost Value = { OpeningState };

    ghost view = { λ o. record { me = o.me; secret = o.secret; number = o.number; word = o.word; weight = o.weight } };

    ghost invariant = { λ o. 0 < o.weight };
}

impl Opening {
    /// This router's identifier, the secret of its cookies, the link's number, a random word, from which the number of this
    /// end's first frame comes, and the weight of the link, at least 1, if the peer is a router.
    pub fn new(me: Zid, secret: &[u8; 32], number: u64, word: u64, weight: u16) -> Opening
        requires { 0 < weight }
        ensures { result ≡ record { me = me; secret = secret.now; number = number; word = word; weight = weight } }
    {
        Opening {
            me,
            secret: *secret,
            number,
            word,
            weight,
        }
    }

    /// The INIT with which a dialling end begins. It proposes no sizes, so the usual ones.
    pub fn greeting(&self) -> Trans
        ensures value { result ≡ greeting self.now }
        ensures fits { Fits result }
        ensures short { length (writes_trans result) < 2 ^ 16 }
    {
        // Read, so that the proof knows that an identifier is short.
        let _short = self.me.bytes();
        Trans::Init {
            answer: false,
            version: VERSION,
            role: ROUTER,
            id: self.me,
            sizes: None,
            cookie: None,
            speaks: Some(SPEAKS),
        }
    }
}
