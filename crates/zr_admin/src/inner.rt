//! Who the inner client is.

ghost use Rattle.std.specs.Prelude.{◌≡◌, ◌++◌, codes};
ghost use Rattle.zr_admin.specs.Inner.{inner_outbox, inner_peer};

use zr_frame::Outbox;
use zr_id::zid::Zid;
use zr_msg::peer::{Peer, Role, Weight};

/// The first half of its identifier.
const NAME: &[u8; 8] = b"zrdadmin";

/// The most bytes of its parcels, as many as one may have.
const MOST_BATCH: u16 = 65_535;

/// Its frame numbers have 32 bits (Zenoh protocol 1.0, "INIT").
const NUMBER_BITS: u8 = 2;

/// The inner client with this random word.
pub(crate) fn inner_peer(word: u64) -> Peer
    ensures { result ≡ inner_peer word }
{
    Peer {
        id: inner_id(&word.to_le_bytes()),
        role: Role::Client,
        weight: Weight::one().get(),
    }
}

fn inner_id(word: &[u8; 8]) -> Zid
    ensures { result ≡ codes "zrdadmin" ++ word.now }
{
    let mut bytes = [0; 16];
    bytes[..8].copy_from_slice(NAME);
    bytes[8..].copy_from_slice(word);
    match Zid::from_bytes(&bytes) {
        Ok(id) => id,
        Err(_) => unreachable!(),
    }
}

/// What its link sends by.
pub(crate) fn inner_outbox() -> Outbox
    ensures { result ≡ inner_outbox }
{
    Outbox::new(MOST_BATCH, NUMBER_BITS, 0)
}
