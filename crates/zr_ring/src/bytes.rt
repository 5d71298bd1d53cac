//! The bytes of a parcel: a head of its own, and a body that parcels of several rings may share, or the end of one.
ghost use Rattle.std.specs.Prelude.{◌≡◌, ◌≤◌, ◌++◌, drop, length};
ghost use Rattle.zr_ring.specs.declared.bytes.TheConstants.{MOST_HEAD};

use arrayvec::ArrayVec;
use std::marker::Model;
use zr_bytes::ByteString;
use zr_msg::shared::Shared;

/// The most bytes of a head: what stands before a message in its frame (at most 10), and the header, the id and the numbered key of a message (at most 9).
pub const MOST_HEAD: usize = 20;

/// Contracts see all bytes, those of the head first.
#[derive(Drop)]
pub struct Bytes {
    head: ArrayVec<u8, MOST_HEAD>,
    body: Shared<ByteString>,
    // where the part of the body that belongs to the parcel begins
    from: usize,
    ghost within: { from ≤ length body },
}

impl Model for Bytes {
    ghost use Rattle.std.specs.Prelude.{◌++◌, List, ℕ, drop};

    ghost Value = { List ℕ };

    ghost view = { λ b. b.head.items ++ drop b.from b.body };
}

impl Bytes {
    /// A body without a head.
    pub fn whole(body: Shared<ByteString>) -> Bytes
        ensures { result ≡ body }
    {
        Bytes {
            head: ArrayVec::new(),
            body,
            from: 0,
        }
    }

    /// A head, and a body behind it. It takes no memory.
    pub fn joint(head: &[u8], body: Shared<ByteString>) -> Bytes
        requires { length head.now ≤ MOST_HEAD }
        ensures { result ≡ head.now ++ body }
    {
        Bytes {
            head: short(head),
            body,
            from: 0,
        }
    }

    /// A head, and behind it what stands in a body from a place on. It takes no memory.
    pub fn before(head: &[u8], body: Shared<ByteString>, from: usize) -> Bytes
        requires short { length head.now ≤ MOST_HEAD }
        requires within { from ≤ length body }
        ensures { result ≡ head.now ++ drop from body }
    {
        Bytes {
            head: short(head),
            body,
            from,
        }
    }

    /// The head and the body.
    pub fn parts(&self) -> (&[u8], &[u8])
        ensures { result.0.now ++ result.1.now ≡ self.now }
    {
        (
            self.head.as_slice(),
            &self.body.get().as_slice()[self.from..],
        )
    }
}

fn short(bytes: &[u8]) -> ArrayVec<u8, MOST_HEAD>
    requires { length bytes.now ≤ MOST_HEAD }
    ensures { result.items ≡ bytes.now }
{
    let mut all = ArrayVec::new();
    match all.try_extend_from_slice(bytes) {
        Ok(()) => all,
        Err(_) => unreachable!(),
    }
}
