//! The two channels of a session.

ghost use Rattle.std.specs.Prelude.{◌≡◌, ◌<◌};
ghost use Rattle.zr_frame.specs.Turn.{modulus_of};
ghost use Rattle.zr_wire.specs.Limits.{most_of};
ghost use Rattle.zr_frame.specs.Channel.{fresh, frame, fragment, Receives};
ghost use Rattle.zr_frame.specs.Channels.{one_of, on_one};

use crate::channel::{Channel, ChannelError};
use std::alloc::Global;
use zr_bytes::ByteString;
use zr_msg::peer::Role;
use zr_wire::most_of;

/// The channels of one direction. Both count from the initial number of OPEN, each for itself.
#[derive(Drop)]
pub struct Channels {
    pub reliable: Channel,
    pub best_effort: Channel,
}

impl Channels {
    /// The channels of a session that opens with this initial number, by the two bits of the resolution.
    pub fn new(bits: u8, first: u64) -> Channels
        requires { first < modulus_of bits }
        ensures { result ≡ record { reliable = fresh bits first; best_effort = fresh bits first } }
    {
        Channels {
            reliable: Channel::new(bits, first),
            best_effort: Channel::new(bits, first),
        }
    }

    /// A FRAME came.
    pub fn frame(&mut self, reliable: bool, number: u64) -> Result<(), ChannelError>
        ensures { Receives result (on_one self.old reliable (frame (one_of self.old reliable) number)) self.old self.new }
    {
        if reliable {
            self.reliable.frame(number)
        } else {
            self.best_effort.frame(number)
        }
    }

    /// A FRAGMENT of a peer came, and more follow or none. The last one gives the message.
    pub fn fragment(
        &mut self,
        alloc: Global,
        role: Role,
        reliable: bool,
        more: bool,
        number: u64,
        piece: &[u8],
    ) -> Result<Option<ByteString>, ChannelError>
        ensures { Receives result (on_one self.old reliable (fragment (most_of role) (one_of self.old reliable) more number piece.now)) self.old self.new }
    {
        let most = most_of(role);
        if reliable {
            self.reliable.fragment(alloc, most, more, number, piece)
        } else {
            self.best_effort.fragment(alloc, most, more, number, piece)
        }
    }
}
