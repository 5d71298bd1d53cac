//! One channel of a session: its frame numbers, and the message that comes in fragments.

ghost use Rattle.std.specs.Prelude.{◌≡◌, ◌<◌, ◌^◌, ◌++◌, true, length, Some, OnOk, OnErr};
ghost use Rattle.zr_frame.specs.Turn.{modulus_of};
ghost use Rattle.zr_frame.specs.Channel.{so_far, in_turn, fresh, frame, fragment, Receives};

use crate::counter::Counter;
use std::alloc::{AllocError, Global};
use thiserror::Error;
use zr_bytes::ByteString;

/// One channel, reliable or best effort (Zenoh protocol 1.0, "Frame" and "Fragment").
#[derive(Drop)]
pub struct Channel {
    pub numbers: Counter,
    /// What came of a message whose last fragment is still to come.
    pub assembly: Option<ByteString>,
}

/// Why a frame or a fragment is refused.
#[derive(Clone, Copy, Debug, PartialEq, Eq, Drop, Error)]
pub enum ChannelError {
    #[error("the frame number is not accepted now")]
    OutOfTurn,
    #[error("a message is above the limit of its sender")]
    TooLong,
    #[error("out of memory")]
    NoMemory,
}

impl From<AllocError> for ChannelError {
    ghost use Rattle.std.specs.Prelude.{◌≡◌};
    ghost use Rattle.zr_frame.specs.declared.channel.ChannelError.TheVariants.{NoMemory};

    ghost from_gives = { λ _ e. e ≡ NoMemory };

    fn from(_e: AllocError) -> ChannelError {
        ChannelError::NoMemory
    }
}

impl Channel {
    /// A channel whose first frame has this number, by the two bits of the resolution.
    pub fn new(bits: u8, first: u64) -> Channel
        requires { first < modulus_of bits }
        ensures { result ≡ fresh bits first }
    {
        Channel {
            numbers: Counter::new(bits, first),
            assembly: None,
        }
    }

    /// A frame came. It discards a message that is unfinished.
    pub fn frame(&mut self, number: u64) -> Result<(), ChannelError>
        ensures { Receives result (frame self.old number) self.old self.new }
    {
        if !self.numbers.accepts(number) {
            return Err(ChannelError::OutOfTurn);
        }
        self.numbers.pass(number);
        self.assembly = None;
        Ok(())
    }

    /// A fragment came, and more follow or none. The last one gives the message, of at most so many bytes. The limit is
    /// judged before anything is copied, and memory is taken for the bytes that came alone.
    pub fn fragment(
        &mut self,
        alloc: Global,
        most: usize,
        more: bool,
        number: u64,
        piece: &[u8],
    ) -> Result<Option<ByteString>, ChannelError>
        ensures { Receives result (fragment most self.old more number piece.now) self.old self.new }
    {
        if !self.may_continue(number) {
            return Err(ChannelError::OutOfTurn);
        }
        let held = assembled(&self.assembly);
        if held > most || piece.len() > most - held {
            return Err(ChannelError::TooLong);
        }
        join(alloc, &mut self.assembly, piece)?;
        self.numbers.pass(number);
        if more {
            return Ok(None);
        }
        Ok(self.assembly.take())
    }

    /// Whether a fragment of this number may come now.
    fn may_continue(&self, number: u64) -> bool
        ensures value { result ≡ in_turn self.now.numbers self.now.assembly number }
        ensures range { result ≡ true → number < 2 ^ 63 }
    {
        match self.assembly {
            None => self.numbers.accepts(number),
            Some(_) => self.numbers.expects(number),
        }
    }
}

/// How many bytes of a message came.
fn assembled(assembly: &Option<ByteString>) -> usize
    ensures { result ≡ length (so_far assembly.now) }
{
    match assembly {
        None => 0,
        Some(bytes) => bytes.as_slice().len(),
    }
}

fn join(alloc: Global, assembly: &mut Option<ByteString>, piece: &[u8]) -> Result<(), AllocError>
    ensures ok { OnOk result (assembly.new ≡ Some (so_far assembly.old ++ piece.now)) }
    ensures err { OnErr result (assembly.new ≡ assembly.old) }
{
    match assembly {
        Some(bytes) => bytes.append(piece),
        None => {
            *assembly = Some(ByteString::from_slice(alloc, piece)?);
            Ok(())
        }
    }
}
