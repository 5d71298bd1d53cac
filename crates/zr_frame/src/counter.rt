//! The frame numbers of one channel.

ghost use Rattle.std.specs.Prelude.{◌≡◌, ◌<◌, ◌≤◌, ◌^◌, ◌==◌, true};
ghost use Rattle.zr_frame.specs.Turn.{Turn, modulus_of, accepts, after};

use std::marker::Model;

/// The modulus of frame numbers, by the two bits of their resolution: 8, 16, 32 or 64 bits.
pub fn modulus(bits: u8) -> u64
    ensures value { result ≡ modulus_of bits }
    ensures range { result ≤ 2 ^ 63 }
{
    match bits {
        0 => 1 << 7,
        1 => 1 << 14,
        2 => 1 << 28,
        _ => 1 << 63,
    }
}

/// Contracts see the modulus and the number that is expected.
#[derive(Drop)]
pub struct Counter {
    modulus: u64,
    next: u64,
}

impl Model for Counter {
    ghost use Rattle.std.specs.Prelude.{◌<◌, ◌≤◌, ◌^◌};
    ghost use Rattle.zr_frame.specs.Turn.{Turn};

    ghost Value = { Turn };

    ghost view = { λ c. record { modulus = c.modulus; next = c.next } };

    ghost invariant = { λ c. (c.next < c.modulus) × (c.modulus ≤ 2 ^ 63) };
}

impl Counter {
    /// A counter that expects `first`, by the two bits of the resolution.
    pub fn new(bits: u8, first: u64) -> Counter
        requires { first < modulus_of bits }
        ensures { result ≡ record { modulus = modulus_of bits; next = first } }
    {
        Counter {
            modulus: modulus(bits),
            next: first,
        }
    }

    /// Whether a frame of this number may come now: it is the one that is expected, or ahead of it by less than half the
    /// modulus.
    pub fn accepts(&self, number: u64) -> bool
        ensures value { result ≡ accepts self.now number }
        ensures range { result ≡ true → number < 2 ^ 63 }
    {
        number < self.modulus
            && (number + self.modulus - self.next) % self.modulus < self.modulus / 2
    }

    /// Whether it is the number that is expected.
    pub fn expects(&self, number: u64) -> bool
        ensures value { result ≡ (self.now.next == number) }
        ensures range { result ≡ true → number < 2 ^ 63 }
    {
        self.next == number
    }

    /// A frame of this number came: the one behind it is expected.
    pub fn pass(&mut self, number: u64)
        requires { number < 2 ^ 63 }
        ensures { self.new ≡ after self.old number }
    {
        self.next = (number + 1) % self.modulus;
    }
}
