//! The sizes on which both ends agree.

ghost use Rattle.std.specs.Prelude.{◌≡◌, ◌<◌, ◌≤◌};
ghost use Rattle.zr_open.specs.Sizes.{frame_bits, request_bits, usual, offered, agreed, is_within, told};

use zr_trans::Sizes;

/// The two bits of a resolution of 32 bits.
const BITS_32: u8 = 2;
/// How many resolutions two bits tell apart.
const RESOLUTIONS: u8 = 4;

/// What INIT offers without sizes: 32 bits for frame numbers and for request ids, and batches of 65,535 bytes. This end
/// never has more.
const USUAL: Sizes = Sizes {
    bits: BITS_32 + RESOLUTIONS * BITS_32,
    batch: 65_535,
};

/// The two bits of the resolution of frame numbers.
pub(crate) fn frame_bits(sizes: Sizes) -> u8
    ensures value { result ≡ frame_bits sizes }
    ensures range { result < 4 }
{
    sizes.bits % RESOLUTIONS
}

/// The two bits of the resolution of request ids.
fn request_bits(sizes: Sizes) -> u8
    ensures value { result ≡ request_bits sizes }
    ensures range { result < 4 }
{
    sizes.bits / RESOLUTIONS % RESOLUTIONS
}

/// What an INIT offers.
pub(crate) fn offered(sizes: Option<Sizes>) -> Sizes
    ensures { result ≡ offered sizes }
{
    sizes.unwrap_or(USUAL)
}

/// The lesser of what the peer offers and this end has.
pub(crate) fn agreed(sizes: Sizes) -> Sizes
    ensures value { result ≡ agreed sizes }
    ensures range { result.bits < 16 }
{
    let frame = frame_bits(sizes).min(BITS_32);
    let request = request_bits(sizes).min(BITS_32);
    Sizes {
        bits: frame + RESOLUTIONS * request,
        batch: sizes.batch.min(USUAL.batch),
    }
}

/// Whether an answer stays within what this end offered. No batch is above it.
pub(crate) fn is_within(sizes: Sizes) -> bool
    ensures { result ≡ is_within sizes }
{
    frame_bits(sizes) <= BITS_32 && request_bits(sizes) <= BITS_32
}

/// The sizes as a message tells them: the usual ones go without saying.
pub(crate) fn told(sizes: Sizes) -> Option<Sizes>
    ensures { result ≡ told sizes }
{
    if sizes.bits == USUAL.bits && sizes.batch == USUAL.batch {
        None
    } else {
        Some(sizes)
    }
}
