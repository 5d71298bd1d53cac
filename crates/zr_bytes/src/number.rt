//! One number or byte string at the front of a slice, and the bytes behind it.

ghost use Rattle.std.specs.Prelude.{◌≡◌, ◌<◌, ◌≤◌, IfOk};
ghost use Rattle.zr_bytes.specs.Reading.{Gives, byte_of, number_of, number_below, text_of};

use crate::read_error::ReadError;

/// How many bytes give seven bits each. The one behind them gives all its eight bits.
const GROUPS: u32 = 8;

/// The byte at the front.
#[tactic(auto, unfolding(crate::specs::Reading::byte_of))]
pub(crate) fn byte_at(bytes: &[u8]) -> Result<(u8, &[u8]), ReadError>
    ensures value { Gives (λ x. (x.0, x.1.now)) result (byte_of bytes.now) }
    ensures small { IfOk result (λ x. x.0 < 256) }
{
    match bytes {
        [byte, rest @ ..] => Ok((*byte, rest)),
        [] => Err(ReadError::Short),
    }
}

/// The number at the front.
pub(crate) fn zint_at(bytes: &[u8]) -> Result<(u64, &[u8]), ReadError>
    ensures { Gives (λ x. (x.0, x.1.now)) result (number_of bytes.now) }
{
    let mut value: u64 = 0;
    let mut scale: u64 = 1;
    let mut rest = bytes;
    'groups: for _ in 0..GROUPS {
        let (byte, after) = byte_at(rest)?;
        let byte = u64::from(byte);
        if byte < 128 {
            return Ok((value + byte * scale, after));
        }
        value += (byte - 128) * scale;
        scale *= 128;
        rest = after;
    }
    let (byte, after) = byte_at(rest)?;
    Ok((value + u64::from(byte) * scale, after))
}

/// The number at the front, where it is below the limit of its type.
#[tactic(auto, unfolding(crate::specs::Reading::number_below))]
pub(crate) fn below(bytes: &[u8], limit: u64) -> Result<(u64, &[u8]), ReadError>
    ensures value { Gives (λ x. (x.0, x.1.now)) result (number_below limit bytes.now) }
    ensures bound { IfOk result (λ x. x.0 < limit) }
{
    let (value, rest) = zint_at(bytes)?;
    if value >= limit {
        return Err(ReadError::TooBig);
    }
    Ok((value, rest))
}

/// The byte string at the front, of at most `limit` bytes.
#[tactic(auto, unfolding(crate::specs::Reading::text_of))]
pub(crate) fn text_at(bytes: &[u8], limit: u64) -> Result<(&[u8], &[u8]), ReadError>
    ensures { Gives (λ x. (x.0.now, x.1.now)) result (text_of limit bytes.now) }
{
    let (length, rest) = zint_at(bytes)?;
    if length > limit {
        return Err(ReadError::TooBig);
    }
    if length > rest.len() as u64 {
        return Err(ReadError::Short);
    }
    Ok(rest.split_at(length as usize))
}
