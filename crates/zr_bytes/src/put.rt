//! The one spelling of a number or a byte string that is written.

ghost use Rattle.std.specs.Prelude.{◌≡◌, ◌≤◌, ◌++◌, length, take, OnOk, OnErr};
ghost use Rattle.zr_bytes.specs.Number.{writes};
ghost use Rattle.zr_bytes.specs.Text.{writes_text};

use std::alloc::AllocError;

/// The most bytes that a number takes.
const MOST: usize = 9;

/// Appends the shortest spelling of the number. Where memory runs out nothing is appended.
pub fn put_zint(out: &mut Vec<u8>, value: u64) -> Result<(), AllocError>
    ensures ok { OnOk result (out.new.items ≡ out.old.items ++ writes value) }
    ensures err { OnErr result (out.new.items ≡ out.old.items) }
{
    let mut bytes = [0; MOST];
    let mut count = 0;
    let mut rest = value;
    'groups: while rest >= 128 && count < MOST - 1 {
        bytes[count] = (rest % 128) as u8 + 128;
        rest /= 128;
        count += 1;
    }
    bytes[count] = rest as u8;
    out.extend_from_slice(&bytes[..count + 1])
}

/// Appends the length of the bytes, and then the bytes. Where memory runs out nothing is appended.
pub fn put_bytes(out: &mut Vec<u8>, bytes: &[u8]) -> Result<(), AllocError>
    ensures ok { OnOk result (out.new.items ≡ out.old.items ++ writes_text bytes.now) }
    ensures err { OnErr result (out.new.items ≡ out.old.items) }
{
    let start = out.len();
    put_zint(out, bytes.len() as u64)?;
    let put = out.extend_from_slice(bytes);
    all_or_nothing(out, start, put)
}

/// Takes back what was appended behind the first `start` bytes where an append failed, so that a call of several appends
/// leaves all of them or none.
pub fn all_or_nothing(
    out: &mut Vec<u8>,
    start: usize,
    put: Result<(), AllocError>,
) -> Result<(), AllocError>
    requires { start ≤ length out.old.items }
    ensures same { result ≡ put }
    ensures ok { OnOk put (out.new.items ≡ out.old.items) }
    ensures err { OnErr put (out.new.items ≡ take start out.old.items) }
{
    if put.is_err() {
        out.truncate(start);
    }
    put
}
