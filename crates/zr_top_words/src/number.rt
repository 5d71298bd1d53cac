//! Numbers among the program's words: decimal digits without leading zeros.

ghost use Rattle.std.specs.Prelude.{◌≡◌, ◌^◌, nat_lt, Some, None, if◌then◌else◌};
ghost use Rattle.std.specs.List.{list_all};
ghost use Rattle.zr_script_spec.specs.Words.{is_digit, is_number, value_of};
ghost use Rattle.zr_top_words.specs.Asked.{number_below};

/// The number of at most 64 bits that a word spells.
pub fn number(word: &[u8]) -> Option<u64>
    ensures { result ≡ number_below (2 ^ 64) word.now }
{
    if is_number(word) { value(word) } else { None }
}

/// The number of at most 32 bits that a word spells.
pub fn count(word: &[u8]) -> Option<u32>
    ensures { result ≡ number_below (2 ^ 32) word.now }
{
    match number(word) {
        Some(n) if n <= u64::from(u32::MAX) => Some(n as u32),
        _ => None,
    }
}

fn is_number(word: &[u8]) -> bool
    ensures { result ≡ is_number word.now }
{
    match word {
        [] => false,
        [digit] => digit.is_ascii_digit(),
        [first, ..] => *first != b'0' && are_digits(word),
    }
}

fn are_digits(word: &[u8]) -> bool
    ensures { result ≡ list_all is_digit word.now }
{
    word.iter().all(|b| b.is_ascii_digit())
}

// The value of some digits, where it fits.
fn value(word: &[u8]) -> Option<u64>
    ensures { result ≡ (if nat_lt (value_of word.now) (2 ^ 64) then Some (value_of word.now) else None) }
{
    let mut n: u128 = 0;
    for b in word {
        n = n * 10 + u128::from(b.saturating_sub(b'0'));
        if n > u128::from(u64::MAX) {
            return None;
        }
    }
    Some(n as u64)
}
