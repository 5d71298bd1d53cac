//! Lists of any kind, for the crates above: definitions and lemmas on prefixes, on lists that ascend by a key, on filters, tests and
//! elements; and bytes that are cut at a byte, one part at a time, as a text into chunks and a script into lines.
#![tactic(auto)]

ghost use Rattle.std.specs.Prelude.{◌≡◌, ◌==◌, ◌<◌, ◌∷◌, length, position, IfSome};
ghost use Rattle.std.specs.Option.{option_copied};
ghost use Rattle.zr_lists.specs.Cut.{parts};
ghost use Rattle.std.specs.List.{slice_split};

/// The part before the first `at`, and what is behind it where there is one.
pub fn cut(bytes: &[u8], at: u8) -> (&[u8], Option<&[u8]>)
    ensures parts { slice_split (λ b. b == at) bytes.now ≡ result.0.now ∷ parts at (option_copied result.1) }
    ensures shorter { IfSome result.1 (λ more. length more.now < length bytes.now) }
{
    match place(bytes, at) {
        Some(place) => (&bytes[..place], Some(&bytes[place + 1..])),
        None => (bytes, None),
    }
}

fn place(bytes: &[u8], at: u8) -> Option<usize>
    ensures { result ≡ position (λ b. b == at) bytes.now }
{
    bytes.iter().position(|b| *b == at)
}
