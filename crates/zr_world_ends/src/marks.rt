//! Marks at places, one bit each: those of the ends at which a step is possible.

ghost use Rattle.std.specs.Prelude.{◌≡◌, ◌≢◌, ℕ, ◌==◌, ◌*◌, ◌<◌, ◌≤◌, true, false, not, cond, length, IfNone, IfSome, OnOk};
ghost use Rattle.std.specs.Int.{bit_at};
ghost use Rattle.std.specs.List.{position};
ghost use Rattle.zr_world_ends.specs.Index.{has_mark};

use std::alloc::AllocError;

/// How many marks a word has.
const WORD: usize = 64;

/// A place is marked, or is no longer.
pub fn set(words: &mut [u64], place: usize, is_marked: bool)
    requires { place < 64 * length words.old }
    ensures marks { (q : ℕ) → has_mark words.new q ≡ cond (q == place) is_marked (has_mark words.old q) }
    ensures room { length words.new ≡ length words.old }
{
    let word = &mut words[place / WORD];
    *word = with_bit(*word, place % WORD, is_marked);
}

fn with_bit(word: u64, place: usize, is_set: bool) -> u64
    requires { place < 64 }
    ensures same { bit_at result place ≡ cond is_set 1 0 }
    ensures others { (q : ℕ) → q < 64 → q ≢ place → bit_at result q ≡ bit_at word q }
{
    if is_set {
        word | (1 << place)
    } else {
        word & !(1 << place)
    }
}

/// The first place that is marked, where all that are marked are below `places`.
pub fn first(words: &[u64], places: usize) -> Option<usize>
    requires { (q : ℕ) → has_mark words.now q ≡ true → q < places }
    ensures none { IfNone result ((q : ℕ) → has_mark words.now q ≡ false) }
    ensures marked { IfSome result (λ i. has_mark words.now i ≡ true) }
    ensures least { IfSome result (λ i. (q : ℕ) → q < i → has_mark words.now q ≡ false) }
{
    match first_word(words) {
        Some(at) => {
            let bit = lowest(words[at]);
            Some(at * WORD + bit)
        }
        None => None,
    }
}

fn lowest(word: u64) -> usize
    requires { 0 < word }
    ensures within { result < 64 }
    ensures is_set { bit_at word result ≡ 1 }
    ensures least { (q : ℕ) → q < result → bit_at word q ≡ 0 }
{
    word.trailing_zeros() as usize
}

fn first_word(words: &[u64]) -> Option<usize>
    ensures { result ≡ position (λ w. not (w == 0)) words.now }
{
    words.iter().position(|word| *word != 0)
}

/// There is room for the mark of one more place than these.
pub fn make_room(words: &mut Vec<u64>, places: usize) -> Result<(), AllocError>
    requires { places ≤ 64 * length words.old.items }
    ensures room { OnOk result (places < 64 * length words.new.items) }
    ensures within { places ≤ 64 * length words.new.items }
    ensures marks { (q : ℕ) → has_mark words.new.items q ≡ has_mark words.old.items q }
{
    if places / WORD >= words.len() {
        words.push(0)?;
    }
    Ok(())
}
