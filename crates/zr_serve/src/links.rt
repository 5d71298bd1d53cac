//! What the links of a router begin with.

ghost use Rattle.std.specs.Prelude.{◌≡◌, ◌≤◌, ◌+◌, ◌%◌, ◌^◌, ◌++◌, ℕ, List, drop, length, take};
ghost use Rattle.zr_access.specs.Rules.{PolicyState};
ghost use Rattle.zr_serve.specs.Jobs.{drawn, first_links, next_start, with_next, word};
ghost use Rattle.zr_serve.specs.Links.{links_of};

use rand_core::Rng;
use zr_id::zid::Zid;
use zr_link_job::{LinkStart, Side};
use zr_msg::peer::Weight;

/// How often a reader reads at most.
const TURNS: u64 = u64::MAX;

/// Whether a router's links have logs, the secret of its cookies, the random words that are left, and the number of the next link.
#[derive(Drop)]
pub(crate) struct Links<W: Rng + Drop> {
    log: bool,
    secret: [u8; 32],
    words: W,
    count: u64,
}

impl<W: Rng + Drop> Links<W> {
    /// Before the first link. The secret takes the first four words.
    pub(crate) fn new(log: bool, mut words: W) -> Links<W>
        ensures { (me : List ℕ) (rules : PolicyState) → links_of (λ w. W.stream w) me rules result ≡ first_links me rules log (W.stream words) }
    {
        let first = words.next_u64().to_le_bytes();
        let second = words.next_u64().to_le_bytes();
        let third = words.next_u64().to_le_bytes();
        let fourth = words.next_u64().to_le_bytes();
        Links {
            log,
            secret: joined(&first, &second, &third, &fourth),
            words,
            count: 0,
        }
    }

    /// The next random word, for another use than a link's.
    pub(crate) fn draw(&mut self) -> u64
        ensures word { (me : List ℕ) (rules : PolicyState) → result ≡ word (links_of (λ w. W.stream w) me rules self.old).words }
        ensures next { (me : List ℕ) (rules : PolicyState) → links_of (λ w. W.stream w) me rules self.new ≡ drawn (links_of (λ w. W.stream w) me rules self.old) }
    {
        self.words.next_u64()
    }

    /// How the next link of this router begins, which weighs so much if the peer is a router.
    pub(crate) fn next(&mut self, me: Zid, side: Side, weight: Weight) -> LinkStart
        ensures own { result.me ≡ me }
        ensures start { (rules : PolicyState) → result ≡ next_start (links_of (λ w. W.stream w) me rules self.old) (record { side = side; weight = weight }) }
        ensures next { (rules : PolicyState) → links_of (λ w. W.stream w) me rules self.new ≡ with_next (links_of (λ w. W.stream w) me rules self.old) }
    {
        let number = self.count;
        self.count = self.count.wrapping_add(1);
        LinkStart {
            side,
            number,
            me,
            secret: self.secret,
            word: self.words.next_u64(),
            weight,
            turns: TURNS,
            log: self.log,
        }
    }
}

// Some words, one behind the other.
#[tactic(auto, using(crate::proofs::Words::four))]
fn joined(first: &[u8; 8], second: &[u8; 8], third: &[u8; 8], fourth: &[u8; 8]) -> [u8; 32]
    ensures { result ≡ ((first.now ++ second.now) ++ third.now) ++ fourth.now }
{
    let mut all = [0; 32];
    put(&mut all, 0, first);
    put(&mut all, 8, second);
    put(&mut all, 16, third);
    put(&mut all, 24, fourth);
    all
}

// Writes a word at a place.
fn put(all: &mut [u8], at: usize, word: &[u8])
    requires { at + length word.now ≤ length all.old }
    ensures { all.new ≡ take at all.old ++ (word.now ++ drop (at + length word.now) all.old) }
{
    all[at..at + word.len()].copy_from_slice(word);
}
