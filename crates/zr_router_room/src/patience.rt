//! How long events that come wait for rings that they may need.

ghost use Rattle.std.specs.Prelude.{◌≡◌, ◌≢◌, ◌<◌, ◌≤◌, ◌+◌, ◌-◌, ◌^◌, ℕ, true, false, None, IfSome};
ghost use Rattle.zr_router_room.specs.declared.crowds.Outlook.TheVariants as outlooks;

use crate::crowds::Outlook;
use crate::reach::{Coming, size_of};
use zr_msg::msg::Msg;

/// How long an event waits at most, in milliseconds.
const MOST_WAIT_MS: u64 = 5_000;

/// How long it waits at most while nothing is taken of the rings, in milliseconds.
const MOST_IDLE_MS: u64 = 2_000;

/// For how long at most a sample that may be dropped lets an event go first that has waited, in milliseconds.
const MOST_LATER_MS: u64 = 3;

/// Until the next look an event rests a millisecond at first, and longer once it has waited for some: each look takes the lock.
const LOOK_MS: u64 = 1;

const LATER_LOOK_MS: u64 = 4;

const SOME_MS: u64 = 16;

/// How long events that come one after another wait yet, in milliseconds.
#[derive(Drop)]
pub struct Patience {
    // for how long all may wait together, and have waited
    most: u64,
    all: u64,
    // for how long the last one has waited, has waited since the rings were last seen to change, and has let others go first
    waited: u64,
    idle: u64,
    later: u64,
    // how many slots were free at the last look, and how many events had got in that had waited
    free: u64,
    moves: u64,
    has_asked: bool,
    ghost within: { all ≤ most },
}

impl Patience {
    /// The first event comes. They wait as long as each may.
    pub fn new() -> Patience
        ensures { (result.most ≡ 2 ^ 64 - 1) × (result.all ≡ 0) × (result.waited ≡ 0) × (result.idle ≡ 0) × (result.later ≡ 0) }
    {
        Patience::within(u64::MAX)
    }

    /// The same where all wait for so long at most together, in milliseconds.
    pub fn within(most: u64) -> Patience
        ensures { (result.most ≡ most) × (result.all ≡ 0) × (result.waited ≡ 0) × (result.idle ≡ 0) × (result.later ≡ 0) }
    {
        Patience {
            most,
            all: 0,
            waited: 0,
            idle: 0,
            later: 0,
            free: 0,
            moves: 0,
            has_asked: false,
        }
    }

    /// The next event comes.
    pub fn next(&mut self)
        ensures all { (self.new.most ≡ self.old.most) × (self.new.all ≡ self.old.all) }
        ensures fresh { (self.new.waited ≡ 0) × (self.new.idle ≡ 0) × (self.new.later ≡ 0) × (self.new.has_asked ≡ false) }
    {
        self.waited = 0;
        self.idle = 0;
        self.later = 0;
        self.free = 0;
        self.has_asked = false;
    }

    /// Whether the event found too little room in a ring, so that others let it go first.
    pub fn has_asked(&self) -> bool
        ensures { result ≡ self.now.has_asked }
    {
        self.has_asked
    }

    /// For how long it rests until it looks anew, in milliseconds, where it may rest for so long yet; None where it waits no more. So many events have got
    /// in that had waited.
    pub fn rest_ms(&mut self, outlook: Outlook, moves: u64, left_ms: u64) -> Option<u64>
        ensures clear { outlook ≡ outlooks.Clear → result ≡ None }
        ensures rests { IfSome result (λ ms. (0 < ms) × (ms ≤ left_ms) × (self.new.all ≡ self.old.all + ms)) }
        ensures stops { result ≡ None → self.new.all ≡ self.old.all }
        ensures most { self.new.most ≡ self.old.most }
        ensures waits { (links : ℕ) → (free : ℕ) → outlook ≡ outlooks.Full links free → 0 < left_ms → self.old.all < self.old.most → self.old.waited < 5000 → self.old.idle < 2000 → result ≢ None }
        ensures gives_up { (links : ℕ) → (free : ℕ) → outlook ≡ outlooks.Full links free → 5000 ≤ self.old.waited → result ≡ None }
        ensures idles { (links : ℕ) → (free : ℕ) → outlook ≡ outlooks.Full links free → 2000 ≤ self.old.idle → free ≡ self.old.free → moves ≡ self.old.moves → result ≡ None }
        ensures counts { (links : ℕ) → (free : ℕ) → outlook ≡ outlooks.Full links free → IfSome result (λ ms. self.new.waited ≡ self.old.waited + ms) }
        ensures still { (links : ℕ) → (free : ℕ) → outlook ≡ outlooks.Full links free → free ≡ self.old.free → moves ≡ self.old.moves → IfSome result (λ ms. self.new.idle ≡ self.old.idle + ms) }
        ensures asked { (links : ℕ) → (free : ℕ) → outlook ≡ outlooks.Full links free → self.new.has_asked ≡ true }
    {
        let left_ms = left_ms.min(self.most - self.all);
        match outlook {
            Outlook::Clear => None,
            Outlook::Later => self.lets_others_go(left_ms),
            Outlook::Full { free, .. } => self.waits(free, moves, left_ms),
        }
    }

    fn lets_others_go(&mut self, left_ms: u64) -> Option<u64>
        requires { self.old.all + left_ms ≤ self.old.most }
        ensures rests { IfSome result (λ ms. (0 < ms) × (ms ≤ left_ms) × (self.new.all ≡ self.old.all + ms)) }
        ensures stops { result ≡ None → self.new.all ≡ self.old.all }
        ensures most { self.new.most ≡ self.old.most }
    {
        if left_ms == 0 || self.later >= MOST_LATER_MS {
            return None;
        }
        self.later += LOOK_MS;
        self.all += LOOK_MS;
        Some(LOOK_MS)
    }

    fn waits(&mut self, free: u64, moves: u64, left_ms: u64) -> Option<u64>
        requires { self.old.all + left_ms ≤ self.old.most }
        ensures rests { IfSome result (λ ms. (0 < ms) × (ms ≤ left_ms) × (self.new.all ≡ self.old.all + ms)) }
        ensures stops { result ≡ None → self.new.all ≡ self.old.all }
        ensures most { self.new.most ≡ self.old.most }
        ensures waits { 0 < left_ms → self.old.waited < 5000 → self.old.idle < 2000 → result ≢ None }
        ensures gives_up { 5000 ≤ self.old.waited → result ≡ None }
        ensures idles { 2000 ≤ self.old.idle → free ≡ self.old.free → moves ≡ self.old.moves → result ≡ None }
        ensures counts { IfSome result (λ ms. self.new.waited ≡ self.old.waited + ms) }
        ensures still { free ≡ self.old.free → moves ≡ self.old.moves → IfSome result (λ ms. self.new.idle ≡ self.old.idle + ms) }
        ensures asked { self.new.has_asked ≡ true }
    {
        self.has_asked = true;
        if free != self.free || moves != self.moves {
            self.free = free;
            self.moves = moves;
            self.idle = 0;
        }
        if left_ms == 0 || self.waited >= MOST_WAIT_MS || self.idle >= MOST_IDLE_MS {
            return None;
        }
        let look_ms = if self.waited < SOME_MS {
            LOOK_MS
        } else {
            LATER_LOOK_MS
        };
        let rest_ms = look_ms.min(left_ms);
        self.all += rest_ms;
        self.waited += rest_ms;
        self.idle += rest_ms;
        Some(rest_ms)
    }
}

/// A read of so many bytes at least may have left some, of those that it may give.
const FULL_READ_BYTES: usize = 32_768;

/// How the messages of one read are delivered.
#[derive(Drop)]
pub struct Pace {
    /// Whether each message is a sample that may be dropped.
    pub all_may_drop: bool,
    /// The links, a bit for each, that none of the messages may reach, as far as that was looked for.
    pub clear_of: u128,
    /// How long the next message waits yet.
    pub patience: Patience,
    // whether who brings them has read all that was there, until it was told
    is_all: Option<bool>,
}

impl Pace {
    /// Of these messages, which may not reach these links, a bit for each, nothing is delivered yet.
    pub fn of(messages: &[Msg], clear_of: u128) -> Pace {
        Pace {
            all_may_drop: messages
                .iter()
                .all(|msg| Coming::Message(msg).may_be_dropped()),
            clear_of,
            patience: Patience::new(),
            is_all: Some(bytes_of(messages) < FULL_READ_BYTES),
        }
    }

    /// Whether who brings them has read all that was there. It is told once, as the first of them is to be delivered.
    pub fn begin(&mut self) -> Option<bool>
        ensures value { result ≡ self.old.is_all }
        ensures once { self.new.is_all ≡ None }
    {
        self.is_all.take()
    }

    /// A message has come. Where it has waited, what was looked for may have changed.
    pub fn came(&mut self) {
        if self.patience.has_asked() {
            self.clear_of = 0;
        }
    }
}

// How many bytes of a read these messages are, about.
fn bytes_of(messages: &[Msg]) -> usize {
    let mut bytes = 0usize;
    for msg in messages {
        bytes = bytes.saturating_add(size_of(msg));
    }
    bytes
}
