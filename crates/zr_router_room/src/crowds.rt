//! How much room rings have, as far as an event that comes asks.

ghost use Rattle.std.specs.Prelude.{◌≡◌, ◌<◌, ◌≤◌, ◌+◌, ◌-◌, ◌^◌, ℕ, min};
ghost use Rattle.zr_router_room.specs.declared.crowds.Outlook.TheVariants as outlooks;

use crate::links::bit_of;
use zr_id::link::LinkNo;

/// What an event that comes is to wait for.
#[derive(Clone, Copy)]
pub enum Outlook {
    /// For nothing.
    Clear,
    /// For the rings of these links, a bit for each, that have too little room. All that it may reach have so many free slots together, which
    /// changes as they are emptied.
    Full { links: u128, free: u64 },
    /// For another event that has waited for a ring, which has room now.
    Later,
}

impl Outlook {
    /// The links, a bit for each, whose rings it waits for since they have too little room.
    pub fn wanted(self) -> u128
        ensures clear { self ≡ outlooks.Clear → result ≡ 0 }
        ensures full { (links : ℕ) → (free : ℕ) → self ≡ outlooks.Full links free → result ≡ links }
        ensures later { self ≡ outlooks.Later → result ≡ 0 }
    {
        match self {
            Outlook::Full { links, .. } => links,
            Outlook::Clear | Outlook::Later => 0,
        }
    }
}

/// The rings that an event may need: the links, a bit for each, of those that lack room for its parcels, and the free slots of all.
#[derive(Clone, Copy)]
pub struct Crowds {
    parcels: u64,
    lacking: u128,
    free: u64,
}

impl Crowds {
    /// No ring yet, of an event that has so many parcels for each.
    pub fn none(parcels: u64) -> Crowds
        ensures { (result.parcels ≡ parcels) × (result.lacking ≡ 0) × (result.free ≡ 0) }
    {
        Crowds {
            parcels,
            lacking: 0,
            free: 0,
        }
    }

    /// And that of one more link, which has so many free slots.
    pub fn add(&mut self, link: LinkNo, free: u32)
        ensures parcels { self.new.parcels ≡ self.old.parcels }
        ensures room { self.old.parcels ≤ free → self.new.lacking ≡ self.old.lacking }
        ensures free { self.new.free ≡ min (self.old.free + free) (2 ^ 64 - 1) }
    {
        if u64::from(free) < self.parcels {
            self.lacking |= bit_of(link);
        }
        self.free = self.free.saturating_add(u64::from(free));
    }

    /// What the event is to wait for.
    pub fn outlook(&self) -> Outlook
        ensures clear { self.now.lacking ≡ 0 → result ≡ outlooks.Clear }
        ensures full { 0 < self.now.lacking → result ≡ outlooks.Full self.now.lacking self.now.free }
    {
        if self.lacking == 0 {
            return Outlook::Clear;
        }
        Outlook::Full {
            links: self.lacking,
            free: self.free,
        }
    }

    /// What an event is to wait for that lets others go first, which wait for these rings.
    pub fn outlook_behind(&self) -> Outlook
        ensures later { 0 < self.now.free → result ≡ outlooks.Later }
        ensures clear { self.now.free ≡ 0 → result ≡ outlooks.Clear }
    {
        if self.free > 0 {
            Outlook::Later
        } else {
            Outlook::Clear
        }
    }
}
