//! For how long who reads from other routers rests.

ghost use Rattle.std.specs.Prelude.{◌≡◌, ◌≤◌, ◌+◌, ◌-◌, false, min, true};
ghost use Rattle.zr_msg.specs.declared.peer.Role.TheVariants as roles;

use zr_msg::peer::Role;

/// For how long who reads from another router rests at most for what one read gave, and for clients until it has caught up, in milliseconds. Many
/// clients are behind it, and that router closes a link on which it can't write for ten seconds.
const MOST_REST_MS: u64 = 250;

/// For how long who reads from another router has rested, in milliseconds.
#[derive(Clone, Copy)]
pub struct Rested {
    // for what the last read gave, and for clients since all that was there was read
    one_read: u64,
    clients: u64,
    ghost read_within: { one_read ≤ 250 },
    ghost clients_within: { clients ≤ 250 },
}

impl Rested {
    /// It has never rested.
    pub fn never() -> Rested
        ensures { (result.one_read ≡ 0) × (result.clients ≡ 0) }
    {
        Rested {
            one_read: 0,
            clients: 0,
        }
    }

    /// For how long it may rest yet for a peer of that role, in milliseconds.
    pub fn left_ms(&self, role: Role) -> u64
        ensures router { role ≡ roles.Router → result ≡ 250 - self.now.one_read }
        ensures client { role ≡ roles.Client → result ≡ min (250 - self.now.one_read) (250 - self.now.clients) }
    {
        let left_ms = MOST_REST_MS - self.one_read;
        match role {
            Role::Client => left_ms.min(MOST_REST_MS - self.clients),
            Role::Router => left_ms,
        }
    }

    /// It rests for so long for a peer of that role, or as long as it may; the answer is how long that is.
    pub fn rest(&mut self, role: Role, ms: u64) -> u64
        ensures most { result ≤ ms }
        ensures one_read { self.new.one_read ≡ self.old.one_read + result }
        ensures router { role ≡ roles.Router → (result ≡ min ms (250 - self.old.one_read)) × (self.new.clients ≡ self.old.clients) }
        ensures client { role ≡ roles.Client → (result ≡ min ms (min (250 - self.old.one_read) (250 - self.old.clients))) × (self.new.clients ≡ self.old.clients + result) }
    {
        let ms = ms.min(self.left_ms(role));
        self.one_read += ms;
        match role {
            Role::Client => {
                self.clients += ms;
                ms
            }
            Role::Router => ms,
        }
    }

    /// It has read once more: all that was there, or a part of it.
    pub fn read(&mut self, is_all: bool)
        ensures one_read { self.new.one_read ≡ 0 }
        ensures all { is_all ≡ true → self.new.clients ≡ 0 }
        ensures part { is_all ≡ false → self.new.clients ≡ self.old.clients }
    {
        self.one_read = 0;
        if is_all {
            self.clients = 0;
        }
    }
}
