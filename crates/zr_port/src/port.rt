//! `Port`: the calls by which links reach a router's tables.

ghost use Rattle.std.specs.Prelude.{◌≡◌, ◌≢◌, ℕ, Bool, true, List, [], Option, Result, IfOk, IfErr, OnOk, OnErr, Some, None};
ghost use mathlib.Core.List.{IsPrefix};
ghost use Rattle.std.specs.List.{AllByRecursion};
ghost use Rattle.atomic_table.specs.Seated.{TableId};
ghost use Rattle.zr_id.specs.declared.link.LinkNo.{LinkNo};
ghost use Rattle.zr_msg.specs.Peer.{PeerState};
ghost use Rattle.zr_msg.specs.declared.msg.Msg.{Msg};
ghost use Rattle.zr_msg.specs.declared.event.Event.TheVariants as event;
ghost use Rattle.zr_hist.specs.Rule.{longer};
ghost use Rattle.zr_hist.specs.Words.{pass_name, IsSamePass, seen, mine};
ghost use Rattle.zr_ring.specs.Taker.{taken, taker_name, take_calls};
ghost use Rattle.zr_wire.specs.Writing.{IsSpelled};
ghost use Rattle.zr_access.specs.Rules.{PolicyState};
ghost use Rattle.zr_port.specs.declared.entry.Entry.{Entry};
ghost use Rattle.zr_port.specs.declared.error.UpError.{UpError};
ghost use Rattle.zr_port.specs.declared.error.DeliverError.{DeliverError};
ghost use Rattle.zr_port.specs.declared.error.DownError.{DownError};
ghost use Rattle.zr_port.specs.Adding.{Adds, IsEntryOf, IsLeastFree, IsAdmitted};
ghost use Rattle.zr_port.specs.Coming.{ComesUpTo, Sight, StopsAt, sight};
ghost use Rattle.zr_port.specs.Ring.{IsRingOf};

use crate::entry::Entry;
use crate::error::{DeliverError, DownError, UpError};
use zr_frame::Outbox;
use zr_hist::Pass;
use zr_id::link::LinkNo;
use zr_msg::msg::Msg;
use zr_msg::peer::Peer;
use zr_ring::{Note, Taker};

/// A router as its links see it. It is shared by reference, and each thread has a pass of its history. Each Ok of `up`, `deliver` and `down` adds
/// one entry to that history, and a refusal adds none.
pub trait Port {
    /// What vouches for the parcels that the takers take.
    type Note: Note + Drop;

    // which router it is
    ghost router: { Self → List ℕ };

    // which history its entries stand in
    ghost history: { Self → TableId };

    // by which rules clients are judged
    ghost policy: { Self → PolicyState };

    // which lists of entries the history can be
    ghost is_legal: { Self → List Entry → Type 0 };

    // whether a link is up after a list of entries
    ghost is_up: { Self → List Entry → LinkNo → Bool };

    // after which lists of entries a call is refused, and why; where memory ran out nothing is said
    ghost refuses_up: { Self → List Entry → PeerState → UpError → Type 0 };

    ghost refuses_message: { Self → List Entry → LinkNo → Msg → DeliverError → Type 0 };

    ghost refuses_down: { Self → List Entry → LinkNo → DownError → Type 0 };

    // What a call of `down` for a reason answers, and what its pass had seen and added before and behind it. Who knows of a port only that it is one shows this
    // by such a call alone
    ghost answers_down: { Self → LinkNo → Option ℕ → Sight → Sight → Result (Unit {0}) DownError → Type 0 } = { λ _ _ _ _ _ _. Unit {0} };

    /// A session with a peer has opened: its link comes up under the least number that isn't up, and what is queued for it comes to the taker, which is
    /// that of its own ring.
    fn up(
        &self,
        pass: &mut Pass<Entry>,
        peer: Peer,
        outbox: Outbox,
    ) -> Result<(LinkNo, Taker<Self::Note>), UpError>
        requires pass { pass_name pass.old ≡ history self.now }
        ensures same { IsSamePass pass.old pass.new }
        ensures prefix { IsPrefix (seen pass.old) (seen pass.new) }
        ensures legal { is_legal self.now (seen pass.new) }
        ensures added { IfOk result (λ r. Adds pass.old pass.new (λ before e. IsEntryOf (event.Up r.0 peer) (Some outbox) None e × IsLeastFree (is_up self.now before) r.0 × IsAdmitted (refuses_up self.now before peer))) }
        ensures link { IfOk result (λ r. is_up self.now (seen pass.new) r.0 ≡ true) }
        ensures taker { IfOk result (λ r. (taken r.1 ≡ []) × (take_calls r.1 ≡ 0)) }
        ensures ring { IfOk result (λ r. IsRingOf (router self.now) r.0 (seen pass.new) (taker_name r.1)) }
        ensures refused { IfErr result (λ e. e ≢ UpError.NoMemory → refuses_up self.now (seen pass.new) peer e) }
        ensures unchanged { OnErr result (mine pass.new ≡ mine pass.old) };

    /// A message that has a spelling on the wire has come over a link.
    fn deliver(&self, pass: &mut Pass<Entry>, link: LinkNo, msg: Msg) -> Result<(), DeliverError>
        requires pass { pass_name pass.old ≡ history self.now }
        requires spelled { IsSpelled msg }
        ensures same { IsSamePass pass.old pass.new }
        ensures prefix { IsPrefix (seen pass.old) (seen pass.new) }
        ensures legal { is_legal self.now (seen pass.new) }
        ensures added { IfOk result (λ _. Adds pass.old pass.new (λ before e. IsEntryOf (event.From link msg) None None e × IsAdmitted (refuses_message self.now before link msg))) }
        ensures refused { IfErr result (λ e. e ≢ DeliverError.NoMemory → refuses_message self.now (seen pass.new) link msg e) }
        ensures unchanged { OnErr result (mine pass.new ≡ mine pass.old) };

    /// Messages that have a spelling on the wire have come over a link. They are delivered in order, each as `deliver` does it. Those that a rule denies
    /// are passed over, and so are those that take back what may have been denied. The first that is refused otherwise is let go with those behind it.
    fn deliver_all(
        &self,
        pass: &mut Pass<Entry>,
        link: LinkNo,
        messages: Vec<Msg>,
    ) -> Result<(), DeliverError>
        requires pass { pass_name pass.old ≡ history self.now }
        requires spelled { AllByRecursion IsSpelled messages.items }
        ensures same { IsSamePass pass.old pass.new }
        ensures prefix { IsPrefix (seen pass.old) (seen pass.new) }
        ensures legal { messages.items ≢ [] → is_legal self.now (seen pass.new) }
        ensures all { OnOk result (ComesUpTo link (λ h m e. refuses_message self.now h link m e) messages.items [] (sight pass.old) (sight pass.new)) }
        ensures stopped { IfErr result (λ e. (rest : List Msg) × ComesUpTo link (λ h m x. refuses_message self.now h link m x) messages.items rest (sight pass.old) (sight pass.new) × StopsAt (λ m x. refuses_message self.now (seen pass.new) link m x) rest e) };

    /// A link has ended, by this end for the reason where there is one. Its ring gets its end with that reason unless it has one.
    fn down(
        &self,
        pass: &mut Pass<Entry>,
        link: LinkNo,
        reason: Option<u8>,
    ) -> Result<(), DownError>
        requires pass { pass_name pass.old ≡ history self.now }
        ensures same { IsSamePass pass.old pass.new }
        ensures prefix { IsPrefix (seen pass.old) (seen pass.new) }
        ensures legal { is_legal self.now (seen pass.new) }
        ensures added { IfOk result (λ _. Adds pass.old pass.new (λ before e. IsEntryOf (event.Down link) None reason e × IsAdmitted (refuses_down self.now before link))) }
        ensures refused { IfErr result (λ e. e ≢ DownError.NoMemory → refuses_down self.now (seen pass.new) link e) }
        ensures answered { answers_down self.now link reason (sight pass.old) (sight pass.new) result }
        ensures unchanged { OnErr result (mine pass.new ≡ mine pass.old) };

    /// A pass for one more thread, which has seen as much and appended nothing. It waits for nobody and takes no memory.
    fn split(&self, pass: &mut Pass<Entry>) -> Pass<Entry>
        requires { pass_name pass.old ≡ history self.now }
        ensures same { IsSamePass pass.old pass.new }
        ensures unchanged { (seen pass.new ≡ seen pass.old) × (mine pass.new ≡ mine pass.old) }
        ensures of { pass_name result ≡ history self.now }
        ensures new { (seen result ≡ seen pass.old) × (mine result ≡ []) };

    /// The pass has then seen the longer of what the two had seen. The entries of the other stay in the history.
    fn join(&self, pass: &mut Pass<Entry>, other: Pass<Entry>)
        requires pass { pass_name pass.old ≡ history self.now }
        requires other { pass_name other ≡ history self.now }
        ensures same { IsSamePass pass.old pass.new × (mine pass.new ≡ mine pass.old) }
        ensures seen { seen pass.new ≡ longer (seen pass.old) (seen other) }
        ensures prefixes { IsPrefix (seen pass.old) (seen pass.new) × IsPrefix (seen other) (seen pass.new) };

    /// Whether memory ran out in an earlier call, so that each later one is refused for want of it. Nothing is promised of it.
    fn is_spent(&self) -> bool;

    /// Rests until the writer of the link is woken, since something was queued for it, or for so many milliseconds. Nothing is promised of how long.
    fn rest(&self, link: LinkNo, most: u64);
}
