//! A port at whose router one can look.

ghost use Rattle.std.specs.Prelude.{◌≡◌, Bool, List, IfOk};
ghost use mathlib.Core.List.{IsPrefix};
ghost use Rattle.zr_hist.specs.Words.{pass_name, IsSamePass, seen, mine};
ghost use Rattle.zr_port.specs.declared.entry.Entry.{Entry};
ghost use Rattle.zr_glance.specs.Glance.{GlanceState};

use std::alloc::AllocError;
use zr_glance::Glance;
use zr_hist::Pass;
use zr_port::{Entry, Port};

/// A port at whose router one can look.
pub trait Glancing: Port {
    // what the router shows after a list of entries
    ghost glance_of: { Self → List Entry → GlanceState };

    // whether a list of entries has it that the router's identifier was in use before
    ghost was_used: { Self → List Entry → Bool };

    /// What the router shows after all that has happened. It adds no entry. Where memory runs out nothing has changed, and later calls go on as before.
    fn glance(&self, pass: &mut Pass<Entry>) -> Result<Glance, AllocError>
        requires pass { pass_name pass.old ≡ Self.history self.now }
        ensures same { IsSamePass pass.old pass.new }
        ensures prefix { IsPrefix (seen pass.old) (seen pass.new) }
        ensures legal { Self.is_legal self.now (seen pass.new) }
        ensures unchanged { mine pass.new ≡ mine pass.old }
        ensures glance { IfOk result (λ g. g ≡ glance_of self.now (seen pass.new)) };

    /// Whether the router has heard, by all that has happened, that its identifier was in use before. It adds no entry, and takes no memory.
    fn was_used_before(&self, pass: &mut Pass<Entry>) -> bool
        requires pass { pass_name pass.old ≡ Self.history self.now }
        ensures same { IsSamePass pass.old pass.new }
        ensures prefix { IsPrefix (seen pass.old) (seen pass.new) }
        ensures legal { Self.is_legal self.now (seen pass.new) }
        ensures unchanged { mine pass.new ≡ mine pass.old }
        ensures told { result ≡ was_used self.now (seen pass.new) };
}
