//! The network delivers samples and requests as one broker does: what each client was sent of them is, publisher by publisher, a prefix of what one
//! broker that holds all clients sends it, in one order, and the whole where nothing is under way.

ghost use Rattle.zr_world_spec.specs.Accepted.{LinesAreMoments};
ghost use Rattle.zr_guarantee.specs.Refines.{PhasesDeliver};

/// From each accepted mark on, at every moment of its phase, in every order of steps, samples and requests come as one broker sends them.
pub fn phases_deliver()
    ensures { PhasesDeliver }
{}

/// The accepted acts of a script's lines, a run's steps among them, have ascending numbers and lead to a moment. Its world is
/// that of the run of the lines, and so is its report, but for the lines at the ends of runs.
pub fn lines_are_moments()
    ensures { LinesAreMoments }
{}
