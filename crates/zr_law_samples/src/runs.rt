//! What holds of each run: what it says at its end is so.

ghost use Rattle.zr_law_samples.specs.Runs.{RestIsQuiet};

/// A run that ends with `quiet` has left nothing under way, and one that ends with `more` has.
pub fn rest_is_quiet()
    ensures { RestIsQuiet }
{}
