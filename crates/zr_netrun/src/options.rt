//! What is asked for beside a script.

/// What is asked for beside a script.
#[derive(Clone, Copy)]
pub struct NetOptions {
    /// At the script's end four counts of the report are written in its place.
    pub summary: bool,
    /// The explanation of a refused line stands behind the line that tells its refusal.
    pub explain: bool,
}
