//! What a crew runs.

/// A job that a thread of its own does. `T` is told of it once it is started, and `O` is what it leaves where it has ended.
pub trait Job<T, O> {
    // what is told of it
    ghost told: { Self → T };

    // what it may leave; where this isn't told, that is anything
    ghost leaves: { Self → O → Type 0 } = { λ _ _. Unit {0} };
}
