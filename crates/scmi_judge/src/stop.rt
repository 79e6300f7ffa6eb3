//! Why no more guesses are made.

/// Why no more guesses are made.
#[derive(Clone, Copy)]
pub(crate) enum Stop {
    /// No place is free.
    Full,
    /// Out of memory.
    Memory,
}
