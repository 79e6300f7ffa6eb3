//! Why a script ended early.

/// Why a script ended before its last line was done.
#[derive(Clone, Copy, PartialEq, Eq, Debug)]
pub enum Stop {
    /// A wait ran out, or an `Order::Until` did not see its state.
    Limit,
    /// Room in the agent's log was refused, before the command was posted or the message taken.
    Memory,
}
