//! How long a script may wait.

/// The most polls of a wait for a reply, or for a P2A message (own).
pub const TURNS: u32 = 1_000_000;

/// The most calls of an `Order::Until` (own).
pub const CALLS: u32 = 100_000;
