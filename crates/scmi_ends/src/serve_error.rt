//! Why the platform's side did nothing.
use thiserror::Error;

/// Why `serve`, `advance` or `flush` was refused. Nothing was taken, executed or posted. `NoAgent`
/// is checked first (own).
#[derive(Clone, Copy, PartialEq, Eq, Debug, Error)]
pub enum ServeError {
    /// A growth of the trace was refused.
    #[error("out of memory")]
    Memory = 1,
    /// The number is no agent's: 0, which is the platform, or above the number of agents.
    #[error("the board has no such agent")]
    NoAgent = 2,
}
