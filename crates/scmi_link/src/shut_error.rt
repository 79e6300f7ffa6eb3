//! Why the platform's side was not closed.
use thiserror::Error;

/// Why `Controller::close` was refused. After `InService` and `ReplyWaiting` the agent's A2P
/// channel is closed and its P2A channel is not, and the call may be repeated; after `NoAgent`,
/// which is checked first, nothing has changed (own).
#[derive(Clone, Copy, PartialEq, Eq, Debug, Error)]
pub enum ShutError {
    /// The agent has taken the last P2A message, or may yet take it.
    #[error("a message is in service")]
    InService = 1,
    /// The agent's release waits to be collected.
    #[error("a release is waiting")]
    ReplyWaiting = 2,
    /// The number is no agent's: 0, which is the platform, or above the number of agents.
    #[error("the board has no such agent")]
    NoAgent = 3,
}
