//! Why an agent's channels are left as they were.

use thiserror::Error;

/// Why `Plan::set_channel` is refused (own).
#[derive(Clone, Copy, PartialEq, Eq, Debug, Error)]
pub enum ChannelError {
    /// The board has no such agent.
    #[error("agents are numbered from 1 to the number of the board's agents")]
    NoAgent,
    /// Fewer than 8 words of payload, or more than 64.
    #[error("a channel has room for 8 to 64 words of payload")]
    Words,
    /// No pending set may be the agent's, or more than 8.
    #[error("1 to 8 pending sets may be an agent's")]
    Share,
}
