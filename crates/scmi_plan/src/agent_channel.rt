//! What an agent's channels are.

use crate::limits::PENDING_SETS;
use scmi_codec::{LEAST_PAYLOAD_WORDS, PAYLOAD_WORDS};

/// The fewest payload words of a channel (own): every reply but a list of rates fits them.
pub const LEAST_CHANNEL_WORDS: u32 = LEAST_PAYLOAD_WORDS as u32;

/// The channels of an agent for which nothing else was set: 64 words of payload, both ways, and all
/// pending sets may be the agent's.
pub const WHOLE_CHANNEL: AgentChannel = AgentChannel {
    words: PAYLOAD_WORDS as u32,
    one_way: false,
    share: PENDING_SETS as u32,
};

/// What an agent's channels are (own): how many words of payload each of them has room for, 8 to 64;
/// whether the platform can't send to the agent, which then has no P2A channel; and how many of the
/// platform's pending sets may be the agent's, 1 to 8.
#[derive(Clone, Copy, PartialEq, Eq, Debug, Drop)]
pub struct AgentChannel {
    pub words: u32,
    pub one_way: bool,
    pub share: u32,
}
