//! What a command of the base protocol did.

use scmi_codec::Payload;

/// The reply to a command, and the agent that it reset, whose notification requests end. A command
/// that is refused resets no agent.
#[derive(Debug, Drop)]
pub struct BaseDone {
    pub reply: Payload,
    pub reset: Option<u32>,
}
