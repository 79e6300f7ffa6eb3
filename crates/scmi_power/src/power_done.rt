//! What a command of the power domain protocol did, with its reply.

use scmi_codec::Payload;

/// The reply to a command; the domain and state that it set now, even to an equal state; and the
/// domain and state that it accepted for later. A command that is refused has neither.
#[derive(Debug, Drop)]
pub struct PowerDone {
    pub reply: Payload,
    pub changed: Option<(u32, u32)>,
    pub later: Option<(u32, u32)>,
}
