//! What a command of the clock protocol did, with its reply.

use scmi_codec::Payload;

/// The reply to a command, and the set that it accepted for later: clock, rate in Hz, and whether a
/// delayed response is wanted. A command that is refused has none.
#[derive(Debug, Drop)]
pub struct ClockDone {
    pub reply: Payload,
    pub later: Option<(u32, u64, bool)>,
}
