//! What a run left.
use crate::agent_log::AgentLog;
use scmi_core::Trace;

/// What a run of scripts left.
#[derive(Drop)]
pub struct Outcome {
    /// The one history of the platform.
    pub trace: Trace,
    /// What each agent did; item i is agent i + 1's.
    pub logs: Vec<AgentLog>,
    /// Whether the controller ended its rounds because a growth of the trace was refused.
    pub memory: bool,
}
