//! The two channels between the platform and one agent.

use scmi_link::Channel;

/// An agent's channels: A2P carries its commands to the platform, and P2A carries delayed responses
/// and notifications to it (DEN0056B, shared memory transport). A link is shared; its endpoints are
/// not.
#[derive(Drop)]
pub struct Link<C: Channel> {
    pub a2p: C,
    pub p2a: C,
}
