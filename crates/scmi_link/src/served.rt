//! What came of serving an agent.

/// What `Controller::serve` did.
#[derive(Clone, Copy, PartialEq, Eq, Debug)]
pub enum Served {
    /// Nothing was taken off the agent's A2P channel.
    Nothing,
    /// One frame was taken, executed and answered.
    Done,
}
