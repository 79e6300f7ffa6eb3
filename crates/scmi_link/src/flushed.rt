//! What came of an agent's outbox.

/// What `Controller::flush` did.
#[derive(Clone, Copy, PartialEq, Eq, Debug)]
pub enum Flushed {
    /// The agent's outbox is empty.
    Nothing,
    /// The agent has not released the message before, or the channel has no place.
    Waiting,
    /// The first message of the outbox was posted.
    Posted,
    /// The agent's P2A channel is closed; the message stays in the outbox.
    Closed,
}
