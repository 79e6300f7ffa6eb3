//! The verdict on an entry.

use scmi_codec::{Answer, Message};

/// The verdict on an entry of a record, after the entries before it.
#[derive(Clone, Drop)]
pub enum Verdict {
    /// A legal history of the board is behind the entries with this one.
    Same,
    /// The board lacks the agent.
    NoAgent,
    /// An answer that the command was to get; the record shows another.
    Answer(Answer),
    /// A message that the agent was to get next; the record shows another.
    Message(Message),
    /// No message was to come.
    NoMessage,
    /// The hardware could not tell this: no platform that may be behind the entries before takes
    /// it.
    NoReport,
}
