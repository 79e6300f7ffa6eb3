//! Why nothing was posted or read.

use thiserror::Error;

/// Why a command was not posted.
#[derive(Clone, Copy, PartialEq, Eq, Debug, Error)]
pub enum PostError {
    /// The reply to the previous command was not read.
    #[error("a command is outstanding")]
    Outstanding = 1,
    /// A message is in the area.
    #[error("the channel is not free")]
    NotFree = 2,
}

/// Why nothing was read. Nothing is lost: the agent may poll again.
#[derive(Clone, Copy, PartialEq, Eq, Debug, Error)]
pub enum ReadError {
    /// The agent has no command outstanding.
    #[error("no command is outstanding")]
    NotPosted = 1,
    /// The platform has not answered yet, or has no message for the agent.
    #[error("nothing stands there yet")]
    Nothing = 2,
    /// The platform marked the channel free with the error bit: it took the frame for malformed.
    #[error("the platform answered with a channel error")]
    ChannelError = 3,
    /// The length of header and payload is not well formed.
    #[error("the length is not well formed")]
    Malformed = 4,
    /// The message is not the expected one: it answers another command, or is of no kind that is
    /// known.
    #[error("the message is another")]
    Foreign = 5,
    /// The message has another number of payload words.
    #[error("the message has another number of words")]
    WrongWords = 6,
    /// The status of the message is not a code of DEN0056B.
    #[error("the status is unknown")]
    UnknownStatus = 7,
}
