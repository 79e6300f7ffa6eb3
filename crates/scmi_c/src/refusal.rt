//! Why a call did nothing.
use thiserror::Error;

/// Why a call on a platform did nothing.
#[derive(Clone, Copy, PartialEq, Eq, Debug, Error)]
pub enum Refusal {
    /// No frame to answer, no command that was asked about, no set pending, or no message to post.
    #[error("there is nothing to do")]
    Nothing = 1,
    /// The number is no agent's.
    #[error("the board has no such agent")]
    NoAgent = 3,
    /// The channel is not free.
    #[error("the channel is not free")]
    NotFree = 4,
    /// The channel is free, and so its area holds no frame.
    #[error("the area holds no frame")]
    NoFrame = 5,
    /// The area has not the size of the agent's channel.
    #[error("the area has not the size of the channel")]
    WrongSize = 6,
    /// The number is that of no status which says why hardware refused.
    #[error("the number is no status of hardware that refused")]
    WrongStatus = 7,
    /// The board lacks the domain or clock.
    #[error("the board has no such domain or clock")]
    NoResource = 8,
    /// A domain's state is neither ON nor OFF.
    #[error("the state is neither on nor off")]
    NoState = 9,
    /// The command that was asked about is to give no clock a rate.
    #[error("the command is to give no clock a rate")]
    NoRate = 10,
    /// The command is of a protocol that the firmware answers.
    #[error("the command is for the firmware to answer")]
    Other = 11,
    /// The frame is held back while a command is set aside.
    #[error("the frame is held back while a command is set aside")]
    Asked = 12,
}
