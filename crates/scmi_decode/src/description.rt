//! What an area is.
ghost use Rattle.std.specs.Prelude.{◌≡◌};

use scmi_codec::{Command, Frame, Message, Status};

/// What an area is. While a channel is busy the area holds its caller's message; once it is free it
/// holds the reply, or the message if no response was written over it.
#[derive(Drop)]
pub enum Description {
    /// Free, with length and header 0: nothing was ever posted.
    Unused,
    /// Busy: a command that waits for its answer, and what it asks for. NOT_SUPPORTED is given for
    /// an unknown message, PROTOCOL_ERROR for another number of payload words than the command has.
    Command {
        message: Message,
        request: Result<Command, Status>,
    },
    /// Free, and no reply by its form: a command that was withdrawn, and what it asked for. A
    /// message that no table has, for which NOT_SUPPORTED is given, may as well be a reply.
    Withdrawn {
        message: Message,
        request: Result<Command, Status>,
    },
    /// Free: a reply with status SUCCESS.
    Reply {
        message: Message,
    },
    /// Free: a reply with this other status.
    Refusal {
        message: Message,
        status: Status,
    },
    /// A delayed response: free once its agent has taken it.
    Delayed {
        is_free: bool,
        message: Message,
    },
    /// A notification: free once its agent has taken it.
    Notification {
        is_free: bool,
        message: Message,
    },
    /// Free with the error bit, and the frame that was refused.
    ChannelError {
        frame: Frame,
    },
    /// A length in bytes that no frame has, and the header word.
    Malformed {
        is_free: bool,
        length: u32,
        header: u32,
    },
    /// A message of type 1, which SCMI does not have.
    Foreign {
        is_free: bool,
        message: Message,
    },
}
