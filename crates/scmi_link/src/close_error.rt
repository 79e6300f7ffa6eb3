//! Why an endpoint was not closed.
use thiserror::Error;

/// Why an endpoint was not closed.
#[derive(Clone, Copy, PartialEq, Eq, Debug, Error)]
pub enum CloseError {
    /// A caller's post was taken, or may yet be; a callee owes an answer.
    #[error("a frame is in service")]
    InService = 1,
    /// An answer is waiting to be collected.
    #[error("a reply is waiting")]
    ReplyWaiting = 2,
}
