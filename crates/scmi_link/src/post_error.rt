//! Why a post was refused.
use thiserror::Error;

/// Why a frame was not posted.
#[derive(Clone, Copy, PartialEq, Eq, Debug, Error)]
pub enum PostError {
    /// The answer to the previous post was not collected.
    #[error("a post is outstanding")]
    Outstanding = 1,
    /// One of the two endpoints has closed.
    #[error("the channel is closed")]
    Closed = 2,
    /// The representation has no place for the frame.
    #[error("the channel has no place")]
    Full = 3,
    /// The length of a frame that was to be malformed is well formed.
    #[error("the length is well formed")]
    WellFormed = 4,
}
