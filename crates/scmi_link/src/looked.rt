//! What a poll for an answer found.

/// What a caller finds when it polls for an answer, the answer itself left elsewhere.
#[derive(Clone, Copy, PartialEq, Eq, Debug)]
pub enum Looked {
    /// No answer is available, and the channel is open as far as the caller was notified.
    Nothing,
    /// The answer to the caller's post.
    Got,
    /// An endpoint has closed, and there is no answer to read.
    Closed,
}
