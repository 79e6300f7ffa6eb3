//! What came of an order.
use crate::close_error::CloseError;
use crate::closing::Closing;
use crate::post_error::PostError;
use scmi_codec::{Frame, Payload};

/// One line of what an agent's script did.
#[derive(PartialEq, Eq, Debug, Drop)]
pub enum Line {
    /// A call's reply, by its payload.
    Got(Payload),
    /// A call was answered with a channel error.
    Error,
    /// A call found the channel closed; its command was not executed.
    Closed,
    /// A call was not posted.
    NotPosted(PostError),
    /// The `TURNS` of a wait ran out, and the script ended.
    Limit,
    /// The domain has the state that was waited for.
    UntilOk,
    /// The domain did not come to the state within `CALLS` calls, or one of them was not answered;
    /// the script ended.
    UntilLimit,
    /// A P2A message.
    P2a(Frame),
    /// The agent's endpoint is closed.
    Close(Closing),
    /// The agent's endpoint was not closed.
    NotClosed(CloseError),
}
