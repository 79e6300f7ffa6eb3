//! The orders of a script.
use scmi_codec::Payload;

/// One line of an agent's script (own).
#[derive(PartialEq, Eq, Debug, Drop)]
pub enum Order {
    /// Post a command of this protocol and message id with this payload, and poll for its reply at
    /// most `TURNS` times.
    Call(u8, u8, Payload),
    /// Ask for the state of the power domain of this number until it is this state word, by at most
    /// `CALLS` calls.
    Until(u32, u32),
    /// Take this many P2A messages, each by at most `TURNS` polls.
    P2a(u32),
    /// Close the agent's endpoint.
    Close,
}
