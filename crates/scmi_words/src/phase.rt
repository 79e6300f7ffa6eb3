//! The state of the caller's last post.

/// The state of the caller's last post.
#[derive(Clone, Copy, PartialEq, Eq, Debug)]
pub enum Phase {
    /// Nothing is outstanding.
    Idle,
    /// A post is outstanding.
    Waiting,
    /// A post is outstanding, and the callee has closed and will not take it. An endpoint is in
    /// this phase only inside of its close.
    Withdrawing,
    /// The last post was withdrawn.
    Withdrawn,
    /// The last post was given up.
    GivenUp,
}
