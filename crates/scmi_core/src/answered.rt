//! What a frame was answered with.

/// Which answer a frame got, if the reply itself is elsewhere.
#[derive(Clone, Copy, PartialEq, Eq, Debug)]
pub enum Answered {
    /// The reply that was written.
    Reply,
    /// A channel error, and no reply was written: the frame was malformed.
    ChannelError,
}
