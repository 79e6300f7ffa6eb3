//! The kinds of channel.

/// What the channels of a run are made of.
#[derive(Clone, Copy, Debug, PartialEq, Eq)]
pub enum Kind {
    /// Two ring buffers.
    Rings,
    /// A mailbox of atomic words.
    Words,
}
