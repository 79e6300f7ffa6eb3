//! What pending sets leave free.

/// Which domains or clocks have a pending set (bit i for resource i), and whether an asynchronous set
/// of the caller has room.
#[derive(Clone, Copy, PartialEq, Eq, Debug)]
pub struct Load {
    pub busy: u32,
    pub room: bool,
}
