//! The orders in which the digits of a group may be.

/// In which order the digits of a group are: a group of a dump is the digits between two gaps.
#[derive(Clone, Copy)]
pub(crate) enum Order {
    /// Those of the first byte come first: `xxd`.
    Straight,
    /// The group is a number, and those of the first byte come last: `xxd -e`, `md.q`, `od -t x8`.
    Turned,
    /// Either is possible.
    Unclear,
}
