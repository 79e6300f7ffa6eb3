//! What a set changes.

/// A power domain or a clock, by its number on the board, from 0.
#[derive(Clone, Copy, PartialEq, Eq, Debug)]
pub enum Resource {
    Domain(u32),
    Clock(u32),
}
