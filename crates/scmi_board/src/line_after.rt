//! What follows a board.
use thiserror::Error;

/// A line that follows the line `end` of a board and is neither empty nor begins with `#` (own).
#[derive(Clone, Copy, Debug, PartialEq, Eq, Error)]
#[error("board {number}")]
pub struct LineAfter {
    /// Its number in the whole input, from 1.
    pub number: u32,
}
