//! Why an input is rejected.
use std::alloc::AllocError;
use thiserror::Error;

/// Why an input is rejected (own). The number is that of the line in the whole input, from 1.
#[derive(Clone, Copy, Debug, PartialEq, Eq, Error)]
pub enum TextError {
    /// This line is not a line of a board, or the board has no end and this is the last line.
    #[error("board {0}")]
    Board(u32),
    /// This line is no line of a script, or names an agent that it may not.
    #[error("script {0}")]
    Script(u32),
    /// Memory was refused.
    #[error("memory")]
    Memory,
}

impl From<AllocError> for TextError {
    fn from(_error: AllocError) -> TextError {
        TextError::Memory
    }
}
