//! Why a text has no valid board.
ghost use Rattle.std.specs.Prelude.{◌≡◌};
ghost use Rattle.scmi_board.specs.ValidBoard.{error_of_after, error_of_rule, error_of_text};

use crate::line_after::LineAfter;
use crate::text_error::TextError;
use scmi_plan::PlanError;
use thiserror::Error;

/// Why a text has no valid board (own).
#[derive(Clone, Copy, Debug, PartialEq, Eq, Error)]
pub enum BoardError {
    /// The line of this number is not a line of a board, or the board has no end and this is the
    /// last line.
    #[error("board {0}")]
    Line(u32),
    /// The line of this number follows the board.
    #[error("board {0}")]
    After(u32),
    /// This is the first rule that the board breaks.
    #[error("{0}")]
    Rule(PlanError),
    /// Out of memory.
    #[error("memory")]
    Memory,
}

impl From<TextError> for BoardError {
    ghost from_gives = { λ text error. error ≡ error_of_text text };

    fn from(text: TextError) -> BoardError {
        match text {
            // A board's text has no line of a script.
            TextError::Board(line) | TextError::Script(line) => BoardError::Line(line),
            TextError::Memory => BoardError::Memory,
        }
    }
}

impl From<LineAfter> for BoardError {
    ghost from_gives = { λ after error. error ≡ error_of_after after };

    fn from(after: LineAfter) -> BoardError {
        BoardError::After(after.number)
    }
}

impl From<PlanError> for BoardError {
    ghost from_gives = { λ rule error. error ≡ error_of_rule rule };

    fn from(rule: PlanError) -> BoardError {
        match rule {
            PlanError::Memory => BoardError::Memory,
            rule => BoardError::Rule(rule),
        }
    }
}
