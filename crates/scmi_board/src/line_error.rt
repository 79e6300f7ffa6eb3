//! Why one line was not read.
ghost use Rattle.std.specs.Prelude.{◌≡◌};
ghost use Rattle.scmi_board.specs.LineError.{board_refusal, script_refusal};
ghost use Rattle.scmi_board.specs.declared.line_error.LineError.TheVariants.{Memory};

use crate::text_error::TextError;
use std::alloc::AllocError;
use thiserror::Error;

/// Why one line was not read.
#[derive(Clone, Copy, Debug, PartialEq, Eq, Error)]
pub enum LineError {
    /// The line has another form.
    #[error("the line has another form")]
    Form = 1,
    /// Memory was refused.
    #[error("out of memory")]
    Memory = 2,
}

impl From<AllocError> for LineError {
    ghost from_gives = { λ _ error. error ≡ Memory };

    fn from(_error: AllocError) -> LineError {
        LineError::Memory
    }
}

impl LineError {
    /// The refusal of an input whose line of this number is read as a board's.
    pub fn in_board(self, line: u32) -> TextError
        ensures { result ≡ board_refusal self line }
    {
        match self {
            LineError::Form => TextError::Board(line),
            LineError::Memory => TextError::Memory,
        }
    }

    /// The refusal of an input whose line of this number is read as a script's.
    pub fn in_script(self, line: u32) -> TextError
        ensures { result ≡ script_refusal self line }
    {
        match self {
            LineError::Form => TextError::Script(line),
            LineError::Memory => TextError::Memory,
        }
    }
}
