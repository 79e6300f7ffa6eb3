//! Why a record is not checked.
ghost use Rattle.std.specs.Prelude.{◌≡◌, ◌≢◌};
ghost use Rattle.scmi_check.specs.CheckError.{error_of_board, error_of_input, error_of_text, fault_status};
ghost use Rattle.scmi_check.specs.declared.check_error.CheckError.TheVariants.{Memory};
ghost use Rattle.scmi_check.specs.declared.checked.TheConstants.{DIFFERS, UNSURE};

use scmi_board::{BoardError, TextError};
use scmi_core::CoreError;
use scmi_io::{BOARD, InputError, MEMORY, PLAN, READ, RECORD, SIZE, WRITE};
use std::alloc::AllocError;
use std::error::Error;
use std::fmt;

/// The fault of a record of which nothing is judged.
const EMPTY: &str = "empty";

/// The fault of a line that is too long; its number follows.
const LONG: &str = "long ";

/// Why a record is not checked. Its text is what follows the word `fault`.
#[derive(Clone, Copy, Debug)]
pub enum CheckError {
    /// The board's text is longer than `INPUT_BYTES`.
    Size,
    /// A read failed, or reads were interrupted too often.
    Read,
    /// This line of the board's text is not a line of a board, or follows it.
    Board(u32),
    /// The board breaks this rule.
    Plan(u8),
    /// This line is not a valid line of a record.
    Record(u32),
    /// This line of the record is longer than `INPUT_BYTES`.
    Long(u32),
    /// Nothing of the record is judged.
    Empty,
    /// Out of memory.
    Memory,
    /// The output failed.
    Write,
}

impl CheckError {
    /// The exit status: 1 for a failed output, 2 for a rejected input, 4 for out of memory.
    pub fn status(&self) -> u8
        ensures status { result ≡ fault_status self.now }
        ensures not_checked { (result ≢ 0) × (result ≢ DIFFERS) × (result ≢ UNSURE) }
    {
        match self {
            CheckError::Write => 1,
            CheckError::Memory => 4,
            _ => 2,
        }
    }
}

impl Error for CheckError {}

impl fmt::Display for CheckError {
    ghost use Rattle.std.specs.Prelude.{Some};
    ghost use Rattle.scmi_check.specs.CheckError.{fault_text};

    ghost output = { λ fault. Some (fault_text fault) };

    fn fmt<W: fmt::Write>(&self, f: &mut fmt::Formatter<W>) -> fmt::Result {
        match self {
            CheckError::Size => f.write_str(SIZE),
            CheckError::Read => f.write_str(READ),
            CheckError::Board(line) => write!(f, "{BOARD}{line}"),
            CheckError::Plan(rule) => write!(f, "{PLAN}{rule}"),
            CheckError::Record(line) => write!(f, "{RECORD}{line}"),
            CheckError::Long(line) => write!(f, "{LONG}{line}"),
            CheckError::Empty => f.write_str(EMPTY),
            CheckError::Memory => f.write_str(MEMORY),
            CheckError::Write => f.write_str(WRITE),
        }
    }
}

impl From<InputError> for CheckError {
    ghost from_gives = { λ error fault. fault ≡ error_of_input error };

    fn from(error: InputError) -> CheckError {
        match error {
            InputError::Size => CheckError::Size,
            InputError::Read => CheckError::Read,
            InputError::Memory => CheckError::Memory,
        }
    }
}

impl From<TextError> for CheckError {
    ghost from_gives = { λ error fault. fault ≡ error_of_text error };

    fn from(error: TextError) -> CheckError {
        match error {
            TextError::Board(line) => CheckError::Board(line),
            TextError::Script(line) => CheckError::Record(line),
            TextError::Memory => CheckError::Memory,
        }
    }
}

impl From<BoardError> for CheckError {
    ghost from_gives = { λ error fault. fault ≡ error_of_board error };

    fn from(error: BoardError) -> CheckError {
        match error {
            BoardError::Line(line) | BoardError::After(line) => CheckError::Board(line),
            BoardError::Rule(rule) => CheckError::Plan(rule.number()),
            BoardError::Memory => CheckError::Memory,
        }
    }
}

impl From<AllocError> for CheckError {
    ghost from_gives = { λ _ fault. fault ≡ Memory };

    fn from(_error: AllocError) -> CheckError {
        CheckError::Memory
    }
}

impl From<CoreError> for CheckError {
    ghost from_gives = { λ _ fault. fault ≡ Memory };

    fn from(_error: CoreError) -> CheckError {
        CheckError::Memory
    }
}
