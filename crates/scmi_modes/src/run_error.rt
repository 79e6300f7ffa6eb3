//! Why a run is rejected or stops.
ghost use Rattle.std.specs.Prelude.{◌≡◌, ◌≢◌};
ghost use Rattle.scmi_modes.specs.RunError.{status_of, fault_of_input, fault_of_text, fault_of_plan};

use scmi_board::TextError;
use scmi_io::{AREA, BOARD, InputError, LIMIT, MEMORY, MODE, PLAN, READ, SCRIPT, SIZE, WRITE};
use scmi_plan::PlanError;
use std::alloc::AllocError;
use std::error::Error;
use std::fmt;

/// Why a run is rejected or stops. Its text is what follows the word `fault`.
#[derive(Clone, Copy, PartialEq, Eq)]
pub enum RunError {
    /// The first line names no mode.
    Mode,
    /// The first line, or what follows it, is longer than `INPUT_BYTES`.
    Size,
    /// A read failed.
    Read,
    /// The input of the mode `once` is not one line of an area's digits.
    Area,
    /// This line is not a line of a board.
    Board(u32),
    /// This line is not a line of a script.
    Script(u32),
    /// The board breaks this rule.
    Plan(u8),
    /// A limit of the run was met.
    Limit,
    /// Out of memory.
    Memory,
    /// The output failed.
    Write,
}

impl RunError {
    /// The exit status of a run that ends in this way: 1 for a failed output, 2 for a rejected
    /// input, 3 for a limit, 4 for out of memory.
    pub fn status(&self) -> u8
        ensures status { result ≡ status_of self.now }
        ensures not_done { result ≢ 0 }
    {
        match self {
            RunError::Write => 1,
            RunError::Limit => 3,
            RunError::Memory => 4,
            _ => 2,
        }
    }
}

impl Error for RunError {}

impl fmt::Display for RunError {
    ghost use Rattle.std.specs.Prelude.{Some};
    ghost use Rattle.scmi_modes.specs.RunError.{fault_text};

    ghost output = { λ fault. Some (fault_text fault) };

    fn fmt<W: fmt::Write>(&self, f: &mut fmt::Formatter<W>) -> fmt::Result {
        match self {
            RunError::Mode => f.write_str(MODE),
            RunError::Size => f.write_str(SIZE),
            RunError::Read => f.write_str(READ),
            RunError::Area => f.write_str(AREA),
            RunError::Board(line) => write!(f, "{BOARD}{line}"),
            RunError::Script(line) => write!(f, "{SCRIPT}{line}"),
            RunError::Plan(rule) => write!(f, "{PLAN}{rule}"),
            RunError::Limit => f.write_str(LIMIT),
            RunError::Memory => f.write_str(MEMORY),
            RunError::Write => f.write_str(WRITE),
        }
    }
}

// The text is all that there is to see, and the proof of a derived `Debug` is long.
impl fmt::Debug for RunError {
    fn fmt<W: fmt::Write>(&self, f: &mut fmt::Formatter<W>) -> fmt::Result {
        fmt::Display::fmt(self, f)
    }
}

impl From<AllocError> for RunError {
    ghost use Rattle.std.specs.Prelude.{◌≡◌};
    ghost use Rattle.scmi_modes.specs.declared.run_error.RunError.TheVariants.{Memory};

    ghost from_gives = { λ _ fault. fault ≡ Memory };

    fn from(_error: AllocError) -> RunError {
        RunError::Memory
    }
}

impl From<InputError> for RunError {
    ghost from_gives = { λ error fault. fault ≡ fault_of_input error };

    fn from(error: InputError) -> RunError {
        match error {
            InputError::Size => RunError::Size,
            InputError::Read => RunError::Read,
            InputError::Memory => RunError::Memory,
        }
    }
}

impl From<TextError> for RunError {
    ghost from_gives = { λ error fault. fault ≡ fault_of_text error };

    fn from(error: TextError) -> RunError {
        match error {
            TextError::Board(line) => RunError::Board(line),
            TextError::Script(line) => RunError::Script(line),
            TextError::Memory => RunError::Memory,
        }
    }
}

impl From<PlanError> for RunError {
    ghost from_gives = { λ error fault. fault ≡ fault_of_plan error };

    fn from(error: PlanError) -> RunError {
        match error {
            PlanError::Memory => RunError::Memory,
            rule => RunError::Plan(rule.number()),
        }
    }
}
