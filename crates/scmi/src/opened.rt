//! The board of a session, from its file.
ghost use Rattle.std.specs.List.{All};
ghost use Rattle.std.specs.Prelude.{IfOk};
ghost use Rattle.scmi_board.specs.BoardLines.{IsLineOf, described};
ghost use Rattle.scmi.specs.LineProps.{line_props};

use crate::given::behind_line;
use scmi_board::{BoardWithLines, Lines, TextError};
use scmi_io::{CountedReader, read_rest};
use scmi_live::in_hertz;
use scmi_modes::{HARDWARE_WORDS, RunError, ScriptKind, plan_of, read_described};
use scmi_plan::{Plan, PlanError};
use std::alloc::{AllocError, Global};
use std::io::Read;

/// A board as its file has it, in Hz, with its agents' channels, and its text after the line of the mode
/// `hardware words`, whose boards and steps a session has.
#[derive(Drop)]
pub struct Opened {
    pub said: BoardWithLines,
    pub text: Vec<u8>,
    ghost channels: { All (IsLineOf (described said).0) (described said).1 } by { Prim.hlevel line_props },
}

impl Opened {
    ghost use Rattle.std.specs.Prelude.{◌≡◌, IfOk};
    ghost use Rattle.scmi_board.specs.BoardLines.{described};
    ghost use Rattle.scmi_board.specs.ValidBoard.{with_its_lines};

    /// The board of a file; the line of the error is one of the file.
    pub fn read<B: Read>(alloc: Global, file: &mut B) -> Result<Opened, RunError> {
        let file = read_rest(alloc, &mut CountedReader::new(file))?;
        let board = in_hertz(alloc, &file)?;
        let text = as_script(alloc, &board)?;
        let said = board_of(alloc, &board)?;
        Ok(Opened { said, text })
    }

    /// The plan of the board, whose agents have these channels.
    pub fn plan(&self, alloc: Global) -> Result<Plan, PlanError>
        ensures { IfOk result (λ plan. plan ≡ with_its_lines (described self.now.said)) }
    {
        plan_of(alloc, &self.said)
    }
}

/// A board in Hz after the line of the mode, with the line feed that its last line may lack.
pub(crate) fn as_script(alloc: Global, board: &[u8]) -> Result<Vec<u8>, AllocError> {
    let mut text = behind_line(alloc, HARDWARE_WORDS.as_bytes(), board)?;
    if text.last() != Some(&b'\n') {
        text.push(b'\n')?;
    }
    Ok(text)
}

/// The board of a text, if it keeps every rule and nothing follows it.
fn board_of(alloc: Global, text: &[u8]) -> Result<BoardWithLines, RunError>
    ensures { IfOk result (λ said. All (IsLineOf (described said).0) (described said).1) }
{
    let mut lines = Lines::of_text(text);
    let said = match read_described(alloc, &mut lines, ScriptKind::Hardware) {
        Ok(said) => said,
        // A file without lines.
        Err(TextError::Board(0)) => return Err(RunError::Board(1)),
        Err(error) => return Err(RunError::from(error)),
    };
    if let Some(line) = lines.next_line() {
        return Err(RunError::Board(line.number));
    }
    match Plan::check(alloc, &said.board) {
        Ok(_) => Ok(said),
        Err(error) => Err(RunError::from(error)),
    }
}
