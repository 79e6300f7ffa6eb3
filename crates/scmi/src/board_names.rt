//! The names of a board, as the lines of a record have them.
ghost use Rattle.std.specs.Prelude.{◌≡◌, IfErr, IfOk};
ghost use Rattle.scmi_check.specs.Check.{IsFaultOfBoard};
ghost use Rattle.scmi.specs.Record.{AreNamesOf};

use scmi_board::{BoardWithLines, ValidBoard, read_valid_board};
use scmi_check::{CheckError, Names};
use scmi_explain::split_first;
use scmi_live::line_in_numbers;
use scmi_plan::RawPlan;
use std::alloc::{AllocError, Global};

/// The names of a board: a line of a record that is a step by them is read as the line of numbers
/// that is this step.
#[derive(Drop)]
pub struct BoardNames {
    pub board: RawPlan,
    /// How many agents it has.
    pub agents: u32,
}

impl BoardNames {
    /// The names of the board of a text, which keeps every rule.
    pub fn of_text(alloc: Global, text: &[u8]) -> Result<BoardNames, CheckError>
        ensures names { IfOk result (AreNamesOf text.now) }
        ensures fault { IfErr result (IsFaultOfBoard text.now) }
    {
        let ValidBoard { described, plan: _ } = read_valid_board(alloc, text)?;
        let BoardWithLines { board, lines: _ } = described;
        match board.agent_count() {
            Ok(agents) => Ok(BoardNames { board, agents }),
            // A board of 2^32 agents.
            Err(_) => Err(CheckError::Memory),
        }
    }

    /// The lines of a record up to that of this number, with numbers in place of names.
    pub(crate) fn in_numbers(
        &self,
        alloc: Global,
        record: &[u8],
        line: u32,
    ) -> Result<Vec<u8>, AllocError> {
        let mut made = Vec::new(alloc);
        let mut rest = record;
        for _ in 0..line {
            let (text, behind) = split_first(rest);
            match self.line(alloc, text)? {
                Some(given) => made.extend_from_slice(given.as_bytes())?,
                None => made.extend_from_slice(text)?,
            }
            if behind.is_empty() {
                break;
            }
            made.push(b'\n')?;
            rest = behind;
        }
        Ok(made)
    }
}

impl Names for BoardNames {
    ghost use Rattle.scmi_plan.specs.RawPlan.{asked_board};
    ghost use Rattle.scmi_live.specs.Numbered.{IsLineInNumbers};

    ghost means = { λ names. IsLineInNumbers (asked_board names.board) names.agents };

    fn line(&self, alloc: Global, text: &[u8]) -> Result<Option<String>, AllocError> {
        line_in_numbers(alloc, &self.board, self.agents, text)
    }
}
