//! Boards that keep every rule, as they are read.
ghost use Rattle.std.specs.Prelude.{◌≡◌, IfErr, IfOk};
ghost use Rattle.scmi_board.specs.BoardLines.{described};
ghost use Rattle.scmi_board.specs.ValidBoard.{IsBoardFault, IsBoardText, with_its_lines};

use crate::board_error::BoardError;
use crate::board_lines::apply_lines;
use crate::board_with_lines::{BoardWithLines, read_board_with_lines};
use crate::lines::Lines;
use scmi_plan::Plan;
use std::alloc::Global;

/// A board that keeps every rule: as a text describes it, and as a plan with what the lines behind
/// the rows say.
#[derive(Debug, Drop)]
pub struct ValidBoard {
    pub described: BoardWithLines,
    pub plan: Plan,
}

/// The board of a text from its line `board` to its line `end`, as `read_board_with_lines`, if it
/// keeps every rule and only empty lines and comments follow.
///
/// `Line` gives the number of the first line of another form, from 1, or, if `end` is missing, of the
/// last line of the text, which is 0 if there is none; `After` that of the first line that follows
/// `end`; `Rule` the first rule that the board breaks.
pub fn read_valid_board(alloc: Global, text: &[u8]) -> Result<ValidBoard, BoardError>
    ensures board { IfOk result (λ valid. IsBoardText text.now (described valid.described)) }
    ensures plan { IfOk result (λ valid. valid.plan
        ≡ with_its_lines (described valid.described)) }
    ensures fault { IfErr result (IsBoardFault text.now) }
{
    let mut lines = Lines::of_text(text);
    let said = read_board_with_lines(alloc, &mut lines)?;
    lines.finish()?;
    let mut plan = Plan::check(alloc, &said.board)?;
    apply_lines(&mut plan, &said.lines);
    Ok(ValidBoard {
        described: said,
        plan,
    })
}
