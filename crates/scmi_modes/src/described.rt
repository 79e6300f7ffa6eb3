//! The boards of scripts, with the channels that their texts give.
ghost use Rattle.std.specs.Prelude.{◌≡◌, ◌≢◌, [], None, Some, IfErr, IfOk, OnOk};
ghost use Rattle.std.specs.List.{All};
ghost use Rattle.scmi_board.specs.BoardText.{GivesBoard};
ghost use Rattle.scmi_board.specs.BoardLines.{IsLineOf, described};
ghost use Rattle.scmi_board.specs.Lines.{lines_left};
ghost use Rattle.scmi_board.specs.ValidBoard.{with_its_lines};
ghost use Rattle.scmi_plan.specs.PlanError.{first_fault};
ghost use Rattle.scmi_modes.specs.Input.{board_of_lines, plain_board};

use crate::script_kind::ScriptKind;
use scmi_board::{
    BoardWithLines, Lines, TextError, apply_lines, read_board, read_board_with_lines,
};
use scmi_plan::{Plan, PlanError};
use std::alloc::Global;

/// The board before a script of this kind: beside hardware its text may give its agents' channels,
/// and is read by `read_board_with_lines`, else by `read_board`, with their errors. No rule of a
/// valid board is checked.
pub fn read_described(
    alloc: Global,
    lines: &mut Lines<'_>,
    script: ScriptKind,
) -> Result<BoardWithLines, TextError>
    ensures channels { IfOk result (λ raw. All (IsLineOf (described raw).0) (described raw).1) }
    ensures board { GivesBoard (λ raw. (described raw, lines_left lines.new)) result
        (board_of_lines script lines.old) }
{
    match script {
        ScriptKind::Plain => read_plain(alloc, lines),
        ScriptKind::Hardware => read_board_with_lines(alloc, lines),
    }
}

/// A board whose text gives no channels.
fn read_plain(alloc: Global, lines: &mut Lines<'_>) -> Result<BoardWithLines, TextError>
    ensures none { IfOk result (λ raw. (described raw).1 ≡ []) }
    ensures board { GivesBoard (λ raw. (described raw, lines_left lines.new)) result
        (plain_board lines.old) }
{
    match read_board(alloc, lines) {
        Ok(board) => Ok(BoardWithLines {
            board,
            lines: Vec::new(alloc),
        }),
        Err(error) => Err(error),
    }
}

/// A board that keeps every rule, whose agents have the channels that its text gives. The error is
/// that of `Plan::check`.
pub fn plan_of(alloc: Global, said: &BoardWithLines) -> Result<Plan, PlanError>
    requires lines { All (IsLineOf (described said.now).0) (described said.now).1 }
    ensures ok { IfOk result (λ plan. plan ≡ with_its_lines (described said.now)) }
    ensures no_fault { OnOk result (first_fault (described said.now).0 ≡ None) }
    ensures fault { IfErr result (λ e.
        e ≢ PlanError.Memory → first_fault (described said.now).0 ≡ Some e) }
{
    match Plan::check(alloc, &said.board) {
        Ok(plan) => {
            let mut plan = plan;
            apply_lines(&mut plan, &said.lines);
            Ok(plan)
        }
        Err(fault) => Err(fault),
    }
}
