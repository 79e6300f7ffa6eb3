//! Boards, as they are read.
ghost use Rattle.std.specs.Prelude.{◌≡◌, IfErr, OnOk};
ghost use Rattle.scmi_plan.specs.RawPlan.{asked_board};
ghost use Rattle.scmi_board.specs.BoardText.{GivesBoard, board_left, heading_left, rows_of};
ghost use Rattle.scmi_board.specs.Items.{items_left};
ghost use Rattle.scmi_board.specs.LineError.{GivesUnless};
ghost use Rattle.scmi_board.specs.Lines.{last_number, lines_left};
ghost use Rattle.scmi_board.specs.Rows.{bare_board, heading_of};
ghost use Rattle.scmi_board.specs.TextError.{IsOfBoard};

use crate::fields::read_name;
use crate::items::Items;
use crate::line_error::LineError;
use crate::lines::Lines;
use crate::row::read_row;
use crate::text_error::TextError;
use crate::words::{BOARD, END};
use scmi_plan::RawPlan;
use std::alloc::Global;

/// The board from its line `board` to its line `end`; the lines after it are left. No rule of a
/// valid board is checked (own).
///
/// `Board` gives the number of the first line of another form, or, if `end` is missing, of the last
/// line of the input. `Memory` if memory is refused. After an error it is not specified how many
/// lines were read.
pub fn read_board(alloc: Global, lines: &mut Lines<'_>) -> Result<RawPlan, TextError>
    ensures errors { IfErr result IsOfBoard }
    ensures board { GivesBoard (λ raw. (asked_board raw, lines_left lines.new)) result
        (board_left lines.old) }
{
    let mut board = read_first(alloc, lines)?;
    read_rows(alloc, &mut board, lines)?;
    Ok(board)
}

/// The board of the first line, the heading, which has no rows yet.
pub(crate) fn read_first(alloc: Global, lines: &mut Lines<'_>) -> Result<RawPlan, TextError>
    ensures errors { IfErr result IsOfBoard }
    ensures board { GivesBoard (λ raw. (asked_board raw, lines_left lines.new)) result
        (heading_left lines.old) }
    ensures last { OnOk result (last_number lines.new ≡ last_number lines.old) }
{
    let Some(first) = lines.next_line() else {
        return Err(TextError::Board(lines.last_number()));
    };
    match read_heading(alloc, first.text) {
        Ok(board) => Ok(board),
        Err(error) => Err(error.in_board(first.number)),
    }
}

/// The rows of a board up to its line `end`, added to it.
fn read_rows(alloc: Global, board: &mut RawPlan, lines: &mut Lines<'_>) -> Result<(), TextError>
    ensures { GivesBoard (λ _. (asked_board board.new, lines_left lines.new)) result
        (rows_of (last_number lines.old) (asked_board board.old) (lines_left lines.old)) }
{
    while let Some(line) = lines.next_line() {
        if line.text == END {
            return Ok(());
        }
        if let Err(error) = read_row(alloc, board, line.text) {
            return Err(error.in_board(line.number));
        }
    }
    Err(TextError::Board(lines.last_number()))
}

/// `board VENDOR SUBVENDOR VERSION TRUSTED`, as a board of no rows.
#[tactic(auto, unfolding(crate::specs::Rows::heading_of))]
fn read_heading(alloc: Global, text: &[u8]) -> Result<RawPlan, LineError>
    ensures { GivesUnless asked_board result (heading_of text.now) }
{
    let mut items = Items::new(text);
    if items.next_item()? != BOARD {
        return Err(LineError::Form);
    }
    read_bare_board(alloc, &mut items)
}

/// What follows `board`.
#[tactic(auto, unfolding(crate::specs::Rows::bare_board))]
fn read_bare_board(alloc: Global, items: &mut Items<'_>) -> Result<RawPlan, LineError>
    ensures { GivesUnless asked_board result (bare_board (items_left items.old)) }
{
    let board = RawPlan {
        vendor: read_name(alloc, items)?,
        sub_vendor: read_name(alloc, items)?,
        version: items.next_word()?,
        trusted: items.next_word()?,
        agents: Vec::new(alloc),
        domains: Vec::new(alloc),
        clocks: Vec::new(alloc),
        devices: Vec::new(alloc),
    };
    items.finish()?;
    Ok(board)
}
