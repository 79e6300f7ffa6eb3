//! Boards whose texts have lines behind the rows.
ghost use Rattle.std.specs.Prelude.{◌≡◌, IfErr};
ghost use Rattle.scmi_board.specs.BoardText.{GivesBoard, lines_by};
ghost use Rattle.scmi_board.specs.BoardLines.{described, described_left, last_agent, with_absent_line, with_board_row, with_channel_line, with_deny_line, with_free_line, with_keep_line, with_line, with_protocols_line};
ghost use Rattle.scmi_board.specs.Items.{items_left};
ghost use Rattle.scmi_board.specs.LineError.{Gives, GivesUnless};
ghost use Rattle.scmi_board.specs.Lines.{last_number, lines_left};
ghost use Rattle.scmi_board.specs.TextError.{IsOfBoard};

use crate::board::read_first;
use crate::board_line::BoardLine;
use crate::channel_line::read_channel;
use crate::deny_line::read_denied;
use crate::free_line::read_free_clock;
use crate::items::Items;
use crate::keep_line::read_resource;
use crate::line_error::LineError;
use crate::lines::Lines;
use crate::protocols_line::read_protocols;
use crate::row::read_row;
use crate::text_error::TextError;
use crate::words::{ABSENT, CHANNEL, DENY, END, FREE, KEEP, PROTOCOLS};
use scmi_plan::RawPlan;
use std::alloc::{AllocError, Global};

/// A board, and the lines behind its rows, in the order of its text. Those of channels have rising
/// numbers of agents (own).
#[derive(Debug, Drop)]
pub struct BoardWithLines {
    pub board: RawPlan,
    pub lines: Vec<BoardLine>,
}

/// The board from its line `board` to its line `end`, as `read_board`, with these lines between its
/// rows and `end` (own). They come in any order, and there may be none. AGENT and DEVICE are of the
/// rows, and so is N of `keep`, `absent` and `free`.
///
/// `channel AGENT BYTES [one-way] [pending N]` is what an agent's channels are: the size of their
/// areas in bytes, 28 + 4k with k from 8 to 64, whether the platform can't send to the agent, and
/// how many of the 8 pending sets may be the agent's, 1 to 8, and 8 without it. AGENT is above that
/// of the line `channel` before.
///
/// `keep domain N` and `keep clock N` say what no agent may switch off.
///
/// `deny AGENT DEVICE [PROTOCOL]` denies the agent a device from the start, or one protocol on it,
/// 0x11 for power or 0x14 for clocks. DEVICE is 0 to 31.
///
/// `absent domain N` and `absent clock N` say what is not there, though it has a number: to each
/// agent it is as one that the board lacks.
///
/// `free clock N` says that a clock takes each rate as it is asked for, in Hz, and rounds none.
///
/// `protocols ID,ID,..` are the protocols besides the base protocol, at most 16, which rise from 0x11
/// on. Without it they are 0x11 and 0x14. A board may lack one of these, and have protocols of its
/// firmware. Of several such lines the last counts.
///
/// `Board` gives the number of the first line of another form, or, if `end` is missing, of the last
/// line of the input. `Memory` if memory is refused. After an error it is not specified how many
/// lines were read.
pub fn read_board_with_lines(
    alloc: Global,
    lines: &mut Lines<'_>,
) -> Result<BoardWithLines, TextError>
    ensures errors { IfErr result IsOfBoard }
    ensures board { GivesBoard (λ raw. (described raw, lines_left lines.new)) result
        (described_left lines.old) }
{
    let mut board = BoardWithLines {
        board: read_first(alloc, lines)?,
        lines: Vec::new(alloc),
    };
    read_lines(alloc, &mut board, lines)?;
    Ok(board)
}

/// The rows of a board and the lines behind them up to its line `end`, added to it.
fn read_lines(
    alloc: Global,
    board: &mut BoardWithLines,
    lines: &mut Lines<'_>,
) -> Result<(), TextError>
    ensures { GivesBoard (λ _. (described board.new, lines_left lines.new)) result
        (lines_by with_line (last_number lines.old) (described board.old) (lines_left lines.old)) }
{
    while let Some(line) = lines.next_line() {
        if line.text == END {
            return Ok(());
        }
        if let Err(error) = add_line(alloc, board, line.text) {
            return Err(error.in_board(line.number));
        }
    }
    Err(TextError::Board(lines.last_number()))
}

/// A line between heading and `end`.
#[tactic(auto, unfolding(crate::specs::BoardLines::with_line))]
fn add_line(alloc: Global, board: &mut BoardWithLines, text: &[u8]) -> Result<(), LineError>
    ensures { GivesUnless (λ _. described board.new) result
        (with_line (described board.old) text.now) }
{
    let mut items = Items::new(text);
    let word = items.next_item()?;
    if word == CHANNEL {
        return add_channel(board, &mut items);
    }
    if word == KEEP {
        return add_kept(board, &mut items);
    }
    if word == DENY {
        return add_denied(board, &mut items);
    }
    if word == ABSENT {
        return add_absent(board, &mut items);
    }
    if word == FREE {
        return add_free(board, &mut items);
    }
    if word == PROTOCOLS {
        return add_protocols(board, &mut items);
    }
    add_row(alloc, board, text)
}

/// A row, before the first line of another kind.
#[tactic(auto, unfolding(crate::specs::BoardLines::with_board_row))]
fn add_row(alloc: Global, board: &mut BoardWithLines, text: &[u8]) -> Result<(), LineError>
    ensures { GivesUnless (λ _. described board.new) result
        (with_board_row (described board.old) text.now) }
{
    if board.lines.is_empty() {
        read_row(alloc, &mut board.board, text)
    } else {
        Err(LineError::Form)
    }
}

/// What follows `channel`, of an agent of the board after those of the lines before.
#[tactic(auto, unfolding(crate::specs::BoardLines::with_channel_line))]
fn add_channel(board: &mut BoardWithLines, items: &mut Items<'_>) -> Result<(), LineError>
    ensures { GivesUnless (λ _. described board.new) result
        (with_channel_line (described board.old) (items_left items.old)) }
{
    let line = read_channel(items)?;
    items.finish()?;
    let agents = board.board.agents.len();
    if line.agent <= last_agent(&board.lines) || line.agent as usize > agents {
        return Err(LineError::Form);
    }
    board
        .lines
        .push(BoardLine::Channel(line))
        .map_err(AllocError::from)?;
    Ok(())
}

/// What follows `keep`.
#[tactic(auto, unfolding(crate::specs::BoardLines::with_keep_line))]
fn add_kept(board: &mut BoardWithLines, items: &mut Items<'_>) -> Result<(), LineError>
    ensures { GivesUnless (λ _. described board.new) result
        (with_keep_line (described board.old) (items_left items.old)) }
{
    let resource = read_resource(items, &board.board)?;
    items.finish()?;
    board
        .lines
        .push(BoardLine::Keep(resource))
        .map_err(AllocError::from)?;
    Ok(())
}

/// What follows `deny`.
#[tactic(auto, unfolding(crate::specs::BoardLines::with_deny_line))]
fn add_denied(board: &mut BoardWithLines, items: &mut Items<'_>) -> Result<(), LineError>
    ensures { GivesUnless (λ _. described board.new) result
        (with_deny_line (described board.old) (items_left items.old)) }
{
    let line = read_denied(items, &board.board)?;
    items.finish()?;
    board
        .lines
        .push(BoardLine::Deny(line))
        .map_err(AllocError::from)?;
    Ok(())
}

/// What follows `absent`.
#[tactic(auto, unfolding(crate::specs::BoardLines::with_absent_line))]
fn add_absent(board: &mut BoardWithLines, items: &mut Items<'_>) -> Result<(), LineError>
    ensures { GivesUnless (λ _. described board.new) result
        (with_absent_line (described board.old) (items_left items.old)) }
{
    let resource = read_resource(items, &board.board)?;
    items.finish()?;
    board
        .lines
        .push(BoardLine::Absent(resource))
        .map_err(AllocError::from)?;
    Ok(())
}

/// What follows `free`.
#[tactic(auto, unfolding(crate::specs::BoardLines::with_free_line))]
fn add_free(board: &mut BoardWithLines, items: &mut Items<'_>) -> Result<(), LineError>
    ensures { GivesUnless (λ _. described board.new) result
        (with_free_line (described board.old) (items_left items.old)) }
{
    let clock = read_free_clock(items, &board.board)?;
    items.finish()?;
    board
        .lines
        .push(BoardLine::Free(clock))
        .map_err(AllocError::from)?;
    Ok(())
}

/// What follows `protocols`.
#[tactic(auto, unfolding(crate::specs::BoardLines::with_protocols_line))]
fn add_protocols(board: &mut BoardWithLines, items: &mut Items<'_>) -> Result<(), LineError>
    ensures { GivesUnless (λ _. described board.new) result
        (with_protocols_line (described board.old) (items_left items.old)) }
{
    let ids = read_protocols(items)?;
    items.finish()?;
    board
        .lines
        .push(BoardLine::Protocols(ids))
        .map_err(AllocError::from)?;
    Ok(())
}

/// The agent of the last line `channel`, and 0 if there is none.
fn last_agent(lines: &[BoardLine]) -> u32
    ensures { result ≡ last_agent lines.now }
{
    let mut before = lines;
    while let Some((line, others)) = before.split_last() {
        if let BoardLine::Channel(channel) = line {
            return channel.agent;
        }
        before = others;
    }
    0
}
