//! Scripts with numbers in place of names.
ghost use Rattle.std.specs.Prelude.{◌≡◌, Some, string_bytes, IfOk, OnOk, MatchOption};
ghost use Rattle.scmi_plan.specs.RawPlan.{asked_board};
ghost use Rattle.scmi_text.specs.StepText.{hardware_step_of_line};
ghost use Rattle.scmi_live.specs.Numbered.{AddsNumbered, HasNoNames, IsInNumbers, IsInNumbersOf, IsLineInNumbers};

use crate::meant::step_by_names;
use crate::pieces::{add_byte, copy_of};
use scmi_board::{Lines, TextError, read_board_with_lines};
use scmi_plan::RawPlan;
use scmi_text::{PlainStep, Step, read_one_hardware_step};
use std::alloc::{AllocError, Global};

/// A board and a script of the modes `hardware`, as they follow the line of the mode, with numbers
/// in place of names: each line that is no step, but whose names encode one, is replaced by a line
/// of numbers that is this step. All other lines are as they were, and all of a text that does not
/// begin with a board. The only error is out of memory.
pub fn numbered(alloc: Global, text: &[u8]) -> Result<Vec<u8>, AllocError>
    ensures stays { IfOk result (λ made. HasNoNames text.now → made.items ≡ text.now) }
    ensures numbers { IfOk result (λ made. IsInNumbers text.now made.items) }
{
    let mut lines = Lines::new(text);
    match read_board_with_lines(alloc, &mut lines) {
        Ok(said) => match said.board.agent_count() {
            Ok(agents) => numbered_lines(alloc, &said.board, agents, text),
            // A board of 2^32 agents.
            Err(_) => Err(AllocError),
        },
        Err(TextError::Memory) => Err(AllocError),
        Err(_) => copy_of(alloc, text),
    }
}

/// The lines of a text, with numbers in place of names.
fn numbered_lines(
    alloc: Global,
    board: &RawPlan,
    agents: u32,
    text: &[u8],
) -> Result<Vec<u8>, AllocError>
    ensures { IfOk result (λ made.
        IsInNumbersOf (asked_board board.now) agents text.now made.items) }
{
    let mut made = Vec::new(alloc);
    let mut is_first = true;
    for line in text.split(|byte| *byte == b'\n') {
        add_byte(b'\n', is_first, &mut made)?;
        is_first = false;
        add_line(alloc, board, agents, line, &mut made)?;
    }
    Ok(made)
}

/// Adds a line, with numbers in place of names.
fn add_line(
    alloc: Global,
    board: &RawPlan,
    agents: u32,
    text: &[u8],
    made: &mut Vec<u8>,
) -> Result<(), AllocError>
    ensures { OnOk result (AddsNumbered (asked_board board.now) agents text.now made.old.items
        made.new.items) }
{
    match line_in_numbers(alloc, board, agents, text)? {
        Some(line) => made.extend_from_slice(line.as_bytes())?,
        None => made.extend_from_slice(text)?,
    }
    Ok(())
}

/// The line of numbers in place of a line of a script; `None` if the line stays. The only error is out
/// of memory.
pub fn line_in_numbers(
    alloc: Global,
    board: &RawPlan,
    agents: u32,
    text: &[u8],
) -> Result<Option<String>, AllocError>
    ensures { IfOk result (λ line. MatchOption line
        (IsLineInNumbers (asked_board board.now) agents text.now text.now)
        (λ line. IsLineInNumbers (asked_board board.now) agents text.now (string_bytes line))) }
{
    if read_one_hardware_step(text, agents).is_ok() {
        return Ok(None);
    }
    match step_by_names(alloc, board, agents, text)? {
        Some(step) => Ok(Some(line_of(alloc, agents, &step)?)),
        None => Ok(None),
    }
}

/// The line of numbers that is this step: no line is given that is read as another.
fn line_of(alloc: Global, agents: u32, step: &Step) -> Result<String, AllocError>
    ensures { IfOk result (λ line. hardware_step_of_line agents (string_bytes line) ≡
        Some step.now) }
{
    let line = format!(in alloc; "{}", PlainStep(step))?;
    match read_one_hardware_step(line.as_bytes(), agents) {
        Ok(read) if read == *step => Ok(line),
        _ => Err(AllocError),
    }
}
