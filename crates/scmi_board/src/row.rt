//! The rows of a board, as they are read.
ghost use Rattle.scmi_plan.specs.RawPlan.{asked_board};
ghost use Rattle.scmi_board.specs.Items.{items_left};
ghost use Rattle.scmi_board.specs.LineError.{GivesUnless};
ghost use Rattle.scmi_board.specs.Rows.{with_agent, with_clock, with_device, with_domain, with_row, with_row_named};

use crate::clock_line::read_clock;
use crate::device_line::read_device;
use crate::domain_line::read_domain;
use crate::fields::read_name;
use crate::items::Items;
use crate::line_error::LineError;
use crate::words::{AGENT, CLOCK, DEVICE, DOMAIN};
use scmi_plan::RawPlan;
use std::alloc::{AllocError, Global};

/// One row of the board, added at the end of its table.
#[tactic(auto, unfolding(crate::specs::Rows::with_row))]
pub(crate) fn read_row(alloc: Global, board: &mut RawPlan, text: &[u8]) -> Result<(), LineError>
    ensures { GivesUnless (λ _. asked_board board.new) result
        (with_row (asked_board board.old) text.now) }
{
    let mut items = Items::new(text);
    let word = items.next_item()?;
    add_row(alloc, board, word, &mut items)?;
    items.finish()?;
    Ok(())
}

/// A row that begins with this word.
#[tactic(auto, unfolding(crate::specs::Rows::with_row_named))]
fn add_row(
    alloc: Global,
    board: &mut RawPlan,
    word: &[u8],
    items: &mut Items<'_>,
) -> Result<(), LineError>
    ensures { GivesUnless (λ _. (asked_board board.new, items_left items.new)) result
        (with_row_named (asked_board board.old) word.now (items_left items.old)) }
{
    if word == AGENT {
        return add_agent(alloc, board, items);
    }
    if word == DOMAIN {
        return add_domain(alloc, board, items);
    }
    if word == CLOCK {
        return add_clock(alloc, board, items);
    }
    if word == DEVICE {
        return add_device(board, items);
    }
    Err(LineError::Form)
}

#[tactic(auto, unfolding(crate::specs::Rows::with_agent), using(std::proofs::lemmas::List::map_push))]
fn add_agent(alloc: Global, board: &mut RawPlan, items: &mut Items<'_>) -> Result<(), LineError>
    ensures { GivesUnless (λ _. (asked_board board.new, items_left items.new)) result
        (with_agent (asked_board board.old) (items_left items.old)) }
{
    let agent = read_name(alloc, items)?;
    board.agents.push(agent).map_err(AllocError::from)?;
    Ok(())
}

#[tactic(auto, unfolding(crate::specs::Rows::with_domain), using(std::proofs::lemmas::List::map_push))]
fn add_domain(alloc: Global, board: &mut RawPlan, items: &mut Items<'_>) -> Result<(), LineError>
    ensures { GivesUnless (λ _. (asked_board board.new, items_left items.new)) result
        (with_domain (asked_board board.old) (items_left items.old)) }
{
    let domain = read_domain(alloc, items)?;
    board.domains.push(domain).map_err(AllocError::from)?;
    Ok(())
}

#[tactic(auto, unfolding(crate::specs::Rows::with_clock), using(std::proofs::lemmas::List::map_push))]
fn add_clock(alloc: Global, board: &mut RawPlan, items: &mut Items<'_>) -> Result<(), LineError>
    ensures { GivesUnless (λ _. (asked_board board.new, items_left items.new)) result
        (with_clock (asked_board board.old) (items_left items.old)) }
{
    let clock = read_clock(alloc, items)?;
    board.clocks.push(clock).map_err(AllocError::from)?;
    Ok(())
}

#[tactic(auto, unfolding(crate::specs::Rows::with_device))]
fn add_device(board: &mut RawPlan, items: &mut Items<'_>) -> Result<(), LineError>
    ensures { GivesUnless (λ _. (asked_board board.new, items_left items.new)) result
        (with_device (asked_board board.old) (items_left items.old)) }
{
    let device = read_device(items)?;
    board.devices.push(device).map_err(AllocError::from)?;
    Ok(())
}
