//! The line of a clock, as it is read.
ghost use Rattle.std.specs.Prelude.{[]};
ghost use Rattle.scmi_plan.specs.Rates.{rates_of};
ghost use Rattle.scmi_plan.specs.RawPlan.{asked_clock};
ghost use Rattle.scmi_board.specs.Items.{items_left};
ghost use Rattle.scmi_board.specs.LineError.{GivesUnless};
ghost use Rattle.scmi_board.specs.Rows.{after_each, first_clock, first_list, first_rates, first_steps, parts_of, with_rate};

use crate::fields::{read_name, read_switch};
use crate::items::Items;
use crate::line_error::LineError;
use crate::numbers::number;
use crate::words::{LIST, STEPS};
use scmi_plan::{Rates, RawClock};
use std::alloc::{AllocError, Global};

/// What follows `clock`: `NAME on|off RATE list R,R,..`, or `NAME on|off RATE steps LOW HIGH STEP`.
/// Rates are in Hz.
#[tactic(auto, unfolding(crate::specs::Rows::first_clock))]
pub(crate) fn read_clock(alloc: Global, items: &mut Items<'_>) -> Result<RawClock, LineError>
    ensures { GivesUnless (λ clock. (asked_clock clock, items_left items.new)) result
        (first_clock (items_left items.old)) }
{
    Ok(RawClock {
        name: read_name(alloc, items)?,
        enabled: read_switch(items)?,
        rate: items.next_number()?,
        rates: read_rates(alloc, items)?,
    })
}

/// `list R,R,..` or `steps LOW HIGH STEP`.
#[tactic(auto, unfolding(crate::specs::Rows::first_rates))]
fn read_rates(alloc: Global, items: &mut Items<'_>) -> Result<Rates, LineError>
    ensures { GivesUnless (λ rates. (rates_of rates, items_left items.new)) result
        (first_rates (items_left items.old)) }
{
    let word = items.next_item()?;
    if word == LIST {
        return read_list(alloc, items);
    }
    if word == STEPS {
        return read_steps(items);
    }
    Err(LineError::Form)
}

/// `R,R,..`.
#[tactic(auto, unfolding(crate::specs::Rows::first_list))]
fn read_list(alloc: Global, items: &mut Items<'_>) -> Result<Rates, LineError>
    ensures { GivesUnless (λ rates. (rates_of rates, items_left items.new)) result
        (first_list (items_left items.old)) }
{
    Ok(Rates::List(read_parts(alloc, items.next_item()?)?))
}

/// `LOW HIGH STEP`.
#[tactic(auto, unfolding(crate::specs::Rows::first_steps))]
fn read_steps(items: &mut Items<'_>) -> Result<Rates, LineError>
    ensures { GivesUnless (λ rates. (rates_of rates, items_left items.new)) result
        (first_steps (items_left items.old)) }
{
    Ok(Rates::Steps {
        low: items.next_number()?,
        high: items.next_number()?,
        step: items.next_number()?,
    })
}

/// Rates with single commas between them.
fn read_parts(alloc: Global, text: &[u8]) -> Result<Vec<u64>, LineError>
    ensures { GivesUnless (λ rates. rates.items) result
        (after_each with_rate [] (parts_of text.now)) }
{
    let mut rates = Vec::new(alloc);
    for part in text.split(|byte| *byte == b',') {
        add_rate(&mut rates, part)?;
    }
    Ok(rates)
}

/// Adds a rate after others.
#[tactic(auto, unfolding(crate::specs::Rows::with_rate))]
fn add_rate(rates: &mut Vec<u64>, part: &[u8]) -> Result<(), LineError>
    ensures { GivesUnless (λ _. rates.new.items) result (with_rate rates.old.items part.now) }
{
    let rate = number(part).ok_or(LineError::Form)?;
    rates.push(rate).map_err(AllocError::from)?;
    Ok(())
}
