//! The line of a clock that takes each rate, as it is read.
ghost use Rattle.scmi_plan.specs.RawPlan.{asked_board};
ghost use Rattle.scmi_board.specs.BoardLines.{first_free};
ghost use Rattle.scmi_board.specs.Items.{items_left};
ghost use Rattle.scmi_board.specs.LineError.{Gives};

use crate::items::Items;
use crate::line_error::LineError;
use crate::words::CLOCK;
use scmi_plan::RawPlan;

/// What follows `free`: `clock N`, of the board. It gives N.
#[tactic(auto, unfolding(crate::specs::BoardLines::first_free))]
pub(crate) fn read_free_clock(items: &mut Items<'_>, board: &RawPlan) -> Result<u32, LineError>
    ensures { Gives (λ clock. (clock, items_left items.new)) result
        (first_free (asked_board board.now) (items_left items.old)) }
{
    let word = items.next_item()?;
    let number = items.next_word()?;
    if word == CLOCK && (number as usize) < board.clocks.len() {
        return Ok(number);
    }
    Err(LineError::Form)
}
