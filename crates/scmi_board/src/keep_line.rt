//! What a line keeps or says is absent, as it is read.
ghost use Rattle.scmi_plan.specs.RawPlan.{asked_board};
ghost use Rattle.scmi_board.specs.BoardLines.{first_resource};
ghost use Rattle.scmi_board.specs.Items.{items_left};
ghost use Rattle.scmi_board.specs.LineError.{Gives};

use crate::items::Items;
use crate::line_error::LineError;
use crate::words::{CLOCK, DOMAIN};
use scmi_plan::{RawPlan, Resource};

/// What follows `keep` or `absent`: `domain N` or `clock N`, of the board.
#[tactic(auto, unfolding(crate::specs::BoardLines::first_resource))]
pub(crate) fn read_resource(items: &mut Items<'_>, board: &RawPlan) -> Result<Resource, LineError>
    ensures { Gives (λ resource. (resource, items_left items.new)) result
        (first_resource (asked_board board.now) (items_left items.old)) }
{
    let word = items.next_item()?;
    let number = items.next_word()?;
    if word == DOMAIN && (number as usize) < board.domains.len() {
        return Ok(Resource::Domain(number));
    }
    if word == CLOCK && (number as usize) < board.clocks.len() {
        return Ok(Resource::Clock(number));
    }
    Err(LineError::Form)
}
