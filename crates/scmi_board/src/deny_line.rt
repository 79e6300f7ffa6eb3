//! The line of what is denied to an agent, as it is read.
ghost use Rattle.scmi_plan.specs.RawPlan.{asked_board};
ghost use Rattle.scmi_board.specs.BoardLines.{first_denied, first_scope};
ghost use Rattle.scmi_board.specs.Items.{items_left};
ghost use Rattle.scmi_board.specs.LineError.{Gives};

use crate::items::Items;
use crate::line_error::LineError;
use scmi_codec::{CLOCK_PROTOCOL, POWER_PROTOCOL};
use scmi_plan::{DEVICES, RawPlan, Scope};

/// What a line `deny` contains: an agent's number, and the devices that are denied to it, as a
/// whole or for a protocol. Bit d of `devices` is for device d.
#[derive(Clone, Copy, Debug, PartialEq, Eq, Drop)]
pub struct DenyLine {
    pub agent: u32,
    pub devices: u32,
    pub scope: Scope,
}

/// What follows `deny`: `AGENT DEVICE`, or `AGENT DEVICE PROTOCOL`, of the board.
#[tactic(auto, unfolding(crate::specs::BoardLines::first_denied))]
pub(crate) fn read_denied(items: &mut Items<'_>, board: &RawPlan) -> Result<DenyLine, LineError>
    ensures { Gives (λ line. (line, items_left items.new)) result
        (first_denied (asked_board board.now) (items_left items.old)) }
{
    let agent = items.next_word()?;
    let device = items.next_word()?;
    let scope = read_scope(items)?;
    if agent == 0 || agent as usize > board.agents.len() {
        return Err(LineError::Form);
    }
    // How many devices a board may have is checked only once its whole text was read.
    if device as usize >= DEVICES || device as usize >= board.devices.len() {
        return Err(LineError::Form);
    }
    Ok(DenyLine {
        agent,
        devices: 1 << device,
        scope,
    })
}

/// Nothing, or the number of a protocol.
#[tactic(auto, unfolding(crate::specs::BoardLines::first_scope))]
fn read_scope(items: &mut Items<'_>) -> Result<Scope, LineError>
    ensures { Gives (λ scope. (scope, items_left items.new)) result
        (first_scope (items_left items.old)) }
{
    if items.finish().is_ok() {
        return Ok(Scope::Device);
    }
    match items.next_byte()? {
        POWER_PROTOCOL => Ok(Scope::Power),
        CLOCK_PROTOCOL => Ok(Scope::Clock),
        _ => Err(LineError::Form),
    }
}
