//! What the lines of scripts have after their first word.
ghost use Rattle.std.specs.Prelude.{◌≡◌, map, IfOk};
ghost use Rattle.scmi_board.specs.Items.{items_left};
ghost use Rattle.scmi_board.specs.LineError.{Gives};
ghost use Rattle.scmi_plan.specs.Agent.{IsAgent};
ghost use Rattle.scmi_text.specs.Fields.{first_agent, first_clock_rate, first_flag, first_message, first_named_fault, payload_left};

use arrayvec::ArrayVec;
use scmi_board::{Items, LineError};
use scmi_codec::{Fault, Payload, rate_of};

/// The next item as the number of an agent of a board that has this many, numbered from 1. `Form`
/// if it is not such a number.
#[tactic(auto, unfolding(crate::specs::Fields::first_agent))]
pub fn read_agent(items: &mut Items<'_>, agents: u32) -> Result<u32, LineError>
    ensures within { IfOk result (IsAgent agents) }
    ensures agent { Gives (λ agent. (agent, items_left items.new)) result
        (first_agent agents (items_left items.old)) }
{
    let agent = items.next_word()?;
    if agent == 0 || agent > agents {
        return Err(LineError::Form);
    }
    Ok(agent)
}

/// The next two items as a protocol and the id of a message.
#[tactic(auto, unfolding(crate::specs::Fields::first_message))]
pub(crate) fn read_message(items: &mut Items<'_>) -> Result<(u8, u8), LineError>
    ensures { Gives (λ ids. (ids, items_left items.new)) result
        (first_message (items_left items.old)) }
{
    let protocol = items.next_byte()?;
    let message = items.next_byte()?;
    Ok((protocol, message))
}

/// The next item as the fault whose status has this name in DEN0056B. `Form` if no status has it,
/// or only one that says nothing of the hardware.
#[tactic(auto, unfolding(crate::specs::Fields::first_named_fault))]
pub(crate) fn read_named_fault(items: &mut Items<'_>) -> Result<Fault, LineError>
    ensures { Gives (λ fault. (fault, items_left items.new)) result
        (first_named_fault (items_left items.old)) }
{
    let name = items.next_item()?;
    Fault::of_name(name).ok_or(LineError::Form)
}

/// The next item as a number that is 0 or 1.
#[tactic(auto, unfolding(crate::specs::Fields::first_flag))]
pub(crate) fn read_flag(items: &mut Items<'_>) -> Result<bool, LineError>
    ensures { Gives (λ flag. (flag, items_left items.new)) result
        (first_flag (items_left items.old)) }
{
    let number = items.next_word()?;
    if number > 1 {
        return Err(LineError::Form);
    }
    Ok(number == 1)
}

/// The next three items as a clock and its rate in Hz, whose low word comes first.
#[tactic(auto, unfolding(crate::specs::Fields::first_clock_rate))]
pub(crate) fn read_clock_rate(items: &mut Items<'_>) -> Result<(u32, u64), LineError>
    ensures { Gives (λ found. (found, items_left items.new)) result
        (first_clock_rate (items_left items.old)) }
{
    let clock = items.next_word()?;
    let low = items.next_word()?;
    let high = items.next_word()?;
    Ok((clock, rate_of(low, high)))
}

/// All items that are left, as payload words. `Form` if there are more than `PAYLOAD_WORDS`, or if
/// one is not a word.
pub fn read_payload(items: &mut Items<'_>) -> Result<Payload, LineError>
    ensures { Gives (λ payload. payload.items) result (payload_left (items_left items.old)) }
{
    let mut payload = ArrayVec::new();
    while !items.is_done() {
        let word = items.next_word()?;
        if payload.is_full() {
            return Err(LineError::Form);
        }
        payload.push(word);
    }
    Ok(payload)
}
