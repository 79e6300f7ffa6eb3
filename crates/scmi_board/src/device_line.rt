//! The line of a device, as it is read.
ghost use Rattle.scmi_board.specs.Items.{items_left};
ghost use Rattle.scmi_board.specs.LineError.{Gives};
ghost use Rattle.scmi_board.specs.Rows.{after_each, first_device, parts_of, set_of, with_place};

use crate::items::Items;
use crate::line_error::LineError;
use crate::numbers::byte;
use crate::words::NONE;
use scmi_plan::Device;

/// What follows `device`: `D,D..|- C,C..|-`.
#[tactic(auto, unfolding(crate::specs::Rows::first_device))]
pub(crate) fn read_device(items: &mut Items<'_>) -> Result<Device, LineError>
    ensures { Gives (λ device. (device, items_left items.new)) result
        (first_device (items_left items.old)) }
{
    Ok(Device {
        domains: read_set(items.next_item()?)?,
        clocks: read_set(items.next_item()?)?,
    })
}

/// Numbers 0 to 31, each at most once, with single commas between them, or `-` for none: bit i of
/// the result encodes number i.
#[tactic(auto, unfolding(crate::specs::Rows::set_of))]
fn read_set(text: &[u8]) -> Result<u32, LineError>
    ensures { Gives (λ set. set) result (set_of text.now) }
{
    if text == NONE {
        return Ok(0);
    }
    read_places(text)
}

fn read_places(text: &[u8]) -> Result<u32, LineError>
    ensures { Gives (λ set. set) result (after_each with_place 0 (parts_of text.now)) }
{
    let mut set = 0u32;
    for part in text.split(|byte| *byte == b',') {
        set = add_place(set, part)?;
    }
    Ok(set)
}

/// The set with one of the numbers 0 to 31, which it does not have yet.
#[tactic(auto, unfolding(crate::specs::Rows::with_place))]
fn add_place(set: u32, part: &[u8]) -> Result<u32, LineError>
    ensures { Gives (λ set. set) result (with_place set part.now) }
{
    let place = byte(part).ok_or(LineError::Form)?;
    let bit = 1u32.checked_shl(u32::from(place)).ok_or(LineError::Form)?;
    if set & bit != 0 {
        return Err(LineError::Form);
    }
    Ok(set | bit)
}
