//! The line of a board's protocols, as it is read.
ghost use Rattle.std.specs.Prelude.{[]};
ghost use Rattle.scmi_board.specs.BoardLines.{first_protocols, with_id};
ghost use Rattle.scmi_board.specs.Items.{items_left};
ghost use Rattle.scmi_board.specs.LineError.{GivesUnless};
ghost use Rattle.scmi_board.specs.Rows.{after_each, parts_of};

use crate::items::Items;
use crate::line_error::LineError;
use crate::numbers::byte;
use crate::protocol_row::{ids_of, row_of};
use arrayvec::ArrayVec;
use scmi_plan::{PROTOCOLS, check_protocols};

type Ids = ArrayVec<u8, PROTOCOLS>;

/// What follows `protocols`: `ID,ID,..`, which rise from 0x11 on. It gives the row of them.
#[tactic(auto, unfolding(crate::specs::BoardLines::first_protocols))]
pub(crate) fn read_protocols(items: &mut Items<'_>) -> Result<[u8; PROTOCOLS], LineError>
    ensures { GivesUnless (λ row. (row, items_left items.new)) result
        (first_protocols (items_left items.old)) }
{
    let ids = read_ids(items.next_item()?)?;
    let row = row_of(ids.as_slice());
    if check_protocols(ids_of(&row)).is_err() {
        return Err(LineError::Form);
    }
    Ok(row)
}

/// Ids with single commas between them.
fn read_ids(text: &[u8]) -> Result<Ids, LineError>
    ensures { GivesUnless (λ ids. ids.items) result (after_each with_id [] (parts_of text.now)) }
{
    let mut ids = ArrayVec::new();
    for part in text.split(|byte| *byte == b',') {
        add_id(&mut ids, part)?;
    }
    Ok(ids)
}

/// Adds an id after others.
#[tactic(auto, unfolding(crate::specs::BoardLines::with_id))]
fn add_id(ids: &mut Ids, part: &[u8]) -> Result<(), LineError>
    ensures { GivesUnless (λ _. ids.new.items) result (with_id ids.old.items part.now) }
{
    let id = byte(part).ok_or(LineError::Form)?;
    if id == 0 || ids.is_full() {
        return Err(LineError::Form);
    }
    ids.push(id);
    Ok(())
}
