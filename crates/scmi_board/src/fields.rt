//! Fields of a board's rows.
ghost use Rattle.std.specs.Prelude.{string_bytes};
ghost use Rattle.scmi_board.specs.Items.{items_left};
ghost use Rattle.scmi_board.specs.LineError.{Gives, GivesUnless};
ghost use Rattle.scmi_board.specs.Rows.{first_name, first_switch, name_of};

use crate::items::Items;
use crate::line_error::LineError;
use crate::words::{OFF, ON};
use std::alloc::Global;
use std::str::from_utf8;

/// A name: any item that is UTF-8.
#[tactic(auto, unfolding(crate::specs::Rows::first_name))]
pub(crate) fn read_name(alloc: Global, items: &mut Items<'_>) -> Result<String, LineError>
    ensures { GivesUnless (λ name. (string_bytes name, items_left items.new)) result
        (first_name (items_left items.old)) }
{
    let name = utf8_text(items.next_item()?)?;
    Ok(String::from_str(alloc, name)?)
}

#[tactic(auto, unfolding(crate::specs::Rows::name_of), using(crate::proofs::Utf8::utf8_passes, crate::proofs::Utf8::others_fail))]
fn utf8_text(item: &[u8]) -> Result<&str, LineError>
    ensures { Gives (λ name. name.now) result (name_of item.now) }
{
    from_utf8(item).map_err(|_| LineError::Form)
}

/// `on` or `off`: whether it is on.
#[tactic(auto, unfolding(crate::specs::Rows::first_switch))]
pub(crate) fn read_switch(items: &mut Items<'_>) -> Result<bool, LineError>
    ensures { Gives (λ on. (on, items_left items.new)) result
        (first_switch (items_left items.old)) }
{
    let item = items.next_item()?;
    if item == ON {
        return Ok(true);
    }
    if item == OFF {
        return Ok(false);
    }
    Err(LineError::Form)
}
