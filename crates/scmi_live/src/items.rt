//! The items of a line, all at once.
ghost use Rattle.std.specs.Prelude.{map};
ghost use Rattle.scmi_board.specs.Items.{items_of};
ghost use Rattle.scmi_board.specs.LineError.{GivesUnless};

use scmi_board::{Items, LineError};
use std::alloc::Global;

/// The items of a line. `Form` if its spaces have a fault, and `Memory` when out of memory.
pub(crate) fn items_of<'a>(alloc: Global, text: &'a [u8]) -> Result<Vec<&'a [u8]>, LineError>
    ensures { GivesUnless (λ all. map (λ item. item.now) all.items) result (items_of text.now) }
{
    let mut items = Items::new(text);
    let mut all = Vec::new(alloc);
    while !items.is_done() {
        let item = items.next_item()?;
        let Ok(()) = all.push(item) else {
            return Err(LineError::Memory);
        };
    }
    Ok(all)
}
