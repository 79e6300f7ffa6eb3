//! Lines that may be a row with an address, of more bytes than a row has.
ghost use Rattle.std.specs.Prelude.{◌≡◌, map};
ghost use Rattle.scmi_decode.specs.WideRow.{has_more_digits, is_wide_row, may_be_address};

use crate::lines::{behind_full, first_full};
use crate::number::is_hexadecimal;
use crate::row::ROW_BYTES;

/// Whether items may be an address and more bytes after it than a row has.
pub(crate) fn is_wide_row(items: &[&[u8]]) -> bool
    ensures { result ≡ is_wide_row (map (λ item. item.now) items.now) }
{
    let behind = behind_full(items);
    may_be_address(first_full(items), first_full(behind)) && has_more_digits(2 * ROW_BYTES, behind)
}

/// Whether an item may be an address before another: it has six to sixteen hexadecimal digits, and not
/// as many as that.
fn may_be_address(first: &[u8], second: &[u8]) -> bool
    ensures { result ≡ may_be_address first.now second.now }
{
    first.len() > 5 && first.len() < 17 && is_hexadecimal(first) && first.len() != second.len()
}

/// Whether items have more digits together than so many, up to the first that is no hexadecimal digits.
fn has_more_digits(most: usize, items: &[&[u8]]) -> bool
    ensures { result ≡ has_more_digits most (map (λ item. item.now) items.now) }
{
    let mut rest = items;
    let mut left = most;
    'items: while let [item, behind @ ..] = rest {
        if !is_hexadecimal(item) {
            return false;
        }
        if item.len() > left {
            return true;
        }
        left -= item.len();
        rest = behind;
    }
    false
}
