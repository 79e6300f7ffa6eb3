//! What a log puts before the address of a row.
ghost use Rattle.std.specs.Prelude.{◌≡◌, true};
ghost use Rattle.std.specs.Option.{option_copied};
ghost use Rattle.scmi_decode.specs.Row.{begins_with_address, from_address, is_bare_address, without_prefix};

use crate::lines::is_gap;
use crate::number::{number_from, without_mark};
use crate::parts::{ends_in_colon, without_last};
use crate::scan::first_item;

/// A line without what the kernel's log puts before an address and its colon. A line that begins
/// with an address has nothing before it.
#[tactic(auto, unfolding(crate::specs::Row::without_prefix))]
pub(crate) fn without_prefix(line: &[u8]) -> &[u8]
    ensures { result.now ≡ without_prefix line.now }
{
    let begins = !line.is_empty() && !is_gap(line[0]);
    if begins && begins_with_address(line) || is_bare_address(first_item(line)) {
        return line;
    }
    match from_address(line) {
        Some(text) => text,
        None => line,
    }
}

/// A line from its first address and colon on, if it has them.
fn from_address(line: &[u8]) -> Option<&[u8]>
    ensures { option_copied result ≡ from_address true line.now }
{
    let mut rest = line;
    let mut may_begin = true;
    'bytes: while let [byte, behind @ ..] = rest {
        let is_gap = is_gap(*byte);
        if may_begin && !is_gap && begins_with_address(rest) {
            return Some(rest);
        }
        may_begin = is_gap;
        rest = behind;
    }
    None
}

/// Whether a text begins with an address and a colon: eight digits at least.
fn begins_with_address(text: &[u8]) -> bool
    ensures { result ≡ begins_with_address text.now }
{
    let item = first_item(text);
    ends_in_colon(item)
        && item.len() > 8
        && number_from(16, 0, without_mark(without_last(item))).is_some()
}

/// Whether an item is an address without a colon.
fn is_bare_address(item: &[u8]) -> bool
    ensures { result ≡ is_bare_address item.now }
{
    item.len() > 3 && number_from(16, 0, item).is_some()
}
