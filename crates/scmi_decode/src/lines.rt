//! The lines that are described, and the items of a line.
ghost use Rattle.std.specs.Prelude.{◌≡◌, IfOk, map};
ghost use Rattle.std.specs.List.{slice_split};
ghost use Rattle.scmi_decode.specs.Dump.{behind_full, first_full, is_gap};
ghost use Rattle.scmi_decode.specs.Decoded.{is_described};

use std::alloc::{AllocError, Global};

/// The items of a line, which are between its gaps; some may be empty.
pub fn items_of<'a>(alloc: Global, line: &'a [u8]) -> Result<Vec<&'a [u8]>, AllocError>
    ensures { IfOk result (λ items. map (λ item. item.now) items.items ≡
        slice_split is_gap line.now) }
{
    line.split(|byte| is_gap(*byte)).collect(alloc)
}

/// Whether a byte separates the items of a line: a space, a tab, a carriage return or a comma.
pub(crate) fn is_gap(byte: u8) -> bool
    ensures { result ≡ is_gap byte }
{
    byte == b' ' || byte == b'\t' || byte == b'\r' || byte == b','
}

/// The first item that is not empty; empty if there is none.
pub(crate) fn first_full<'a>(items: &[&'a [u8]]) -> &'a [u8]
    ensures { result.now ≡ first_full (map (λ item. item.now) items.now) }
{
    let mut rest = items;
    'items: while let [item, behind @ ..] = rest {
        if !item.is_empty() {
            return item;
        }
        rest = behind;
    }
    &[]
}

/// What follows it.
pub(crate) fn behind_full<'a, 'b>(items: &'b [&'a [u8]]) -> &'b [&'a [u8]]
    ensures { map (λ item. item.now) result.now ≡
        behind_full (map (λ item. item.now) items.now) }
{
    let mut rest = items;
    'items: while let [item, behind @ ..] = rest {
        if !item.is_empty() {
            return behind;
        }
        rest = behind;
    }
    rest
}

/// Whether a line is described: it is neither empty nor begins with `#` (own).
pub fn is_described(line: &[u8]) -> bool
    ensures { result ≡ is_described line.now }
{
    !line.is_empty() && line[0] != b'#'
}
