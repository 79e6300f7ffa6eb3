//! The items of a line, from its begin on.
ghost use Rattle.std.specs.Prelude.{◌≡◌, ◌≤◌, length, nat_eq};
ghost use Rattle.std.specs.List.{starts_with};
ghost use Rattle.scmi_decode.specs.Scan.{gap_length, item_length, after_gap, first_item, after_item, column_length, bar_length, begins_with_space, pipe_length, behind_colon, after_cursor, has_one_item};

use crate::lines::is_gap;

/// Whether a line begins with a text; most do not have its first byte.
pub(crate) fn begins_with(line: &[u8], text: &[u8]) -> bool
    ensures { result ≡ starts_with nat_eq line.now text.now }
{
    match (line, text) {
        ([byte, ..], [own, ..]) if *byte != *own => false,
        _ => line.starts_with(text),
    }
}

/// How many bytes of the gap at the begin.
pub(crate) fn gap_length(line: &[u8]) -> usize
    ensures value { result ≡ gap_length line.now }
    ensures bound { result ≤ length line.now }
{
    let mut rest = line;
    'bytes: while let [byte, behind @ ..] = rest {
        if !is_gap(*byte) {
            break;
        }
        rest = behind;
    }
    line.len() - rest.len()
}

/// How many bytes come before the first gap.
pub(crate) fn item_length(line: &[u8]) -> usize
    ensures value { result ≡ item_length line.now }
    ensures bound { result ≤ length line.now }
{
    let mut rest = line;
    'bytes: while let [byte, behind @ ..] = rest {
        if is_gap(*byte) {
            break;
        }
        rest = behind;
    }
    line.len() - rest.len()
}

/// What follows the gap at the beginning.
pub(crate) fn after_gap(line: &[u8]) -> &[u8]
    ensures { result.now ≡ after_gap line.now }
{
    &line[gap_length(line)..]
}

/// The first item of a line.
pub(crate) fn first_item(line: &[u8]) -> &[u8]
    ensures { result.now ≡ first_item line.now }
{
    let line = after_gap(line);
    &line[..item_length(line)]
}

/// What follows the first item of a line.
pub(crate) fn after_item(line: &[u8]) -> &[u8]
    ensures { result.now ≡ after_item line.now }
{
    let line = after_gap(line);
    &line[item_length(line)..]
}

/// Whether a line has one item.
pub(crate) fn has_one_item(line: &[u8]) -> bool
    ensures { result ≡ has_one_item line.now }
{
    after_gap(after_item(line)).is_empty()
}

/// The first item of a line, and what follows it.
pub(crate) fn item_and_rest(line: &[u8]) -> (&[u8], &[u8])
    ensures item { result.0.now ≡ first_item line.now }
    ensures rest { result.1.now ≡ after_item line.now }
{
    let line = after_gap(line);
    line.split_at(item_length(line))
}

/// How many bytes come before two spaces in a row.
pub(crate) fn column_length(line: &[u8]) -> usize
    ensures value { result ≡ column_length line.now }
    ensures bound { result ≤ length line.now }
{
    let mut rest = line;
    'bytes: while let [byte, behind @ ..] = rest {
        if *byte == b' ' && begins_with_space(behind) {
            break;
        }
        rest = behind;
    }
    line.len() - rest.len()
}

fn begins_with_space(line: &[u8]) -> bool
    ensures { result ≡ begins_with_space line.now }
{
    match line {
        [byte, ..] => *byte == b' ',
        [] => false,
    }
}

/// How many bytes come before `|` or `>`.
pub(crate) fn bar_length(line: &[u8]) -> usize
    ensures value { result ≡ bar_length line.now }
    ensures bound { result ≤ length line.now }
{
    let mut rest = line;
    'bytes: while let [byte, behind @ ..] = rest {
        if *byte == b'|' || *byte == b'>' {
            break;
        }
        rest = behind;
    }
    line.len() - rest.len()
}

/// How many bytes come before `|`.
pub(crate) fn pipe_length(line: &[u8]) -> usize
    ensures value { result ≡ pipe_length line.now }
    ensures bound { result ≤ length line.now }
{
    let mut rest = line;
    'bytes: while let [byte, behind @ ..] = rest {
        if *byte == b'|' {
            break;
        }
        rest = behind;
    }
    line.len() - rest.len()
}

/// What follows the last colon of a text, or all of it.
pub(crate) fn behind_colon(text: &[u8]) -> &[u8]
    ensures { result.now ≡ behind_colon text.now text.now }
{
    let mut best = text;
    let mut rest = text;
    'bytes: while let [byte, behind @ ..] = rest {
        if *byte == b':' {
            best = behind;
        }
        rest = behind;
    }
    best
}

/// Data without `>` before them.
pub(crate) fn after_cursor(groups: &[u8]) -> &[u8]
    ensures { result.now ≡ after_cursor groups.now }
{
    match groups {
        [b'>', behind @ ..] => behind,
        _ => groups,
    }
}
