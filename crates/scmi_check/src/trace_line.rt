//! Lines of Linux's ftrace that show no message.
ghost use Rattle.std.specs.Prelude.{◌≡◌, IfOk, map};
ghost use Rattle.std.specs.List.{slice_split};
ghost use Rattle.std.specs.Option.{option_copied};
ghost use Rattle.scmi_decode.specs.Dump.{is_gap};
ghost use Rattle.scmi_decode.specs.Event.{behind_name};
ghost use Rattle.scmi_check.specs.TraceLine.{behind_all_digits, behind_digits, cpu_left, has_cpu, has_stamp, is_cpu, is_heading, is_stamp, is_trace_line, lost_behind, lost_in, stamp_left};

use crate::note::Lost;
use scmi_board::number;
use std::alloc::{AllocError, Global};

/// What ftrace prints before the number of events that it lost, and after it.
const LOST: &[u8] = b"[LOST";

const EVENTS: &[u8] = b"EVENTS]";

/// What trace-cmd prints first: the number of processors.
const PROCESSORS: &[u8] = b"cpus=";

/// What is before the number of a processor, and after it.
const OPENING: &[u8] = b"[";

const CLOSING: &[u8] = b"]";

/// What is between the seconds of a time and their fraction, and after it.
const POINT: &[u8] = b".";

const COLON: &[u8] = b":";

/// The items of a line, which are between its gaps; some may be empty.
pub(crate) fn items_of<'a>(alloc: Global, line: &'a [u8]) -> Result<Vec<&'a [u8]>, AllocError>
    ensures { IfOk result (λ items. map (λ item. item.now) items.items ≡
        slice_split is_gap line.now) }
{
    line.split(|byte| is_gap(*byte)).collect(alloc)
}

/// Whether a byte is between the items of a line, as `read_traced` has it.
pub(crate) fn is_gap(byte: u8) -> bool
    ensures { result ≡ is_gap byte }
{
    byte == b' ' || byte == b'\t' || byte == b'\r' || byte == b','
}

/// How many events are lost, if items report that: `[LOST 12 EVENTS]`, or `[LOST EVENTS]`.
pub(crate) fn lost_in(items: &[&[u8]]) -> Option<Lost>
    ensures { result ≡ lost_in (map (λ item. item.now) items.now) }
{
    let mut rest = items;
    'items: while let [item, behind @ ..] = rest {
        if *item == LOST {
            return lost_behind(behind);
        }
        rest = behind;
    }
    None
}

/// How many events are lost, by the items after the word.
fn lost_behind(items: &[&[u8]]) -> Option<Lost>
    ensures { result ≡ lost_behind (map (λ item. item.now) items.now) }
{
    match items {
        [first, ..] if *first == EVENTS => Some(Lost::Unknown),
        [first, second, ..] if *second == EVENTS => match number(first) {
            Some(events) => Some(Lost::Events(events)),
            None => None,
        },
        _ => None,
    }
}

/// Whether items are a line of a trace: they have a processor and a time, or are a heading.
pub(crate) fn is_trace_line(items: &[&[u8]]) -> bool
    ensures { result ≡ is_trace_line (map (λ item. item.now) items.now) }
{
    is_heading(items) || (has_cpu(items) && has_stamp(items))
}

/// Whether items are the line that trace-cmd prints first.
fn is_heading(items: &[&[u8]]) -> bool
    ensures { result ≡ is_heading (map (λ item. item.now) items.now) }
{
    match items {
        [item] => item.starts_with(PROCESSORS),
        _ => false,
    }
}

/// Whether an item is the number of a processor.
fn has_cpu(items: &[&[u8]]) -> bool
    ensures { result ≡ has_cpu (map (λ item. item.now) items.now) }
{
    let mut rest = items;
    'items: while let [item, behind @ ..] = rest {
        if is_cpu(item) {
            return true;
        }
        rest = behind;
    }
    false
}

/// Whether an item is a time.
fn has_stamp(items: &[&[u8]]) -> bool
    ensures { result ≡ has_stamp (map (λ item. item.now) items.now) }
{
    let mut rest = items;
    'items: while let [item, behind @ ..] = rest {
        if is_stamp(item) {
            return true;
        }
        rest = behind;
    }
    false
}

/// Whether an item is the number of a processor, such as `[003]`.
fn is_cpu(item: &[u8]) -> bool
    ensures { result ≡ is_cpu item.now }
{
    match cpu_left(item) {
        Some(rest) => rest.is_empty(),
        None => false,
    }
}

/// What follows the number of a processor, if an item begins with it.
#[tactic(auto, unfolding(crate::specs::TraceLine::cpu_left))]
fn cpu_left(item: &[u8]) -> Option<&[u8]>
    ensures { option_copied result ≡ cpu_left item.now }
{
    let digits = behind_name(OPENING, item)?;
    let rest = behind_digits(digits)?;
    behind_name(CLOSING, rest)
}

/// Whether an item is a time, such as `12.000100:`.
pub(crate) fn is_stamp(item: &[u8]) -> bool
    ensures { result ≡ is_stamp item.now }
{
    match stamp_left(item) {
        Some(rest) => rest.is_empty(),
        None => false,
    }
}

/// What follows a time, if an item begins with it.
#[tactic(auto, unfolding(crate::specs::TraceLine::stamp_left))]
fn stamp_left(item: &[u8]) -> Option<&[u8]>
    ensures { option_copied result ≡ stamp_left item.now }
{
    let seconds = behind_digits(item)?;
    let fraction = behind_name(POINT, seconds)?;
    let rest = behind_digits(fraction)?;
    behind_name(COLON, rest)
}

/// What follows a mark, if a text begins with it.
fn behind_name<'a>(mark: &[u8], text: &'a [u8]) -> Option<&'a [u8]>
    ensures { option_copied result ≡ behind_name mark.now text.now }
{
    text.strip_prefix(mark)
}

/// What follows the digits that a text begins with, if there is one.
fn behind_digits(text: &[u8]) -> Option<&[u8]>
    ensures { option_copied result ≡ behind_digits text.now }
{
    match text {
        [first, rest @ ..] if first.is_ascii_digit() => Some(behind_all_digits(rest)),
        _ => None,
    }
}

/// What follows the digits that a text begins with.
fn behind_all_digits(text: &[u8]) -> &[u8]
    ensures { result.now ≡ behind_all_digits text.now }
{
    let mut rest = text;
    'digits: while let [first, behind @ ..] = rest {
        if !first.is_ascii_digit() {
            return rest;
        }
        rest = behind;
    }
    rest
}
