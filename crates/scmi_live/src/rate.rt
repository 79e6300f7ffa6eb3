//! Rates, which may have a unit.
ghost use Rattle.std.specs.Prelude.{◌≡◌, ◌*◌, ◌+◌, ◌<◌};
ghost use Rattle.std.specs.Option.{option_map};
ghost use Rattle.scmi_live.specs.Rates.{begins_with_zero, behind_point, behind_whole, bytes_before, digit_of, digits_behind, held, in_unit, is_whole, rate_in_unit, rate_meant, scaled, zeros_of};

use crate::letters::is_word;
use scmi_board::number;

/// The units of a rate.
pub(crate) const GHZ: &[u8] = b"GHz";

pub(crate) const MHZ: &[u8] = b"MHz";

pub(crate) const KHZ: &[u8] = b"kHz";

pub(crate) const HZ: &[u8] = b"Hz";

/// The rate that an item encodes, in Hz: its number of 64 bits; or digits, which may have a point,
/// with a unit in letters of either case. `None` for any other item, if it is not a whole number of
/// Hz, and above 2^64 - 1.
pub fn rate_meant(item: &[u8]) -> Option<u64>
    ensures { result ≡ rate_meant item.now }
{
    match number(item) {
        Some(rate) => Some(rate),
        None => rate_in_unit(item),
    }
}

/// A rate with its unit, in Hz.
pub(crate) fn rate_in_unit(item: &[u8]) -> Option<u64>
    ensures { result ≡ rate_in_unit item.now }
{
    let (value, rest) = digits_behind(0, item)?;
    if is_whole(bytes_before(item, rest), item) {
        behind_whole(value, rest)
    } else {
        None
    }
}

/// Whether this many digits are a number: one at least, and no zero before others.
fn is_whole(count: usize, text: &[u8]) -> bool
    ensures { result ≡ is_whole count text.now }
{
    count == 1 || (count > 1 && !begins_with_zero(text))
}

fn begins_with_zero(text: &[u8]) -> bool
    ensures { result ≡ begins_with_zero text.now }
{
    match text {
        [byte, ..] => *byte == b'0',
        [] => false,
    }
}

/// What follows the digits before the point: the point and what is behind it, or the unit.
fn behind_whole(value: u64, rest: &[u8]) -> Option<u64>
    ensures { result ≡ behind_whole value rest.now }
{
    match rest {
        [byte, behind @ ..] => {
            if *byte == b'.' {
                behind_point(value, behind)
            } else {
                in_unit(value, 0, rest)
            }
        }
        [] => None,
    }
}

/// Digits behind the point, one at least, and the unit.
fn behind_point(value: u64, text: &[u8]) -> Option<u64>
    ensures { result ≡ behind_point value text.now }
{
    let (value, unit) = digits_behind(value, text)?;
    let places = bytes_before(text, unit);
    if places > 0 {
        in_unit(value, places, unit)
    } else {
        None
    }
}

/// How many bytes of a text are before this rest of it.
fn bytes_before(text: &[u8], rest: &[u8]) -> usize
    ensures { result ≡ bytes_before text.now rest.now }
{
    text.len().saturating_sub(rest.len())
}

/// The decimal digits at the head of a text, after others of this value: the value of all, and what
/// follows them; `None` if it is above 2^64 - 1.
fn digits_behind(mut value: u64, mut text: &[u8]) -> Option<(u64, &[u8])>
    ensures { option_map (λ found. (found.0, found.1.now)) result ≡
        digits_behind value text.entry.now }
{
    while let [byte, rest @ ..] = text {
        let Some(digit) = digit_of(*byte) else {
            return Some((value, text));
        };
        value = with_digit(value, digit)?;
        text = rest;
    }
    Some((value, text))
}

fn digit_of(byte: u8) -> Option<u32>
    ensures { result ≡ digit_of byte }
{
    char::from(byte).to_digit(10)
}

/// A value with a digit behind it.
fn with_digit(value: u64, digit: u32) -> Option<u64>
    ensures { result ≡ held (value * 10 + digit) }
{
    value.checked_mul(10)?.checked_add(u64::from(digit))
}

/// Digits and a unit, of which this many are behind the point.
fn in_unit(value: u64, places: usize, unit: &[u8]) -> Option<u64>
    ensures { result ≡ in_unit value places unit.now }
{
    scaled(value, places, zeros_of(unit)?)
}

/// The zeros of a unit: it is 1 Hz with these behind the 1.
pub(crate) fn zeros_of(unit: &[u8]) -> Option<u32>
    ensures { result ≡ zeros_of unit.now }
{
    if is_word(unit, GHZ) {
        return Some(9);
    }
    if is_word(unit, MHZ) {
        return Some(6);
    }
    if is_word(unit, KHZ) {
        return Some(3);
    }
    if is_word(unit, HZ) {
        return Some(0);
    }
    None
}

/// Digits of which this many are behind the point, in a unit of this many zeros.
fn scaled(value: u64, places: usize, zeros: u32) -> Option<u64>
    ensures { result ≡ scaled value places zeros }
{
    let places = u32::try_from(places).ok()?;
    let factor = 10u64.checked_pow(zeros.checked_sub(places)?)?;
    value.checked_mul(factor)
}
