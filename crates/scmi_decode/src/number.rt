//! The numbers of addresses.
ghost use Rattle.std.specs.Prelude.{◌≡◌, length};
ghost use Rattle.scmi_decode.specs.Row.{digit_value, is_hexadecimal, number_from, without_mark};

use crate::dump::has_mark;

/// The value of a digit of either case, 16 for what is no hexadecimal digit.
fn digit_value(byte: u8) -> u64
    ensures { result ≡ digit_value byte }
{
    match byte {
        b'0'..=b'9' => u64::from(byte - b'0'),
        b'a'..=b'f' => u64::from(byte - b'a') + 10,
        b'A'..=b'F' => u64::from(byte - b'A') + 10,
        _ => 16,
    }
}

/// Whether an item is hexadecimal digits.
pub(crate) fn is_hexadecimal(item: &[u8]) -> bool
    ensures { result ≡ is_hexadecimal item.now }
{
    item.iter().all(|byte| digit_value(*byte) < 16)
}

/// The number that digits of a base give after what comes before them, `None` if one of them is no
/// digit of the base or the number has more than 64 bits.
pub(crate) fn number_from(base: u64, before: u64, digits: &[u8]) -> Option<u64>
    ensures { result ≡ number_from base before digits.now }
{
    let mut number = before;
    let mut rest = digits;
    'digits: while let [digit, behind @ ..] = rest {
        let value = digit_value(*digit);
        if value >= base {
            return None;
        }
        number = number.checked_mul(base)?.checked_add(value)?;
        rest = behind;
    }
    Some(number)
}

/// Digits without the mark `0x`.
pub(crate) fn without_mark(digits: &[u8]) -> &[u8]
    ensures { result.now ≡ without_mark digits.now }
{
    if has_mark(digits) {
        &digits[2..]
    } else {
        digits
    }
}
