//! Why an item is no number.

use crate::text::are_hexadecimal;
use scmi_board::number;

/// The numbers that an item may be, and what is said of others.
#[derive(Clone, Copy)]
pub(crate) struct Width {
    most: u64,
    too_large: &'static str,
    no_number: &'static str,
}

/// What is said of an item of another form than a number.
pub(crate) const NO_NUMBER: &str = "is not a number (decimal digits, or 0x and hexadecimal digits)";

pub(crate) const BYTE: Width = Width {
    most: u8::MAX as u64,
    too_large: "does not fit 8 bits",
    no_number: NO_NUMBER,
};

pub(crate) const WORD: Width = Width {
    most: u32::MAX as u64,
    too_large: "does not fit 32 bits",
    no_number: NO_NUMBER,
};

pub(crate) const RATE: Width = Width {
    most: u64::MAX,
    too_large: "does not fit 64 bits",
    no_number: "is not a number of Hz (decimal digits, or 0x and hexadecimal digits; only the \
        modes hardware and files of boards have units, as 600MHz)",
};

impl Width {
    /// Why an item is no such number; `None` of one that is.
    pub(crate) fn fault_of(&self, item: &[u8]) -> Option<&'static str> {
        if number(item).is_some_and(|value| value <= self.most) {
            return None;
        }
        Some(match item {
            [b'0', b'x'] => "has no digits after 0x",
            [b'0', b'x', digits @ ..] if are_hexadecimal(digits) => self.too_large,
            [b'0', b'x', ..] => self.no_number,
            [b'0', b'X', ..] => "begins with 0X in place of 0x",
            [b'-' | b'+', ..] => "has a sign",
            _ => self.decimal_fault(item),
        })
    }

    /// Why an item without `0x` is no such number.
    fn decimal_fault(&self, item: &[u8]) -> &'static str {
        if are_decimal(item) {
            return match item {
                [b'0', _, ..] => "has a leading zero",
                _ => self.too_large,
            };
        }
        if !has_decimal(item) {
            return self.no_number;
        }
        if are_hexadecimal(item) {
            return "has hexadecimal digits without 0x before them";
        }
        if are_separated(item) {
            return "has separators between its digits";
        }
        self.no_number
    }
}

fn are_decimal(item: &[u8]) -> bool {
    !item.is_empty() && item.iter().all(|byte| byte.is_ascii_digit())
}

fn has_decimal(item: &[u8]) -> bool {
    item.iter().any(|byte| byte.is_ascii_digit())
}

/// Whether there are only digits, commas, underscores and points.
fn are_separated(item: &[u8]) -> bool {
    item.iter().all(|byte| byte.is_ascii_digit() || matches!(*byte, b',' | b'_' | b'.'))
}
