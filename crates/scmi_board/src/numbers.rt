//! Numbers as texts write them.
ghost use Rattle.std.specs.Prelude.{◌≡◌, ◌<◌, ◌≤◌, ◌^◌, SomeIff};
ghost use Rattle.std.specs.Str.Parse.{IsNumeral, digits_value};
ghost use Rattle.scmi_board.specs.Number.{IsNumber, has_hexadecimal_mark, number_of, number_value};

/// The value of a number of 64 bits (own): decimal digits with no zero before others, or `0x` and 1
/// to 16 hexadecimal digits of either case. `None` for any other text, and above 2^64 - 1.
pub fn number(text: &[u8]) -> Option<u64>
    ensures form { SomeIff result (IsNumber 64 text.now) (number_value text.now) }
    ensures number { result ≡ number_of 64 text.now }
{
    if has_hexadecimal_mark(text) {
        // The mark and 16 digits.
        if text.len() > 18 {
            return None;
        }
        return digits_value(&text[2..], 16);
    }
    if text.len() > 1 && text[0] == b'0' {
        return None;
    }
    digits_value(text, 10)
}

/// The same of a number of 32 bits: `None` above 2^32 - 1.
pub fn word(text: &[u8]) -> Option<u32>
    ensures form { SomeIff result (IsNumber 32 text.now) (number_value text.now) }
    ensures number { result ≡ number_of 32 text.now }
{
    u32::try_from(number(text)?).ok()
}

/// The same of a number of 8 bits: `None` above 255.
pub fn byte(text: &[u8]) -> Option<u8>
    ensures form { SomeIff result (IsNumber 8 text.now) (number_value text.now) }
    ensures number { result ≡ number_of 8 text.now }
{
    u8::try_from(number(text)?).ok()
}

/// Whether a text begins with `0x`.
fn has_hexadecimal_mark(text: &[u8]) -> bool
    ensures { result ≡ has_hexadecimal_mark text.now }
{
    text.len() > 1 && text[0] == b'0' && text[1] == b'x'
}

/// The value of digits, if there is one at least, each is one, and the value fits 64 bits.
fn digits_value(digits: &[u8], radix: u32) -> Option<u64>
    requires low { 2 ≤ radix }
    requires high { radix ≤ 16 }
    ensures { SomeIff result (IsNumeral radix digits.now × (digits_value radix digits.now < 2 ^ 64))
        (digits_value radix digits.now) }
{
    if digits.is_empty() {
        return None;
    }
    let mut value = 0u64;
    'digits: for byte in digits {
        let digit = char::from(*byte).to_digit(radix)?;
        value = value
            .checked_mul(u64::from(radix))?
            .checked_add(u64::from(digit))?;
    }
    Some(value)
}
