//! Why a dump has no bytes.

/// Why a dump has no bytes.
#[derive(Clone, Copy)]
pub enum NoBytes {
    /// It has other items than hexadecimal digits.
    Digits,
    /// Its groups of digits may be bytes or numbers.
    Order,
    /// The first items of its rows may be addresses.
    Address,
    /// It is unclear how often a row of it repeats.
    Repeats,
    /// It is one line that may be an address and more bytes than a row has.
    WideRow,
    /// It is one line that may be a part of an area, with the line before or behind it.
    Part,
}
