//! The forms of rows.

/// How a row of a dump marks the place of its bytes.
#[derive(Clone, Copy)]
pub enum Form {
    /// No address: `xxd -p`, `od -An`, one value a line.
    Plain,
    /// An address with a colon after it, and a column of text after two spaces: `xxd`, U-Boot's
    /// `md`, gdb's `x`; or an address and one value.
    Marked,
    /// An address alone, and a column of text after `|` or `>`: `hexdump -C`, `od`.
    Offset,
    /// An address, `=`, and bytes or numbers: J-Link's `mem8`, `mem16` and `mem32`.
    Equals,
    /// `Value at address`, the address, another in parentheses, and a number without leading zeros:
    /// `devmem2`.
    Value,
}
