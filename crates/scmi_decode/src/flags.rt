//! Words of bits, as they are written.

use std::fmt;

/// A bit, and what is written if it is set.
type Mark = (u32, &'static str);

/// The flags of a reset.
pub(crate) const RESET_FLAGS: [Mark; 1] = [(1, "permissions")];

/// The flags of a power state set.
pub(crate) const POWER_FLAGS: [Mark; 1] = [(1, "async")];

/// The flags of a rate set.
pub(crate) const RATE_FLAGS: [Mark; 4] = [
    (1, "async"),
    (1 << 1, "no-delayed-response"),
    (1 << 2, "round-up"),
    (1 << 3, "round-nearest"),
];

/// What a domain supports.
pub(crate) const SUPPORTS: [Mark; 3] = [
    (1 << 31, "notifications"),
    (1 << 30, "asynchronous"),
    (1 << 29, "synchronous"),
];

/// A word of flags: the mark of each bit that is set, after a space, then the bits that have none;
/// `-` if no bit is set.
#[derive(Clone, Copy)]
pub(crate) struct Flags<'a>(pub(crate) u32, pub(crate) &'a [Mark]);

impl fmt::Display for Flags<'_> {
    fn fmt<W: fmt::Write>(&self, f: &mut fmt::Formatter<W>) -> fmt::Result {
        let Flags(word, marks) = *self;
        if word == 0 {
            return f.write_str(" -");
        }
        let mut reserved = word;
        for (bit, mark) in marks {
            if word & *bit != 0 {
                write!(f, " {mark}")?;
                reserved &= !*bit;
            }
        }
        write!(f, "{}", Reserved(reserved))
    }
}

/// A word whose bit 0 alone has a meaning, by what is written if it is 1 and if it is 0.
#[derive(Clone, Copy)]
pub(crate) struct Switch(
    pub(crate) u32,
    pub(crate) &'static str,
    pub(crate) &'static str,
);

impl fmt::Display for Switch {
    fn fmt<W: fmt::Write>(&self, f: &mut fmt::Formatter<W>) -> fmt::Result {
        let Switch(word, on, off) = *self;
        let text = if word & 1 == 1 { on } else { off };
        write!(f, "{text}{}", Reserved(word & !1))
    }
}

/// Bits that have no meaning, if any is set.
#[derive(Clone, Copy)]
pub(crate) struct Reserved(pub(crate) u32);

impl fmt::Display for Reserved {
    fn fmt<W: fmt::Write>(&self, f: &mut fmt::Formatter<W>) -> fmt::Result {
        match self.0 {
            0 => Ok(()),
            bits => write!(f, " reserved 0x{bits:x}"),
        }
    }
}
