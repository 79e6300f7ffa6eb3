//! What the flags of a message add to its label.

use crate::label::add_remark;
use crate::mark::Label;
use crate::value::{Value, filled_words};
use std::alloc::{AllocError, Global};

/// A comment on flags: which bits are looked at, which of these are set if it holds, and its words.
type Comment = (u32, u32, &'static str);

/// The flags of a message: the greatest value of those that have a meaning, and the comments.
#[derive(Clone, Copy)]
pub(crate) struct Flags {
    known: u32,
    comments: &'static [Comment],
}

pub(crate) const SWITCH: Flags = Flags {
    known: 1,
    comments: &[],
};

pub(crate) const POWER: Flags = Flags {
    known: 1,
    comments: &[(1, 1, "async")],
};

pub(crate) const PERMIT: Flags = Flags {
    known: 1,
    comments: &[(1, 1, "allow"), (1, 0, "deny")],
};

pub(crate) const RESET: Flags = Flags {
    known: 1,
    comments: &[(1, 1, "and permissions")],
};

/// When a rate set takes effect, whether it is announced, and how the rate is rounded.
pub(crate) const RATE: Flags = Flags {
    known: 15,
    comments: &[
        (1, 1, "async"),
        (2, 2, "no response"),
        (8, 8, "nearest"),
        (12, 4, "up"),
    ],
};

/// Adds comments on flags, and all bits if one is set other than those that have a meaning.
pub(crate) fn add_flags(
    alloc: Global,
    label: &mut Label,
    flags: Flags,
    bits: u32,
) -> Result<(), AllocError> {
    for (looked_at, set, words) in flags.comments {
        if bits & *looked_at == *set {
            add_remark(label, words.as_bytes())?;
        }
    }
    if bits <= flags.known {
        return Ok(());
    }
    add_remark(label, &filled_words(alloc, "flags %", &[Value::Hex(bits)])?)
}
