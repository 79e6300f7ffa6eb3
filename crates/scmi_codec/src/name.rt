//! Names of agents, domains, clocks and vendors.
ghost use Rattle.std.specs.Prelude.{◌≤◌, ◌≡◌, ◌↔◌, ◌++◌, ◌-◌, IsSome, IfSome, IsTrue, length, replicate};
ghost use Rattle.scmi_codec.specs.Name.{IsLooseName, IsName, IsPrintable, IsText, four_words, name_words};

use crate::word::read_word;
use arrayvec::ArrayVec;
use std::marker::Model;

/// The most bytes of a name, so that one zero at least ends it in a reply (own).
pub const NAME_BYTES: usize = 15;

/// A name of at most `NAME_BYTES` bytes, each 0x20 to 0x7E (own).
#[derive(PartialEq, Eq, Debug, Drop)]
pub struct Name {
    bytes: ArrayVec<u8, NAME_BYTES>,
}

impl Model for Name {
    ghost use Rattle.std.specs.Prelude.{ℕ, List};
    ghost use Rattle.scmi_codec.specs.Name.{IsLooseName};

    ghost Value = { List ℕ };

    ghost view = { λ n. n.bytes.items };

    ghost invariant = { λ n. IsLooseName n.bytes.items };

    ghost inverse = { λ v. record { bytes = record { items = v } } };
}

fn is_printable(bytes: &[u8]) -> bool
    ensures { IsTrue result ↔ IsPrintable bytes.now }
{
    for byte in bytes {
        if *byte < 0x21 || *byte > 0x7e {
            return false;
        }
    }
    true
}

fn is_text(bytes: &[u8]) -> bool
    ensures { IsTrue result ↔ IsText bytes.now }
{
    for byte in bytes {
        if *byte < 0x20 || *byte > 0x7e {
            return false;
        }
    }
    true
}

impl Name {
    /// The name of a text; `None` if the text is empty, longer than `NAME_BYTES`, or has a byte
    /// that is not printable, 0x21 to 0x7E.
    pub fn new(text: &str) -> Option<Name>
        ensures name { IfSome result (λ name. name ≡ text.now) }
        ensures variant { IsSome result ↔ IsName text.now }
    {
        let bytes = text.as_bytes();
        if bytes.is_empty() || bytes.len() > NAME_BYTES || !is_printable(bytes) {
            return None;
        }
        Some(Name::of(bytes))
    }

    /// The name of a text that may be empty and have blanks; `None` if the text is longer than
    /// `NAME_BYTES`, or has a byte that is neither a blank nor printable, 0x20 to 0x7E.
    pub fn loose(text: &str) -> Option<Name>
        ensures name { IfSome result (λ name. name ≡ text.now) }
        ensures variant { IsSome result ↔ IsLooseName text.now }
    {
        let bytes = text.as_bytes();
        if bytes.len() > NAME_BYTES || !is_text(bytes) {
            return None;
        }
        Some(Name::of(bytes))
    }

    fn of(bytes: &[u8]) -> Name
        requires { IsLooseName bytes.now }
        ensures { result ≡ bytes.now }
    {
        let mut name = ArrayVec::new();
        let _ = name.try_extend_from_slice(bytes);
        Name { bytes: name }
    }
}

/// A name as the four words of a reply: its bytes and zeros after them, the first byte lowest.
pub fn name_words(name: &Name) -> [u32; 4]
    ensures { result ≡ name_words name.now }
{
    four_words(name.bytes.as_slice())
}

/// At most sixteen bytes as four words of a reply, the first byte lowest, and zeros after them.
pub fn four_words(bytes: &[u8]) -> [u32; 4]
    requires { length bytes.now ≤ 16 }
    ensures { result ≡ four_words bytes.now }
{
    let padded = padded_bytes(bytes);
    [
        read_word(&padded, 0),
        read_word(&padded, 4),
        read_word(&padded, 8),
        read_word(&padded, 12),
    ]
}

/// The bytes, and zeros after them.
fn padded_bytes(bytes: &[u8]) -> [u8; 16]
    requires { length bytes.now ≤ 16 }
    ensures { result ≡ bytes.now ++ replicate (16 - length bytes.now) 0 }
{
    let mut padded = [0u8; 16];
    padded[..bytes.len()].copy_from_slice(bytes);
    padded
}
