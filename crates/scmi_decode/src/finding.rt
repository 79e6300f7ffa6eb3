//! What is found in an input.
ghost use Rattle.std.specs.Prelude.{◌≡◌};
ghost use Rattle.scmi_decode.specs.Finding.{is_area_found};

use crate::description::Description;
use crate::no_bytes::NoBytes;

/// What bytes are.
#[derive(Drop)]
pub enum Found {
    /// An area, and what it holds. If its length is that of no frame, but would be one if its numbers of
    /// 16, 32 or 64 bits were printed in the other byte order, the second is that length.
    Area {
        description: Description,
        swapped: Option<u32>,
    },
    /// No area: so many bytes.
    OtherSize {
        count: usize,
    },
    /// No area: so many bytes are left, and each area has this size.
    Cut {
        count: usize,
        size: usize,
    },
    /// No area: it has no bytes.
    NoBytes {
        why: NoBytes,
    },
}

/// What is found in an input, and where.
#[derive(Drop)]
pub struct Finding {
    /// The line, from 1, at which its dump begins; `None` in an input of bytes.
    pub line: Option<usize>,
    /// The byte, from 0, of the dump or of the input at which it begins; `None` if a dump is read whole.
    pub start: Option<usize>,
    pub found: Found,
}

impl Found {
    /// Whether it is an area.
    pub(crate) fn is_area(&self) -> bool
        ensures { result ≡ is_area_found self.now }
    {
        match self {
            Found::Area { .. } => true,
            _ => false,
        }
    }
}
