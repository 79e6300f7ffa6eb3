//! Texts that are made of pieces.
ghost use Rattle.std.specs.Prelude.{◌≡◌, IfOk, OnOk};
ghost use Rattle.scmi_live.specs.Pieces.{with_byte};

use std::alloc::{AllocError, Global};

/// A copy of a text.
pub(crate) fn copy_of(alloc: Global, text: &[u8]) -> Result<Vec<u8>, AllocError>
    ensures { IfOk result (λ made. made.items ≡ text.now) }
{
    let mut made = Vec::new(alloc);
    made.extend_from_slice(text)?;
    Ok(made)
}

/// Adds the byte between two pieces, unless the piece that follows is the first.
pub(crate) fn add_byte(byte: u8, is_first: bool, made: &mut Vec<u8>) -> Result<(), AllocError>
    ensures { OnOk result (made.new.items ≡ with_byte byte is_first made.old.items) }
{
    if is_first {
        return Ok(());
    }
    Ok(made.push(byte)?)
}
