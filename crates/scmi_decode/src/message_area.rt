//! The area that holds a message.
ghost use Rattle.std.specs.Prelude.{◌≡◌, IfOk, true};
ghost use Rattle.std.specs.Option.{option_map};
ghost use Rattle.scmi_decode.specs.MessageArea.{fits_area, message_area, message_start, padded};

use scmi_codec::{AREA_BYTES, PAYLOAD_WORDS};
use std::alloc::{AllocError, Global};

/// The area of a message, header first, in a channel of this status word; `None` if it has no
/// header or too many payload bytes. The only possible error: out of memory.
#[tactic(auto, unfolding(crate::specs::MessageArea::message_area))]
pub(crate) fn message_area(
    alloc: Global,
    status: u32,
    message: &[u8],
) -> Result<Option<Vec<u8>>, AllocError>
    ensures { IfOk result (λ found.
        option_map (λ bytes. bytes.items) found ≡ message_area status message.now) }
{
    if !fits_area(message) {
        return Ok(None);
    }
    let start = message_start(alloc, status, message)?;
    Ok(Some(padded(alloc, start)?))
}

/// Whether a message has a header, and not too many payload bytes.
fn fits_area(message: &[u8]) -> bool
    ensures { result ≡ fits_area message.now }
{
    message.len() > 3 && message.len() < 4 + 4 * PAYLOAD_WORDS + 1
}

/// The bytes before the end of a message.
#[tactic(auto, unfolding(crate::specs::MessageArea::message_start))]
fn message_start(alloc: Global, status: u32, message: &[u8]) -> Result<Vec<u8>, AllocError>
    requires fits { fits_area message.now ≡ true }
    ensures { IfOk result (λ start. start.items ≡ message_start status message.now) }
{
    let mut start = Vec::with_capacity(alloc, AREA_BYTES)?;
    start.extend_from_slice(&[0; 4])?;
    start.extend_from_slice(&status.to_le_bytes())?;
    start.extend_from_slice(&[0; 12])?;
    start.extend_from_slice(&(message.len() as u32).to_le_bytes())?;
    start.extend_from_slice(message)?;
    Ok(start)
}

/// Bytes with as many zeros after them as an area has.
fn padded(alloc: Global, mut bytes: Vec<u8>) -> Result<Vec<u8>, AllocError>
    ensures { IfOk result (λ all. all.items ≡ padded bytes.items) }
{
    let zeros = vec![in alloc; 0u8; AREA_BYTES.saturating_sub(bytes.len())]?;
    bytes.extend_from_slice(zeros.as_slice())?;
    Ok(bytes)
}
