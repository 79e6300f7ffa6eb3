//! The shared area of a channel.
ghost use Rattle.std.specs.Prelude.{◌≡◌, ℕ, length, IsOk, OnOk, OnErr, IfErr, ◌↔◌, ◌≢◌, true, is_some, is_none, slice_index};
ghost use Rattle.scmi_codec.specs.Area.{frame_of, frame_waiting, header_at, message_of, area_after_answer, area_after_post, is_well_formed, StandsForAnswer, IsUntouched, IsOutside};
ghost use Rattle.scmi_codec.specs.declared.frame.Frame.TheVariants.{Good};
ghost use Rattle.scmi_codec.specs.declared.frame.Answer.TheVariants.{Reply};
ghost use Rattle.scmi_codec.specs.declared.area.TheConstants.{AREA_BYTES};

use crate::area_layout::PAYLOAD_AT;
use crate::area_reader::{is_marked_free, is_well_formed_within, read_frame};
use crate::area_writer::{put_answer, put_message, put_response};
use crate::channel_status::ChannelStatus;
use crate::frame::{Answer, Frame};
use crate::message::Message;
use crate::payload::{PAYLOAD_WORDS, Payload};
use arrayvec::ArrayVec;
use bitflags::Flags;
use thiserror::Error;

/// The size of an area in bytes: the fields before the payload, and the payload (own).
pub const AREA_BYTES: usize = PAYLOAD_AT + 4 * PAYLOAD_WORDS;

/// Why an area was not read or written.
#[derive(Clone, Copy, PartialEq, Eq, Debug, Error)]
pub enum AreaError {
    #[error("an area has {AREA_BYTES} bytes")]
    WrongSize = 1,
}

/// Whether a length in bytes, of header and payload, is 4 + 4k with k from 0 to `PAYLOAD_WORDS`
/// (own).
pub fn is_well_formed(length: u32) -> bool
    ensures { result ≡ is_well_formed length }
{
    is_well_formed_within(length, PAYLOAD_WORDS)
}

/// The frame that a caller has posted, or `None` for a free channel: of the status word, bit 0
/// alone decides (own). `WrongSize` if there are not `AREA_BYTES` bytes.
pub fn read_area(area: &[u8]) -> Result<Option<Frame>, AreaError>
    ensures ok { length area.now ≡ AREA_BYTES → result ≡ Ok (frame_waiting area.now) }
    ensures wrong_size { length area.now ≢ AREA_BYTES → result ≡ Err AreaError.WrongSize }
{
    let mut frame = Frame::Good(Message::default());
    if read_area_into(area, &mut frame)? {
        Ok(Some(frame))
    } else {
        Ok(None)
    }
}

/// Reads the frame that a caller has posted, as `read_area`, into `frame`, and returns whether
/// there is one. Only the words that are there are written.
#[inline(always)]
pub fn read_area_into(area: &[u8], frame: &mut Frame) -> Result<bool, AreaError>
    ensures ok { length area.now ≡ AREA_BYTES → result ≡ Ok (is_some (frame_waiting area.now)) }
    ensures frame { result ≡ Ok true → frame_waiting area.now ≡ Some frame.new }
    ensures stays { result ≢ Ok true → frame.new ≡ frame.old }
    ensures wrong_size { length area.now ≢ AREA_BYTES → result ≡ Err AreaError.WrongSize }
{
    if is_free(area)? {
        return Ok(false);
    }
    read_frame(area, PAYLOAD_WORDS, frame);
    Ok(true)
}

/// The frame that is in an area, whatever its status word: also the one that an answer left in a
/// free channel (own).
pub fn frame_of(area: &[u8; AREA_BYTES]) -> Frame
    ensures { result ≡ frame_of area.now }
{
    let mut frame = Frame::Good(Message::default());
    read_frame(area, PAYLOAD_WORDS, &mut frame);
    frame
}

/// Whether a channel is free, as `read_area` reports it.
pub fn is_free(area: &[u8]) -> Result<bool, AreaError>
    ensures ok { length area.now ≡ AREA_BYTES → result ≡ Ok (is_none (frame_waiting area.now)) }
    ensures wrong_size { length area.now ≢ AREA_BYTES → result ≡ Err AreaError.WrongSize }
{
    check_size(area)?;
    Ok(is_marked_free(area))
}

/// Refuses bytes that are no area for their number.
fn check_size(area: &[u8]) -> Result<(), AreaError>
    ensures ok { OnOk result (length area.now ≡ AREA_BYTES) }
    ensures wrong_size { OnErr result (length area.now ≢ AREA_BYTES) }
    ensures errors { IfErr result (λ e. e ≡ AreaError.WrongSize) }
{
    if area.len() == AREA_BYTES {
        Ok(())
    } else {
        Err(AreaError::WrongSize)
    }
}

/// Writes the callee's answer over the message, and marks the channel free. A response writes the
/// status word 1, its length, header and payload words; `Released` writes status word 1 alone, and
/// `ChannelError` status word 3 alone; every other byte stays (own). `WrongSize` if there are not
/// `AREA_BYTES` bytes, and then nothing is written.
pub fn write_answer(area: &mut [u8], answer: &Answer) -> Result<(), AreaError>
    ensures size { IsOk result ↔ (length area.old ≡ AREA_BYTES) }
    ensures written { OnOk result (area.new ≡ area_after_answer answer.now area.old) }
    ensures stands { OnOk result (StandsForAnswer area.new (frame_of area.old) answer.now) }
    ensures rest { OnOk result
        ((i : ℕ) → IsUntouched answer.now i → slice_index area.new i ≡ slice_index area.old i) }
    ensures err { OnErr result (area.new ≡ area.old) }
    ensures errors { IfErr result (λ e. e ≡ AreaError.WrongSize) }
{
    check_size(area)?;
    put_answer(area, answer);
    Ok(())
}

/// Writes a response, as `write_answer` writes a reply, from a message by reference.
pub fn write_reply(area: &mut [u8], message: &Message) -> Result<(), AreaError>
    ensures size { IsOk result ↔ (length area.old ≡ AREA_BYTES) }
    ensures written { OnOk result (area.new ≡ area_after_answer (Reply message.now) area.old) }
    ensures stands { OnOk result
        (StandsForAnswer area.new (frame_of area.old) (Reply message.now)) }
    ensures rest { OnOk result
        ((i : ℕ) → IsUntouched (Reply message.now) i →
        slice_index area.new i ≡ slice_index area.old i) }
    ensures err { OnErr result (area.new ≡ area.old) }
    ensures errors { IfErr result (λ e. e ≡ AreaError.WrongSize) }
{
    check_size(area)?;
    put_message(area, message, ChannelStatus::FREE.bits());
    Ok(())
}

/// Writes a response to the message that is in an area, as `write_reply` writes one of that
/// message's header: the header word stays as it is.
pub fn write_response(area: &mut [u8], payload: &Payload) -> Result<(), AreaError>
    ensures size { IsOk result ↔ (length area.old ≡ AREA_BYTES) }
    ensures written { OnOk result (area.new
        ≡ area_after_answer (Reply (message_of (header_at area.old) payload.now.items)) area.old) }
    ensures stands { OnOk result (StandsForAnswer area.new (frame_of area.old)
        (Reply (message_of (header_at area.old) payload.now.items))) }
    ensures rest { OnOk result
        ((i : ℕ) → IsUntouched (Reply (message_of (header_at area.old) payload.now.items)) i
        → slice_index area.new i ≡ slice_index area.old i) }
    ensures err { OnErr result (area.new ≡ area.old) }
    ensures errors { IfErr result (λ e. e ≡ AreaError.WrongSize) }
{
    check_size(area)?;
    put_response(area, payload.as_slice());
    Ok(())
}

/// Writes a message as a caller posts it: its length, header and payload words, and last the status
/// word 0, so that the channel is no longer free; every other byte stays (own). `WrongSize` if
/// there are not `AREA_BYTES` bytes, and then nothing is written.
pub fn write_message(area: &mut [u8], message: &Message) -> Result<(), AreaError>
    ensures size { IsOk result ↔ (length area.old ≡ AREA_BYTES) }
    ensures written { OnOk result (area.new ≡ area_after_post message.now area.old) }
    ensures arrived { OnOk result (frame_waiting area.new ≡ Some (Good message.now)) }
    ensures rest { OnOk result
        ((i : ℕ) → IsOutside message.now i → slice_index area.new i ≡ slice_index area.old i) }
    ensures err { OnErr result (area.new ≡ area.old) }
    ensures errors { IfErr result (λ e. e ≡ AreaError.WrongSize) }
{
    check_size(area)?;
    put_message(area, message, 0);
    Ok(())
}
