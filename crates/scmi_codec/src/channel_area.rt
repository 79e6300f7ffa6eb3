//! The area of a channel, of the size that its board gives it (own).
ghost use Rattle.std.specs.Prelude.{◌≡◌, ◌≢◌, ◌+◌, ◌*◌, ◌≤◌, ℕ, length, Ok, Err, OnOk, OnErr, true, false, is_some, is_none, slice_index};
ghost use Rattle.scmi_codec.specs.Area.{header_at, message_of, area_after_answer, area_after_post, waiting_within, StandsForAnswerWithin, IsUntouched, IsOutside};
ghost use Rattle.scmi_codec.specs.ChannelArea.{is_channel_size, channel_bytes, channel_words, capacity, channel_frame, channel_waiting, answer_words, room_for};
ghost use Rattle.scmi_codec.specs.declared.frame.Frame.TheVariants.{Good};
ghost use Rattle.scmi_codec.specs.declared.frame.Answer.TheVariants.{ChannelError, Reply};
ghost use Rattle.scmi_codec.specs.declared.payload.TheConstants.{PAYLOAD_WORDS};

use crate::area::AREA_BYTES;
use crate::area_layout::PAYLOAD_AT;
use crate::area_reader::{is_marked_free, read_frame};
use crate::area_writer::{put_answer, put_error, put_message, put_response};
use crate::channel_status::ChannelStatus;
use crate::frame::{Answer, Frame};
use crate::message::Message;
use crate::payload::{PAYLOAD_WORDS, Payload};
use arrayvec::ArrayVec;
use bitflags::Flags;
use thiserror::Error;

/// The fewest payload words that a channel's area has room for (own).
pub const LEAST_PAYLOAD_WORDS: usize = 8;

/// The size in bytes of the smallest area (own).
pub const LEAST_AREA_BYTES: usize = PAYLOAD_AT + 4 * LEAST_PAYLOAD_WORDS;

/// Why a channel's area was not read or written.
#[derive(Clone, Copy, PartialEq, Eq, Debug, Error)]
pub enum ChannelAreaError {
    #[error("an area has 28 + 4k bytes, k from {LEAST_PAYLOAD_WORDS} to {PAYLOAD_WORDS}")]
    WrongSize = 1,
    #[error("a message has more words than its area")]
    TooLong = 2,
}

/// Whether a channel's area may have this many bytes: 28 + 4k with k from `LEAST_PAYLOAD_WORDS` to
/// `PAYLOAD_WORDS` (own).
pub fn is_channel_size(bytes: usize) -> bool
    ensures { result ≡ is_channel_size bytes }
{
    bytes >= LEAST_AREA_BYTES && bytes <= AREA_BYTES && bytes % 4 == 0
}

/// The size in bytes of an area of this many payload words.
pub fn channel_bytes(words: usize) -> usize
    requires few { words ≤ PAYLOAD_WORDS }
    ensures { result ≡ channel_bytes words }
{
    PAYLOAD_AT + 4 * words
}

/// How many payload words an area of this many bytes has.
pub fn channel_words(bytes: usize) -> usize
    requires size { is_channel_size bytes ≡ true }
    ensures words { result ≡ channel_words bytes }
    ensures few { result ≤ PAYLOAD_WORDS }
    ensures bytes { channel_bytes result ≡ bytes }
{
    (bytes - PAYLOAD_AT) / 4
}

/// The frame that a caller has posted into an area of its channel's size, or `None` for a free
/// channel: as `read_area`, but a length of more than the area's words is not well formed.
/// `WrongSize` if the number of bytes is not a channel's.
pub fn read_channel_area(area: &[u8]) -> Result<Option<Frame>, ChannelAreaError>
    ensures ok { is_channel_size (length area.now) ≡ true → result ≡ Ok (channel_waiting area.now) }
    ensures wrong_size { is_channel_size (length area.now) ≡ false
        → result ≡ Err ChannelAreaError.WrongSize }
{
    let mut frame = Frame::Good(Message::default());
    if read_channel_area_into(area, &mut frame)? {
        Ok(Some(frame))
    } else {
        Ok(None)
    }
}

/// Reads the frame that a caller has posted, as `read_channel_area`, into `frame`, and returns
/// whether there is one. Only the words that are there are written.
pub fn read_channel_area_into(area: &[u8], frame: &mut Frame) -> Result<bool, ChannelAreaError>
    ensures ok { is_channel_size (length area.now) ≡ true
        → result ≡ Ok (is_some (channel_waiting area.now)) }
    ensures frame { result ≡ Ok true → channel_waiting area.now ≡ Some frame.new }
    ensures stays { result ≢ Ok true → frame.new ≡ frame.old }
    ensures wrong_size { is_channel_size (length area.now) ≡ false
        → result ≡ Err ChannelAreaError.WrongSize }
{
    if is_channel_free(area)? {
        return Ok(false);
    }
    read_frame(area, channel_words(area.len()), frame);
    Ok(true)
}

/// The frame that is in an area of its channel's size, whatever its status word (own).
pub fn channel_frame(area: &[u8]) -> Frame
    requires size { is_channel_size (length area.now) ≡ true }
    ensures { result ≡ channel_frame area.now }
{
    let mut frame = Frame::Good(Message::default());
    read_frame(area, channel_words(area.len()), &mut frame);
    frame
}

/// Whether a channel is free, as `read_channel_area` reports it.
pub fn is_channel_free(area: &[u8]) -> Result<bool, ChannelAreaError>
    ensures ok { is_channel_size (length area.now) ≡ true
        → result ≡ Ok (is_none (channel_waiting area.now)) }
    ensures wrong_size { is_channel_size (length area.now) ≡ false
        → result ≡ Err ChannelAreaError.WrongSize }
{
    check_room(area, 0)?;
    Ok(is_marked_free(area))
}

/// Writes the callee's answer over the message, and marks the channel free, as `write_answer` does
/// in an area of the most words. `WrongSize` if the number of bytes is not a channel's, `TooLong`
/// if a response has more words than the area, and then nothing is written.
pub fn write_channel_answer(area: &mut [u8], answer: &Answer) -> Result<(), ChannelAreaError>
    ensures size { result ≡ room_for (answer_words answer.now) area.old }
    ensures written { OnOk result (area.new ≡ area_after_answer answer.now area.old) }
    ensures stands { OnOk result (StandsForAnswerWithin (capacity area.old) area.new
        (channel_frame area.old) answer.now) }
    ensures rest { OnOk result
        ((i : ℕ) → IsUntouched answer.now i → slice_index area.new i ≡ slice_index area.old i) }
    ensures err { OnErr result (area.new ≡ area.old) }
{
    check_room(area, words_of(answer))?;
    put_answer(area, answer);
    Ok(())
}

/// Marks the channel free with the error bit, as `write_channel_answer` writes a channel error. It
/// needs no `Answer`, which has room for a reply. `WrongSize` if the number of bytes is not a
/// channel's, and then nothing is written.
pub fn write_channel_error(area: &mut [u8]) -> Result<(), ChannelAreaError>
    ensures size { result ≡ room_for 0 area.old }
    ensures written { OnOk result (area.new ≡ area_after_answer ChannelError area.old) }
    ensures stands { OnOk result (StandsForAnswerWithin (capacity area.old) area.new
        (channel_frame area.old) ChannelError) }
    ensures rest { OnOk result ((i : ℕ) → IsUntouched ChannelError i
        → slice_index area.new i ≡ slice_index area.old i) }
    ensures err { OnErr result (area.new ≡ area.old) }
{
    check_room(area, 0)?;
    put_error(area);
    Ok(())
}

/// Writes a response, as `write_channel_answer` writes a reply, from a message by reference.
pub fn write_channel_reply(area: &mut [u8], reply: &Message) -> Result<(), ChannelAreaError>
    ensures size { result ≡ room_for (length reply.now.payload.items) area.old }
    ensures written { OnOk result (area.new ≡ area_after_answer (Reply reply.now) area.old) }
    ensures stands { OnOk result (StandsForAnswerWithin (capacity area.old) area.new
        (channel_frame area.old) (Reply reply.now)) }
    ensures rest { OnOk result ((i : ℕ) → IsUntouched (Reply reply.now) i
        → slice_index area.new i ≡ slice_index area.old i) }
    ensures err { OnErr result (area.new ≡ area.old) }
{
    check_room(area, reply.payload.len())?;
    put_message(area, reply, ChannelStatus::FREE.bits());
    Ok(())
}

/// Writes a response to the message that is in an area, as `write_channel_answer` writes one of
/// that message's header: the header word stays as it is.
pub fn write_channel_response(area: &mut [u8], payload: &Payload) -> Result<(), ChannelAreaError>
    ensures size { result ≡ room_for (length payload.now.items) area.old }
    ensures written { OnOk result (area.new
        ≡ area_after_answer (Reply (message_of (header_at area.old) payload.now.items)) area.old) }
    ensures stands { OnOk result (StandsForAnswerWithin (capacity area.old) area.new
        (channel_frame area.old) (Reply (message_of (header_at area.old) payload.now.items))) }
    ensures rest { OnOk result
        ((i : ℕ) → IsUntouched (Reply (message_of (header_at area.old) payload.now.items)) i
        → slice_index area.new i ≡ slice_index area.old i) }
    ensures err { OnErr result (area.new ≡ area.old) }
{
    let words = payload.as_slice();
    check_room(area, words.len())?;
    put_response(area, words);
    Ok(())
}

/// Writes a message as a caller posts it, as `write_message` does in an area of the most words.
/// `WrongSize` if the number of bytes is not a channel's, `TooLong` if the message has more words
/// than the area, and then nothing is written.
pub fn write_channel_message(area: &mut [u8], message: &Message) -> Result<(), ChannelAreaError>
    ensures size { result ≡ room_for (length message.now.payload.items) area.old }
    ensures written { OnOk result (area.new ≡ area_after_post message.now area.old) }
    ensures arrived { OnOk result
        (waiting_within (capacity area.old) area.new ≡ Some (Good message.now)) }
    ensures rest { OnOk result
        ((i : ℕ) → IsOutside message.now i → slice_index area.new i ≡ slice_index area.old i) }
    ensures err { OnErr result (area.new ≡ area.old) }
{
    check_room(area, message.payload.len())?;
    put_message(area, message, 0);
    Ok(())
}

/// Refuses bytes that are no channel's area for their number, and an area that has fewer words.
fn check_room(area: &[u8], words: usize) -> Result<(), ChannelAreaError>
    ensures { result ≡ room_for words area.now }
{
    if !is_channel_size(area.len()) {
        Err(ChannelAreaError::WrongSize)
    } else if words > channel_words(area.len()) {
        Err(ChannelAreaError::TooLong)
    } else {
        Ok(())
    }
}

/// How many payload words an answer writes.
fn words_of(answer: &Answer) -> usize
    ensures { result ≡ answer_words answer.now }
{
    match answer {
        Answer::Reply(message) => message.payload.len(),
        Answer::Released | Answer::ChannelError => 0,
    }
}
