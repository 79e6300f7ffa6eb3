//! Writing over what is in an area, whatever its size.
ghost use Rattle.std.specs.Prelude.{◌≡◌, ◌+◌, ◌*◌, ◌^◌, ◌<◌, ◌≤◌, ℕ, length, slice_index};
ghost use Rattle.std.specs.List.{AllByRecursion};
ghost use Rattle.scmi_codec.specs.Word.{put_word, put_words};
ghost use Rattle.scmi_codec.specs.Area.{message_of, header_at, area_after_write, area_after_answer, StandsWithin, StandsForAnswerWithin, frame_within, IsOutside, IsUntouched};
ghost use Rattle.scmi_codec.specs.ChannelArea.{answer_words};
ghost use Rattle.scmi_codec.specs.declared.frame.Frame.TheVariants.{Good};
ghost use Rattle.scmi_codec.specs.declared.frame.Answer.TheVariants.{ChannelError, Reply};
ghost use Rattle.scmi_codec.specs.declared.payload.TheConstants.{PAYLOAD_WORDS};

use crate::area_layout::{HEADER_AT, LENGTH_AT, PAYLOAD_AT, STATUS_AT};
use crate::channel_status::ChannelStatus;
use crate::frame::Answer;
use crate::message::Message;
use crate::word::{read_word, write_word};
use arrayvec::ArrayVec;
use bitflags::Flags;

/// Writes an answer over the message that is in an area.
pub(crate) fn put_answer(area: &mut [u8], answer: &Answer)
    requires room { answer_words answer.now ≤ PAYLOAD_WORDS
        → 0x1C + 4 * answer_words answer.now ≤ length area.old }
    ensures written { area.new ≡ area_after_answer answer.now area.old }
    ensures stands { (words : ℕ) → (answer_words answer.now ≤ PAYLOAD_WORDS
        → answer_words answer.now ≤ words)
        → StandsForAnswerWithin words area.new (frame_within words area.old) answer.now }
    ensures rest { (i : ℕ) → IsUntouched answer.now i →
        slice_index area.new i ≡ slice_index area.old i }
{
    match answer {
        Answer::Reply(message) => put_message(area, message, ChannelStatus::FREE.bits()),
        Answer::Released => write_word(area, STATUS_AT, ChannelStatus::FREE.bits()),
        Answer::ChannelError => put_error(area),
    }
}

/// Marks the channel of an area free with the error bit.
pub(crate) fn put_error(area: &mut [u8])
    requires room { 8 ≤ length area.old }
    ensures written { area.new ≡ area_after_answer ChannelError area.old }
    ensures stands { (words : ℕ) →
        StandsForAnswerWithin words area.new (frame_within words area.old) ChannelError }
    ensures rest { (i : ℕ) → IsUntouched ChannelError i →
        slice_index area.new i ≡ slice_index area.old i }
{
    let status = ChannelStatus::FREE.union(ChannelStatus::ERROR);
    write_word(area, STATUS_AT, status.bits());
}

/// Writes a response to the message that is in an area, whose header word stays as it is.
pub(crate) fn put_response(area: &mut [u8], words: &[u32])
    requires few { length words.now ≤ PAYLOAD_WORDS }
    requires room { 0x1C + 4 * length words.now ≤ length area.old }
    ensures written { area.new
        ≡ area_after_answer (Reply (message_of (header_at area.old) words.now)) area.old }
    ensures stands { (most : ℕ) → length words.now ≤ most
        → StandsWithin most area.new 1 (Good (message_of (header_at area.old) words.now)) }
    ensures rest { (i : ℕ) → IsOutside (message_of (header_at area.old) words.now) i →
        slice_index area.new i ≡ slice_index area.old i }
{
    // A word written back as it was read takes no access.
    let header = read_word(area, HEADER_AT);
    write_parts(area, header, words, ChannelStatus::FREE.bits());
}

/// Writes a message, and then the status word. That a payload has at most `PAYLOAD_WORDS` words
/// need not be known when this is called.
pub(crate) fn put_message(area: &mut [u8], message: &Message, status: u32)
    requires room { length message.now.payload.items ≤ PAYLOAD_WORDS
        → 0x1C + 4 * length message.now.payload.items ≤ length area.old }
    ensures written { area.new ≡ area_after_write status message.now area.old }
    ensures stands { (words : ℕ) → (length message.now.payload.items ≤ PAYLOAD_WORDS
        → length message.now.payload.items ≤ words)
        → StandsWithin words area.new status (Good message.now) }
    ensures rest { (i : ℕ) → IsOutside message.now i →
        slice_index area.new i ≡ slice_index area.old i }
{
    let words = message.payload.as_slice();
    write_parts(area, message.header.pack(), words, status);
}

/// Writes a message of this header word and these payload words, and then the status word.
fn write_parts(area: &mut [u8], header: u32, words: &[u32], status: u32)
    requires few { length words.now ≤ PAYLOAD_WORDS }
    requires room { 0x1C + 4 * length words.now ≤ length area.old }
    ensures written { area.new ≡ area_after_write status (message_of header words.now) area.old }
    ensures stands { (most : ℕ) → length words.now ≤ most
        → StandsWithin most area.new status (Good (message_of header words.now)) }
    ensures rest { (i : ℕ) → IsOutside (message_of header words.now) i →
        slice_index area.new i ≡ slice_index area.old i }
{
    write_word(area, LENGTH_AT, 4 + 4 * words.len() as u32);
    write_word(area, HEADER_AT, header);
    write_payload(area, words);
    write_word(area, STATUS_AT, status);
}

/// Writes the payload words. Most replies have one to three, which take no loop, and no table of
/// jumps.
fn write_payload(area: &mut [u8], words: &[u32])
    requires room { 0x1C + 4 * length words.now ≤ length area.old }
    ensures written { area.new ≡ put_words 0x1C words.now area.old }
    ensures words { AllByRecursion (λ w. w < 2 ^ 32) words.now }
{
    let count = words.len();
    if count == 0 || count > 3 {
        write_words(area, words);
        return;
    }
    write_word(area, PAYLOAD_AT, words[0]);
    if count == 1 {
        return;
    }
    write_word(area, PAYLOAD_AT + 4, words[1]);
    if count == 2 {
        return;
    }
    write_word(area, PAYLOAD_AT + 8, words[2]);
}

/// Writes words as the payload of an area.
#[inline(never)]
fn write_words(area: &mut [u8], words: &[u32])
    requires room { 0x1C + 4 * length words.now ≤ length area.old }
    ensures written { area.new ≡ put_words 0x1C words.now area.old }
    ensures words { AllByRecursion (λ w. w < 2 ^ 32) words.now }
{
    for (i, word) in words.iter().enumerate() {
        write_word(area, PAYLOAD_AT + 4 * i, *word);
    }
}
