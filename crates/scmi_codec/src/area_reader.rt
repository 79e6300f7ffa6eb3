//! Reading what is in an area, whatever its size.
ghost use Rattle.std.specs.Prelude.{◌≡◌, ◌≢◌, ◌==◌, ◌/◌, ◌%◌, ◌+◌, ◌-◌, ◌*◌, ◌<◌, ◌≤◌, length};
ghost use Rattle.scmi_codec.specs.Header.{header_of};
ghost use Rattle.scmi_codec.specs.Word.{words_at};
ghost use Rattle.scmi_codec.specs.Area.{frame_within, message_of, status_at, is_well_formed_within};
ghost use Rattle.scmi_codec.specs.declared.frame.Frame.TheVariants.{Good};
ghost use Rattle.scmi_codec.specs.declared.payload.TheConstants.{PAYLOAD_WORDS};

use crate::area_layout::{HEADER_AT, LENGTH_AT, PAYLOAD_AT, STATUS_AT};
use crate::channel_status::ChannelStatus;
use crate::frame::Frame;
use crate::header::Header;
use crate::message::Message;
use crate::payload::{PAYLOAD_WORDS, Payload, resize};
use crate::word::read_word;
use arrayvec::ArrayVec;
use bitflags::Flags;

/// Whether a length in bytes, of header and payload, is 4 + 4k with k from 0 to `words` (own).
pub(crate) fn is_well_formed_within(length: u32, words: usize) -> bool
    requires few { words ≤ PAYLOAD_WORDS }
    ensures { result ≡ is_well_formed_within words length }
{
    payload_words(length) <= words as u32
}

/// How many payload words a length in bytes leaves, of header and payload; more than any payload
/// has, if the length is not well formed.
fn payload_words(length: u32) -> u32
    ensures whole { 4 ≤ length → length % 4 ≡ 0 → result ≡ (length - 4) / 4 }
    ensures broken { length % 4 ≢ 0 → PAYLOAD_WORDS < result }
    ensures less { length < 4 → PAYLOAD_WORDS < result }
{
    let bytes = length.wrapping_sub(4);
    // A rotation by two bits: what is no whole word comes to the top.
    bytes / 4 + bytes % 4 * 0x4000_0000
}

/// The channel status word of an area.
pub fn status_at(area: &[u8]) -> u32
    requires room { 8 ≤ length area.now }
    ensures { result ≡ status_at area.now }
{
    read_word(area, STATUS_AT)
}

/// Whether the status word marks the channel free: bit 0 alone decides (own).
pub(crate) fn is_marked_free(area: &[u8]) -> bool
    requires room { 8 ≤ length area.now }
    ensures { result ≡ (status_at area.now % 2 == 1) }
{
    let status = ChannelStatus::from_bits_retain(status_at(area));
    status.contains(ChannelStatus::FREE)
}

/// Reads the frame that is in an area of this many payload words, whatever its status word, into
/// `frame`.
#[inline(always)]
pub(crate) fn read_frame(area: &[u8], words: usize, frame: &mut Frame)
    requires few { words ≤ PAYLOAD_WORDS }
    requires room { 0x1C + 4 * words ≤ length area.now }
    ensures { frame.new ≡ frame_within words area.now }
{
    let length = read_word(area, LENGTH_AT);
    let count = payload_words(length) as usize;
    if let Frame::Good(message) = frame {
        // Most commands have few words, and as many as the one before.
        if count <= 4 && is_well_formed_within(length, words) && message.payload.len() == count {
            message.header = Header::unpack(read_word(area, HEADER_AT));
            read_few(area, message.payload.as_mut_slice());
            return;
        }
    }
    read_any(area, words, frame);
}

/// As `read_frame`, whatever the number of words. It is one call, so that what it needs is not among
/// the locals of its callers.
#[inline(never)]
fn read_any(area: &[u8], words: usize, frame: &mut Frame)
    requires few { words ≤ PAYLOAD_WORDS }
    requires room { 0x1C + 4 * words ≤ length area.now }
    ensures { frame.new ≡ frame_within words area.now }
{
    let length = read_word(area, LENGTH_AT);
    let header = read_word(area, HEADER_AT);
    if !is_well_formed_within(length, words) {
        frame.set_malformed(length, header);
        return;
    }
    let count = payload_words(length) as usize;
    if let Frame::Malformed { .. } = frame {
        frame.set_empty();
    }
    if let Frame::Good(message) = frame {
        read_message(area, header, count, message);
    }
}

/// Reads a message of this header word and this many payload words of an area into `message`.
#[inline(always)]
fn read_message(area: &[u8], header: u32, count: usize, message: &mut Message)
    requires few { count ≤ PAYLOAD_WORDS }
    requires room { 0x1C + 4 * count ≤ length area.now }
    ensures header { message.new.header ≡ header_of header }
    ensures words { message.new.payload.items ≡ words_at 0x1C count area.now }
{
    message.header = Header::unpack(header);
    read_payload(area, count, &mut message.payload);
}

fn read_payload(area: &[u8], count: usize, payload: &mut Payload)
    requires few { count ≤ PAYLOAD_WORDS }
    requires room { 0x1C + 4 * count ≤ length area.now }
    ensures { payload.new.items ≡ words_at 0x1C count area.now }
{
    resize(payload, count);
    read_words(area, payload.as_mut_slice());
}

/// Reads the first payload words of an area over as many others.
fn read_words(area: &[u8], words: &mut [u32])
    requires room { 0x1C + 4 * length words.old ≤ length area.now }
    ensures { words.new ≡ words_at 0x1C (length words.old) area.now }
{
    if words.len() <= 4 {
        read_few(area, words);
    } else {
        read_many(area, words);
    }
}

/// Reads the first payload words of an area over as many others, at most four, as many as commands
/// have. They take no loop, and no table of jumps.
#[inline(never)]
fn read_few(area: &[u8], words: &mut [u32])
    requires few { length words.old ≤ 4 }
    requires room { 0x1C + 4 * length words.old ≤ length area.now }
    ensures { words.new ≡ words_at 0x1C (length words.old) area.now }
{
    let count = words.len();
    if count == 0 {
        return;
    }
    words[0] = read_word(area, PAYLOAD_AT);
    if count == 1 {
        return;
    }
    words[1] = read_word(area, PAYLOAD_AT + 4);
    if count == 2 {
        return;
    }
    words[2] = read_word(area, PAYLOAD_AT + 8);
    if count == 3 {
        return;
    }
    words[3] = read_word(area, PAYLOAD_AT + 12);
}

/// Reads the first payload words of an area over as many others.
#[inline(never)]
fn read_many(area: &[u8], words: &mut [u32])
    requires room { 0x1C + 4 * length words.old ≤ length area.now }
    ensures { words.new ≡ words_at 0x1C (length words.old) area.now }
{
    for i in 0..words.len() {
        words[i] = read_word(area, PAYLOAD_AT + 4 * i);
    }
}
