//! Frames and answers, stored and loaded word by word.
ghost use Rattle.std.specs.Prelude.{◌≡◌, ◌≢◌, ℕ, ◌+◌, ◌≤◌, [], length, false, None, Some};
ghost use Rattle.std.specs.List.{last_or};
ghost use Rattle.scmi_codec.specs.declared.frame.Frame.{Frame};
ghost use Rattle.scmi_codec.specs.declared.frame.Frame.TheVariants.{Good};
ghost use Rattle.scmi_codec.specs.declared.frame.Answer.{Answer};
ghost use Rattle.scmi_codec.specs.declared.frame.Answer.TheVariants.{Reply, Released, ChannelError};
ghost use Rattle.scmi_codec.specs.declared.message.Message.{Message};
ghost use Rattle.scmi_codec.specs.Header.{header_word};
ghost use Rattle.scmi_codec.specs.declared.payload.TheConstants.{PAYLOAD_WORDS};
ghost use Rattle.scmi_words.specs.declared.phase.Phase.TheVariants.{Idle};
ghost use Rattle.scmi_words.specs.Area.{frame_words, IsValid, IsValidAnswer, IsValidMessage, answer_steps, frame_size};
ghost use Rattle.scmi_words.specs.StatusWord.{status_word, answer_mark};
ghost use Rattle.scmi_words.specs.View.{HasCaller, HasCallee, CallerBecomes, CalleeBecomes, caller_of, callee_of};
ghost use Rattle.scmi_words.specs.SharedTable.{IsSeatAt};
ghost use Rattle.scmi_words.specs.Frames.{HasResponse, HasMessage};
ghost use Rattle.scmi_words.specs.CallerSteps.{caller_drafted, caller_after};
ghost use Rattle.scmi_words.specs.CalleeSteps.{callee_drafted, callee_after, IsOwing};

use crate::callee_steps::{load_frame_word, store_answer_word};
use crate::caller_steps::{load_answer_word, store_frame_word};
use crate::layout::{HEADER, LENGTH, PAYLOAD};
use crate::shared_table::{SharedTable, TableSeat};
use crate::status_word::{CHANNEL_ERROR, FREE};
use scmi_codec::{
    Answer, Frame, Header, Message, PAYLOAD_WORDS, Payload, is_well_formed, set_payload,
};

/// Stores a caller's message.
pub fn write_command(table: &SharedTable, seat: &mut TableSeat, header: Header, payload: &Payload)
    requires table { IsSeatAt table.now seat.old }
    requires half { HasCaller seat.old × ((caller_of seat.old).state.phase ≡ Idle) ×
        ((caller_of seat.old).state.draft ≡ []) }
    ensures view { CallerBecomes seat.old
        (caller_drafted (caller_of seat.old)
        (frame_words (Good (record { header = header; payload = payload.now })))
        (2 + length payload.now.items)) seat.new }
    ensures valid { IsValidMessage (record { header = header; payload = payload.now }) }
{
    let words = payload.as_slice();
    store_frame_word(table, seat, LENGTH, 4 + 4 * words.len() as u32);
    store_frame_word(table, seat, HEADER, header.pack());
    for (i, word) in words.iter().enumerate() {
        store_frame_word(table, seat, PAYLOAD + i, *word);
    }
}

/// Loads the answer that the caller collected, which left the status `free`, into `answer`.
pub fn read_answer(table: &SharedTable, seat: &mut TableSeat, free: u64, answer: &mut Answer)
    ghost given: { Answer }
    requires table { IsSeatAt table.now seat.old }
    requires half { HasCaller seat.old × ((caller_of seat.old).state.phase ≡ Idle) ×
        ((caller_of seat.old).state.draft ≡ []) }
    requires answer { (last_or None (caller_of seat.old).state.read ≡ Some given) ×
        IsValidAnswer given }
    requires free { free ≡ status_word (answer_mark given) false }
    ensures value { answer.new ≡ given }
    ensures view { (n : ℕ) × (n + 1 ≡ answer_steps given) ×
        CallerBecomes seat.old (caller_after (caller_of seat.old) n) seat.new }
{
    if free == FREE {
        read_reply(table, seat, answer);
    } else {
        set_no_reply(answer, free);
    }
}

/// Makes an answer one that is no message, which left the status `free`. What it is made of is not
/// a local of `read_answer`, nor is the choice one of its steps.
#[inline(never)]
fn set_no_reply(answer: &mut Answer, free: u64)
    ensures error { free ≡ CHANNEL_ERROR → answer.new ≡ ChannelError }
    ensures released { free ≢ CHANNEL_ERROR → answer.new ≡ Released }
{
    *answer = if free == CHANNEL_ERROR {
        Answer::ChannelError
    } else {
        Answer::Released
    };
}

/// Loads the response that the caller collected, into `answer`. If that is a reply of as many
/// words, they are written over; no call has to return to it, so it saves no registers.
fn read_reply(table: &SharedTable, seat: &mut TableSeat, answer: &mut Answer)
    ghost given: { Message }
    requires { HasResponse table.now seat.old given }
    ensures value { answer.new ≡ Reply given }
    ensures view { CallerBecomes seat.old
        (caller_after (caller_of seat.old) (2 + length given.payload.items)) seat.new }
{
    let length = load_answer_word(table, seat, LENGTH);
    let header = load_answer_word(table, seat, HEADER);
    let count = (length / 4 - 1) as usize;
    if let Answer::Reply(message) = answer {
        if message.payload.len() == count {
            return read_response(table, seat, header, count, message);
        }
    }
    read_other_response(table, seat, header, count, answer);
}

/// Loads the payload of the response that the caller collected, into any other answer.
#[inline(never)]
fn read_other_response(
    table: &SharedTable,
    seat: &mut TableSeat,
    header: u32,
    count: usize,
    answer: &mut Answer,
)
    ghost given: { Message }
    requires given { HasResponse table.now seat.old given }
    requires header { header ≡ header_word given.header }
    requires count { count ≡ length given.payload.items }
    ensures value { answer.new ≡ Reply given }
    ensures view { CallerBecomes seat.old (caller_after (caller_of seat.old) count) seat.new }
{
    match answer {
        Answer::Reply(message) => read_resized_response(table, seat, header, count, message),
        _ => read_new_response(table, seat, header, count, answer),
    }
}

/// Loads the payload of the response that the caller collected, into a message of any other
/// length.
fn read_resized_response(
    table: &SharedTable,
    seat: &mut TableSeat,
    header: u32,
    count: usize,
    message: &mut Message,
)
    ghost given: { Message }
    requires given { HasResponse table.now seat.old given }
    requires header { header ≡ header_word given.header }
    requires count { count ≡ length given.payload.items }
    ensures value { message.new ≡ given }
    ensures view { CallerBecomes seat.old (caller_after (caller_of seat.old) count) seat.new }
{
    set_length(&mut message.payload, count);
    read_response(table, seat, header, count, message);
}

/// Loads the payload of the response that the caller collected, into a new message of this header
/// word. A function clears its locals at its entry, so the message is not one of the callers.
#[inline(never)]
fn read_new_response(
    table: &SharedTable,
    seat: &mut TableSeat,
    header: u32,
    count: usize,
    answer: &mut Answer,
)
    ghost given: { Message }
    requires given { HasResponse table.now seat.old given }
    requires header { header ≡ header_word given.header }
    requires count { count ≡ length given.payload.items }
    ensures value { answer.new ≡ Reply given }
    ensures view { CallerBecomes seat.old (caller_after (caller_of seat.old) count) seat.new }
{
    let mut message = Message::default();
    read_resized_response(table, seat, header, count, &mut message);
    *answer = Answer::Reply(message);
}

/// Loads the payload of the response that the caller collected, into a message of this header word,
/// over as many words.
fn read_response(
    table: &SharedTable,
    seat: &mut TableSeat,
    header: u32,
    count: usize,
    message: &mut Message,
)
    ghost given: { Message }
    requires given { HasResponse table.now seat.old given }
    requires header { header ≡ header_word given.header }
    requires count { count ≡ length given.payload.items }
    requires long { length message.old.payload.items ≡ count }
    ensures value { message.new ≡ given }
    ensures view { CallerBecomes seat.old (caller_after (caller_of seat.old) count) seat.new }
{
    message.header = Header::unpack(header);
    for i in 0..count {
        message.payload[i] = load_answer_word(table, seat, PAYLOAD + i);
    }
}

/// Loads the frame that the callee took, into `frame`.
pub fn read_frame(table: &SharedTable, seat: &mut TableSeat, frame: &mut Frame)
    ghost posted: { Frame }
    requires table { IsSeatAt table.now seat.old }
    requires half { HasCallee seat.old × IsOwing (callee_of seat.old) ×
        ((callee_of seat.old).state.draft ≡ []) }
    requires area { last_or None (callee_of seat.old).state.taken ≡ Some posted }
    requires valid { IsValid posted }
    ensures value { frame.new ≡ posted }
    ensures view { CalleeBecomes seat.old
        (callee_after (callee_of seat.old) (2 + frame_size posted)) seat.new }
{
    let length = load_frame_word(table, seat, LENGTH);
    let header = load_frame_word(table, seat, HEADER);
    if !is_well_formed(length) {
        frame.set_malformed(length, header);
        return;
    }
    let count = (length / 4 - 1) as usize;
    if let Frame::Good(message) = frame {
        if message.payload.len() == count {
            return read_message(table, seat, header, count, message);
        }
    }
    read_other_message(table, seat, header, count, frame);
}

/// Loads the payload of the frame that the callee took, into any other frame.
#[inline(never)]
fn read_other_message(
    table: &SharedTable,
    seat: &mut TableSeat,
    header: u32,
    count: usize,
    frame: &mut Frame,
)
    ghost posted: { Message }
    requires posted { HasMessage table.now seat.old posted }
    requires header { header ≡ header_word posted.header }
    requires count { count ≡ length posted.payload.items }
    ensures value { frame.new ≡ Good posted }
    ensures view { CalleeBecomes seat.old (callee_after (callee_of seat.old) count) seat.new }
{
    match frame {
        Frame::Good(message) => read_resized_message(table, seat, header, count, message),
        _ => read_new_message(table, seat, header, count, frame),
    }
}

/// Loads the payload of the frame that the callee took, into a message of any other
/// length.
fn read_resized_message(
    table: &SharedTable,
    seat: &mut TableSeat,
    header: u32,
    count: usize,
    message: &mut Message,
)
    ghost posted: { Message }
    requires posted { HasMessage table.now seat.old posted }
    requires header { header ≡ header_word posted.header }
    requires count { count ≡ length posted.payload.items }
    ensures value { message.new ≡ posted }
    ensures view { CalleeBecomes seat.old (callee_after (callee_of seat.old) count) seat.new }
{
    set_length(&mut message.payload, count);
    read_message(table, seat, header, count, message);
}

/// Loads the payload of the frame that the callee took, into a new message of this header word,
/// which is not a local of the callers.
#[inline(never)]
fn read_new_message(
    table: &SharedTable,
    seat: &mut TableSeat,
    header: u32,
    count: usize,
    frame: &mut Frame,
)
    ghost posted: { Message }
    requires posted { HasMessage table.now seat.old posted }
    requires header { header ≡ header_word posted.header }
    requires count { count ≡ length posted.payload.items }
    ensures value { frame.new ≡ Good posted }
    ensures view { CalleeBecomes seat.old (callee_after (callee_of seat.old) count) seat.new }
{
    let mut message = Message::default();
    read_resized_message(table, seat, header, count, &mut message);
    *frame = Frame::Good(message);
}

/// Loads the payload of the frame that the callee took, into a message of this header word, over as
/// many words.
fn read_message(
    table: &SharedTable,
    seat: &mut TableSeat,
    header: u32,
    count: usize,
    message: &mut Message,
)
    ghost posted: { Message }
    requires posted { HasMessage table.now seat.old posted }
    requires header { header ≡ header_word posted.header }
    requires count { count ≡ length posted.payload.items }
    requires long { length message.old.payload.items ≡ count }
    ensures value { message.new ≡ posted }
    ensures view { CalleeBecomes seat.old (callee_after (callee_of seat.old) count) seat.new }
{
    message.header = Header::unpack(header);
    for i in 0..count {
        message.payload[i] = load_frame_word(table, seat, PAYLOAD + i);
    }
}

/// Makes a payload one of this many words, over which others are to be loaded.
fn set_length(payload: &mut Payload, count: usize)
    requires { count ≤ PAYLOAD_WORDS }
    ensures { length payload.new.items ≡ count }
{
    set_payload(payload, &[0; PAYLOAD_WORDS][..count]);
}

/// Stores a callee's response.
pub fn write_response(table: &SharedTable, seat: &mut TableSeat, message: &Message)
    requires table { IsSeatAt table.now seat.old }
    requires half { HasCallee seat.old × IsOwing (callee_of seat.old) ×
        ((callee_of seat.old).state.draft ≡ []) }
    ensures view { CalleeBecomes seat.old
        (callee_drafted (callee_of seat.old) (frame_words (Good message.now))
        (2 + length message.now.payload.items)) seat.new }
    ensures valid { IsValidMessage message.now }
{
    let words = message.payload.as_slice();
    store_answer_word(table, seat, LENGTH, 4 + 4 * words.len() as u32);
    store_answer_word(table, seat, HEADER, message.header.pack());
    for (i, word) in words.iter().enumerate() {
        store_answer_word(table, seat, PAYLOAD + i, *word);
    }
}
