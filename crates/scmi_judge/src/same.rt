//! Whether what a record shows is what was due.
ghost use Rattle.std.specs.Prelude.{◌≡◌, ◌↔◌, true};
ghost use Rattle.std.specs.Option.{option_eq};
ghost use Rattle.scmi_judge.specs.Same.{is_same_answer, is_same_frame, is_same_message, is_same_outstanding};

use crate::outstanding::{OUTSTANDING, Outstanding};
use scmi_codec::{Answer, Frame, Message};

/// Whether two answers are the same: each a reply of the same message, or the same without one.
#[tactic(auto, using(crate::proofs::Alike::same_answer_decides))]
pub(crate) fn is_same_answer(a: &Answer, b: &Answer) -> bool
    ensures value { result ≡ is_same_answer a.now b.now }
    ensures same { (result ≡ true) ↔ (a.now ≡ b.now) }
{
    match (a, b) {
        (Answer::Reply(x), Answer::Reply(y)) => is_same_message(x, y),
        (Answer::Released, Answer::Released) | (Answer::ChannelError, Answer::ChannelError) => true,
        _ => false,
    }
}

/// Whether two messages are the same: in each field of the header, and in each payload word.
#[tactic(auto, using(crate::proofs::Alike::same_message_decides))]
pub(crate) fn is_same_message(a: &Message, b: &Message) -> bool
    ensures value { result ≡ is_same_message a.now b.now }
    ensures same { (result ≡ true) ↔ (a.now ≡ b.now) }
{
    a.header == b.header && a.payload.as_slice() == b.payload.as_slice()
}

/// Whether two frames are the same: the same message, or the same length and header.
#[tactic(auto, using(crate::proofs::Alike::same_frame_decides))]
pub(crate) fn is_same_frame(a: &Frame, b: &Frame) -> bool
    ensures value { result ≡ is_same_frame a.now b.now }
    ensures same { (result ≡ true) ↔ (a.now ≡ b.now) }
{
    match (a, b) {
        (Frame::Good(x), Frame::Good(y)) => is_same_message(x, y),
        (
            Frame::Malformed { length, header },
            Frame::Malformed {
                length: other_length,
                header: other_header,
            },
        ) => length == other_length && header == other_header,
        _ => false,
    }
}

/// Whether the same commands are outstanding at the same places, with the same answers.
pub(crate) fn are_same_commands(
    a: &[Option<Outstanding>; OUTSTANDING],
    b: &[Option<Outstanding>; OUTSTANDING],
) -> bool
    ensures { (result ≡ true) ↔ (a.now ≡ b.now) }
{
    'places: for place in 0..OUTSTANDING {
        if !is_same_place(&a[place], &b[place]) {
            return false;
        }
    }
    true
}

/// Whether the same command is at a place, or none.
#[tactic(auto, using(crate::proofs::Alike::same_place_decides))]
fn is_same_place(a: &Option<Outstanding>, b: &Option<Outstanding>) -> bool
    ensures value { result ≡ option_eq is_same_outstanding a.now b.now }
    ensures same { (result ≡ true) ↔ (a.now ≡ b.now) }
{
    match (a, b) {
        (Some(x), Some(y)) => is_same_command(x, y),
        (None, None) => true,
        _ => false,
    }
}

/// Whether two commands are the same, with the same answer, if they were executed.
fn is_same_command(a: &Outstanding, b: &Outstanding) -> bool
    ensures { result ≡ is_same_outstanding a.now b.now }
{
    a.agent == b.agent && is_same_frame(&a.frame, &b.frame) && is_same_given(&a.answer, &b.answer)
}

fn is_same_given(a: &Option<Answer>, b: &Option<Answer>) -> bool
    ensures { result ≡ option_eq is_same_answer a.now b.now }
{
    match (a, b) {
        (Some(x), Some(y)) => is_same_answer(x, y),
        (None, None) => true,
        _ => false,
    }
}
