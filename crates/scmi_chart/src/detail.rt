//! Messages in hexadecimal, which a reader sees who points at a mark.
ghost use Rattle.std.specs.Prelude.{◌≡◌, ◌++◌, IfOk, OnOk};
ghost use Rattle.scmi_chart.specs.Detail.{answer_detail, header_detail, malformed_detail, message_detail, step_detail, words_detail};
ghost use Rattle.scmi_chart.specs.Posted.{with_token};

use crate::posts::message_of;
use crate::value::{Value, filled_words};
use crate::words::all_words;
use scmi_codec::{Answer, Header, Message, TOKENS};
use scmi_text::{AgentStep, Step};
use std::alloc::{AllocError, Global};

/// The texts, of which each `%` is a value: a header, and behind it payload words or the length of
/// a malformed frame.
const HEADER: &str = "header %";

const WORDS: &str = ", words %";

const LENGTH: &str = ", length %";

/// The header and words of a message.
pub(crate) fn message_detail(alloc: Global, message: &Message) -> Result<Vec<u8>, AllocError>
    ensures { IfOk result (λ text. text.items ≡ message_detail message.now) }
{
    let mut text = header_detail(alloc, message.header.pack())?;
    add_words(alloc, &mut text, message.payload.as_slice())?;
    Ok(text)
}

/// Adds payload words, if there are any.
fn add_words(alloc: Global, text: &mut Vec<u8>, words: &[u32]) -> Result<(), AllocError>
    ensures { OnOk result (text.new.items ≡ text.old.items ++ words_detail words.now) }
{
    if !words.is_empty() {
        let words = all_words(alloc, words)?;
        text.extend_from_slice(&filled_words(alloc, WORDS, &[Value::Words(&words)])?)?;
    }
    Ok(())
}

/// The header and words of the message that a step posts, with its token if that is known; the
/// length and header of a frame that is malformed.
pub(crate) fn step_detail(
    alloc: Global,
    step: &Step,
    token: Option<u16>,
) -> Result<Vec<u8>, AllocError>
    ensures { IfOk result (λ text. text.items ≡ step_detail step.now token) }
{
    match step {
        Step::Agent {
            step: AgentStep::Malformed { length, header },
            ..
        } => malformed_detail(alloc, *length, *header),
        _ => match message_of(step) {
            Some(message) => message_detail(
                alloc,
                &Message {
                    header: with_token(message.header, token),
                    payload: message.payload,
                },
            ),
            None => Ok(Vec::new(alloc)),
        },
    }
}

/// The same header with this token, if it is known.
fn with_token(header: Header, token: Option<u16>) -> Header
    ensures { result ≡ with_token token header }
{
    match token {
        Some(token) => header.with_token(token % TOKENS),
        None => header,
    }
}

/// The header and the length of a malformed frame.
#[tactic(auto, unfolding(crate::specs::Detail::malformed_detail))]
fn malformed_detail(alloc: Global, length: u32, header: u32) -> Result<Vec<u8>, AllocError>
    ensures { IfOk result (λ text. text.items ≡ malformed_detail length header) }
{
    let mut text = header_detail(alloc, header)?;
    text.extend_from_slice(&filled_words(alloc, LENGTH, &[Value::Number(length)])?)?;
    Ok(text)
}

/// The header and words of an answer; nothing of one without a message.
pub(crate) fn answer_detail(alloc: Global, answer: &Answer) -> Result<Vec<u8>, AllocError>
    ensures { IfOk result (λ text. text.items ≡ answer_detail answer.now) }
{
    match answer {
        Answer::Reply(message) => message_detail(alloc, message),
        Answer::Released | Answer::ChannelError => Ok(Vec::new(alloc)),
    }
}

fn header_detail(alloc: Global, header: u32) -> Result<Vec<u8>, AllocError>
    ensures { IfOk result (λ text. text.items ≡ header_detail header) }
{
    filled_words(alloc, HEADER, &[Value::Hex(header)])
}
