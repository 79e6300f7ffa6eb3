//! What a step and its result determine of a mark: its lane, token, outcome and words.
ghost use Rattle.std.specs.Prelude.{◌≡◌, if◌then◌else◌};
ghost use Rattle.scmi_chart.specs.declared.mark.Outcome.TheVariants as Outcome;
ghost use Rattle.scmi_chart.specs.Signs.{detail_of, sign_of, lane, raw_token, reply_token, has_fault, outcome_of, posted_sign, sent};

use crate::mark::{Mark, Message, Outcome};
use scmi_codec::{Answer, Fault, Header, is_success};
use scmi_link::Collected;
use scmi_text::{AgentStep, Step};

/// The lifeline of an agent.
pub(crate) fn lane(agent: u32) -> u8
    ensures { result ≡ lane agent }
{
    agent.min(255) as u8
}

/// The token of a message that is posted as it is.
pub(crate) fn raw_token(step: &Step) -> Option<u16>
    ensures { result ≡ raw_token step.now }
{
    match step {
        Step::Agent {
            step: AgentStep::Raw(message),
            ..
        } => Some(message.header.token()),
        _ => None,
    }
}

/// The token of the reply that was collected.
pub(crate) fn reply_token(collected: &Collected) -> Option<u16>
    ensures { result ≡ reply_token collected.now }
{
    match collected {
        Collected::Got(Answer::Reply(message)) => Some(message.header.token()),
        _ => None,
    }
}

/// Whether a reply with the status of this fault was collected.
pub(crate) fn has_fault(fault: Fault, collected: &Collected) -> bool
    ensures { result ≡ has_fault fault collected.now }
{
    let refusal = fault.status();
    match collected {
        Collected::Got(Answer::Reply(message)) => match message.payload.as_slice() {
            [status, ..] => *status == refusal.word(),
            [] => false,
        },
        _ => false,
    }
}

/// The outcome of an answered command, which takes effect later or at once.
pub(crate) fn outcome_of(answer: &Answer, is_later: bool) -> Outcome
    ensures { result ≡ outcome_of answer.now is_later }
{
    match answer {
        Answer::Reply(message) if is_success(&message.payload) => success_of(is_later),
        _ => Outcome::Refusal,
    }
}

fn success_of(is_later: bool) -> Outcome
    ensures { result ≡ (if is_later then Outcome.Pending else Outcome.Success) }
{
    if is_later {
        Outcome::Pending
    } else {
        Outcome::Success
    }
}

/// The mark of a command that an agent posted.
pub(crate) fn command_mark(message: Message, token: Option<u16>, is_executed: bool) -> Mark
    ensures { sign_of result ≡ sent is_executed message.agent token (detail_of message) }
{
    if is_executed {
        Mark::Command { message, token }
    } else {
        Mark::Withdrawn { message, token }
    }
}

/// The mark of a message that the platform sent of its own accord.
pub(crate) fn posted_mark(message: Message, header: &Header) -> Mark
    ensures { sign_of result ≡ posted_sign message.agent header.now (detail_of message) }
{
    if header.kind() == 3 {
        Mark::Notification { message }
    } else {
        Mark::Delayed {
            message,
            token: header.token(),
        }
    }
}
