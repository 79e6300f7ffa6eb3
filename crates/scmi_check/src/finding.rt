//! What is found of an entry.
ghost use Rattle.std.specs.Prelude.{◌≡◌};
ghost use Rattle.scmi_check.specs.Finding.{answer_finding, finding_of, reply_finding};

use crate::own_rule::{OwnRule, own_rule};
use scmi_codec::{Answer, Command, Frame, Message};
use scmi_judge::{Entry, Verdict};

/// What is found of an entry, by the verdict on it.
#[derive(Clone, Copy)]
pub enum Finding {
    /// The entry is what the definitions require.
    Same,
    /// The entry is another reply, by a rule that is the profile's own.
    Own(OwnRule),
    /// The entry is another.
    Differs,
}

impl Finding {
    /// What is found of an entry with this verdict.
    pub fn of(entry: &Entry, verdict: &Verdict) -> Finding
        ensures { result ≡ finding_of entry.now verdict.now }
    {
        match verdict {
            Verdict::Same => Finding::Same,
            Verdict::Answer(Answer::Reply(due)) => answer_finding(entry, due),
            _ => Finding::Differs,
        }
    }
}

/// The same if this reply was due, and another answer was seen.
fn answer_finding(entry: &Entry, due: &Message) -> Finding
    ensures { result ≡ answer_finding entry.now due.now }
{
    match entry {
        Entry::Answered {
            frame: Frame::Good(command),
            answer: Answer::Reply(seen),
            ..
        }
        | Entry::Replied {
            frame: Frame::Good(command),
            answer: Answer::Reply(seen),
            ..
        } => reply_finding(command, due, seen),
        _ => Finding::Differs,
    }
}

/// The same if another reply to a command was seen than was due.
fn reply_finding(command: &Message, due: &Message, seen: &Message) -> Finding
    ensures { result ≡ reply_finding command.now due.now seen.now }
{
    if due.header != seen.header {
        return Finding::Differs;
    }
    let read = Command::read(command);
    match own_rule(&read, due.payload.as_slice(), seen.payload.as_slice()) {
        Some(rule) => Finding::Own(rule),
        None => Finding::Differs,
    }
}
