//! The power domain or clock that an entry is about.
use crate::judged::Judged;
use scmi_codec::{
    Answer, Command, DELAYED_RESPONSE, Frame, Message, NOTIFICATION, POWER_PROTOCOL, Part,
    listed_row,
};
use scmi_judge::{Entry, Verdict, has_succeeded, sets_value};
use scmi_plan::{Effect, Report, Resource};

/// The message id of the notification POWER_STATE_CHANGED, which no table has.
const POWER_STATE_CHANGED: u8 = 0x0;

/// The subject of an entry: the power domain or clock that its command or its message names. `None`
/// if it names none.
pub(crate) fn subject_of(entry: &Entry) -> Option<Resource> {
    if let Entry::Delivered { message, .. } = entry {
        return message_subject(message);
    }
    let (command, _) = answered(entry)?;
    if Command::read(command).is_err() {
        return None;
    }
    let header = &command.header;
    let row = listed_row(header.protocol(), u32::from(header.id()))?;
    named_in(row.asks, command.payload.as_slice())
}

/// The command of an entry, if it is well formed, with its answer.
pub(crate) fn answered(entry: &Entry) -> Option<(&Message, &Answer)> {
    match entry {
        Entry::Answered {
            frame: Frame::Good(command),
            answer,
            ..
        }
        | Entry::Replied {
            frame: Frame::Good(command),
            answer,
            ..
        } => Some((command, answer)),
        _ => None,
    }
}

/// The power domain or clock that has another value by an entry: that of a set which was answered by
/// SUCCESS, or the one of which the hardware told.
pub(crate) fn changed_by(one: &Judged) -> Option<Resource> {
    match (&one.entry, &one.verdict) {
        (Entry::Told { report }, Verdict::Same) => told_subject(*report),
        (entry, _) if is_set(entry) => subject_of(entry),
        _ => None,
    }
}

/// Whether an entry is a set that was answered by SUCCESS.
fn is_set(entry: &Entry) -> bool {
    match answered(entry) {
        Some((command, answer)) => sets_value(&Command::read(command)) && has_succeeded(answer),
        None => false,
    }
}

/// The domain or clock that has another value by what the hardware told.
fn told_subject(report: Report) -> Option<Resource> {
    match report {
        Report::Changed(Effect::State { domain, .. }) => Some(Resource::Domain(domain)),
        Report::Changed(Effect::Rate { clock, .. } | Effect::Enabled { clock, .. }) => {
            Some(Resource::Clock(clock))
        }
        Report::Settled { clock, .. } => Some(Resource::Clock(clock)),
        Report::First(_) => None,
    }
}

/// What a message of the platform names, in the words behind its first: in a delayed response that
/// is its status, in a notification the agent that caused it.
fn message_subject(message: &Message) -> Option<Resource> {
    let [_, words @ ..] = message.payload.as_slice() else {
        return None;
    };
    let header = &message.header;
    let (kind, protocol, id) = (header.kind(), header.protocol(), header.id());
    if kind == NOTIFICATION && protocol == POWER_PROTOCOL && id == POWER_STATE_CHANGED {
        return named_in(&[Part::Domain], words);
    }
    if kind != DELAYED_RESPONSE {
        return None;
    }
    named_in(listed_row(protocol, u32::from(id))?.later, words)
}

/// The first domain or clock among parts, by the word in its place: the parts before it are a word
/// each.
fn named_in(parts: &[Part], words: &[u32]) -> Option<Resource> {
    for (part, word) in parts.iter().zip(words.iter()) {
        match part {
            Part::Domain => return Some(Resource::Domain(*word)),
            Part::Clock => return Some(Resource::Clock(*word)),
            _ => {}
        }
    }
    None
}
