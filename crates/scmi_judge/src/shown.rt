//! What the answer of an entry shows.
ghost use Rattle.std.specs.Prelude.{◌≡◌};
ghost use Rattle.scmi_judge.specs.Shown.{fault_in_words, fault_shown, has_succeeded, set_shown, sets_value, value_shown};

use scmi_codec::{
    Answer, ClockCommand, Command, Fault, Message, PowerCommand, Status, is_success, rate_of,
};

/// Whether an answer is a reply that begins with SUCCESS.
pub fn has_succeeded(answer: &Answer) -> bool
    ensures { result ≡ has_succeeded answer.now }
{
    match answer {
        Answer::Reply(message) => is_success(&message.payload),
        Answer::Released | Answer::ChannelError => false,
    }
}

/// The fault of the hardware that an answer shows; `None` if it is no reply with the status of one
/// alone.
pub(crate) fn fault_shown(answer: &Answer) -> Option<Fault>
    ensures { result ≡ fault_shown answer.now }
{
    match answer {
        Answer::Reply(message) => fault_in_words(message.payload.as_slice()),
        Answer::Released | Answer::ChannelError => None,
    }
}

/// The fault that the payload of a reply shows.
fn fault_in_words(words: &[u32]) -> Option<Fault>
    ensures { result ≡ fault_in_words words.now }
{
    match words {
        [word] => Fault::of_status(Status::of_word(*word)?),
        _ => None,
    }
}

/// The set of the value that a reply of success shows: the command itself if it is a set, or else
/// one of the value that it read.
pub(crate) fn set_shown(command: &Message, reply: &Message) -> Option<Message>
    ensures { result ≡ set_shown command.now reply.now }
{
    let read = Command::read(command);
    if sets_value(&read) {
        return Some(command.copy());
    }
    let set = value_shown(&read, reply.payload.as_slice())?;
    Some(set.pack(0))
}

/// Whether a command sets the state of a domain, or the rate or the configuration of a clock.
pub fn sets_value(command: &Result<Command, Status>) -> bool
    ensures { result ≡ sets_value command.now }
{
    match command {
        Ok(Command::Power(PowerCommand::Set { .. })) => true,
        Ok(Command::Clock(ClockCommand::SetRate { .. })) => true,
        Ok(Command::Clock(ClockCommand::Config { .. })) => true,
        _ => false,
    }
}

/// The set of the value that a command read, by the words of the reply.
fn value_shown(read: &Result<Command, Status>, words: &[u32]) -> Option<Command>
    ensures { result ≡ value_shown read.now words.now }
{
    match (read, words) {
        (Ok(Command::Power(PowerCommand::Get { domain })), [_, state]) => {
            Some(Command::Power(PowerCommand::Set {
                flags: 0,
                domain: *domain,
                state: *state,
            }))
        }
        (Ok(Command::Clock(ClockCommand::GetRate { clock })), [_, low, high]) => {
            Some(Command::Clock(ClockCommand::SetRate {
                flags: 0,
                clock: *clock,
                rate: rate_of(*low, *high),
            }))
        }
        _ => None,
    }
}
