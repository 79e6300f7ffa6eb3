//! What the platform sends to an agent of its own accord.
ghost use Rattle.std.specs.Prelude.{◌≡◌};
ghost use Rattle.scmi_codec.specs.Area.{area_after_answer};
ghost use Rattle.scmi_codec.specs.declared.frame.Answer.TheVariants.{Released};
ghost use Rattle.scmi_agent.specs.Notice.{notice_in, notice_of, delayed_of, state_set_of, rate_set_of, change_of};

use crate::answer::message_in;
use crate::error::ReadError;
use scmi_codec::{
    AREA_BYTES, Answer, CLOCK_PROTOCOL, Header, Message, POWER_PROTOCOL, Status, rate_of,
    read_area, write_answer,
};

/// A message of the platform: a delayed response to the asynchronous set of this token, or a
/// notification. Rates are in Hz.
#[derive(Clone, Copy, PartialEq, Eq, Debug)]
pub enum Notice {
    /// A set of a domain's state completed.
    StateSet { token: u16, domain: u32, state: u32 },
    /// A set of a domain's state failed.
    StateSetRefused { token: u16, status: Status },
    /// A set of a clock's rate completed.
    RateSet { token: u16, clock: u32, rate: u64 },
    /// A set of a clock's rate failed.
    RateSetRefused { token: u16, status: Status },
    /// A domain has another state, because of this agent.
    StateChanged { agent: u32, domain: u32, state: u32 },
}

/// Reads the message that the platform has posted in an agent's P2A channel; it stays there.
/// `Nothing` if the channel is free, `Malformed` for a length that is not well formed, `Foreign` if
/// it is neither a delayed response nor a notification of the profile, `WrongWords` if it has
/// another number of words, and `UnknownStatus` if a delayed response begins with no status.
pub fn read_notice(area: &[u8; AREA_BYTES]) -> Result<Notice, ReadError>
    ensures { result ≡ notice_in area.now }
{
    match read_area(area) {
        Ok(Some(frame)) => notice_of(&message_in(frame)?),
        _ => Err(ReadError::Nothing),
    }
}

/// Marks an agent's P2A channel free, once its message was read: no other byte changes.
pub fn release(area: &mut [u8; AREA_BYTES])
    ensures { area.new ≡ area_after_answer Released area.old }
{
    let _ = write_answer(area, &Answer::Released);
}

/// What a message decodes to as a delayed response, type 2, or as a notification, type 3.
fn notice_of(message: &Message) -> Result<Notice, ReadError>
    ensures { result ≡ notice_of message.now }
{
    let words = message.payload.as_slice();
    match message.header.kind() {
        2 => delayed_of(&message.header, words),
        3 => change_of(&message.header, words),
        _ => Err(ReadError::Foreign),
    }
}

/// What payload words decode to as the delayed response of this header.
fn delayed_of(header: &Header, words: &[u32]) -> Result<Notice, ReadError>
    ensures { result ≡ delayed_of header.now words.now }
{
    match (header.protocol(), header.id()) {
        (POWER_PROTOCOL, 0x4) => state_set_of(header.token(), words),
        (CLOCK_PROTOCOL, 0x5) => rate_set_of(header.token(), words),
        _ => Err(ReadError::Foreign),
    }
}

/// What payload words decode to as the delayed response to the state set of this token.
#[tactic(auto, unfolding(scmi_codec::specs::Listing::rows_of))]
fn state_set_of(token: u16, words: &[u32]) -> Result<Notice, ReadError>
    ensures { result ≡ state_set_of token words.now }
{
    let [word, words @ ..] = words else {
        return Err(ReadError::WrongWords);
    };
    let Some(status) = Status::of_word(*word) else {
        return Err(ReadError::UnknownStatus);
    };
    match (status, words) {
        (Status::Success, [domain, state]) => Ok(Notice::StateSet {
            token,
            domain: *domain,
            state: *state,
        }),
        (Status::Success, _) => Err(ReadError::WrongWords),
        (status, []) => Ok(Notice::StateSetRefused { token, status }),
        _ => Err(ReadError::WrongWords),
    }
}

/// What payload words decode to as the delayed response to the rate set of this token.
#[tactic(auto, unfolding(scmi_codec::specs::Listing::rows_of))]
fn rate_set_of(token: u16, words: &[u32]) -> Result<Notice, ReadError>
    ensures { result ≡ rate_set_of token words.now }
{
    let [word, words @ ..] = words else {
        return Err(ReadError::WrongWords);
    };
    let Some(status) = Status::of_word(*word) else {
        return Err(ReadError::UnknownStatus);
    };
    match (status, words) {
        (Status::Success, [clock, low, high]) => Ok(Notice::RateSet {
            token,
            clock: *clock,
            rate: rate_of(*low, *high),
        }),
        (Status::Success, _) => Err(ReadError::WrongWords),
        (status, []) => Ok(Notice::RateSetRefused { token, status }),
        _ => Err(ReadError::WrongWords),
    }
}

/// What payload words decode to as the notification of this header.
fn change_of(header: &Header, words: &[u32]) -> Result<Notice, ReadError>
    ensures { result ≡ change_of header.now words.now }
{
    if header.protocol() != POWER_PROTOCOL || header.id() != 0x0 {
        return Err(ReadError::Foreign);
    }
    match words {
        [agent, domain, state] => Ok(Notice::StateChanged {
            agent: *agent,
            domain: *domain,
            state: *state,
        }),
        _ => Err(ReadError::WrongWords),
    }
}
