//! What replies give.
ghost use Rattle.std.specs.Prelude.{◌≡◌, ◌≢◌, ◌≤◌, length, Err};
ghost use Rattle.scmi_codec.specs.declared.payload.TheConstants.{PAYLOAD_WORDS};
ghost use Rattle.scmi_agent.specs.Reply.{reply_of, given_by};

use crate::base_reply::BaseReply;
use crate::clock_reply::ClockReply;
use crate::error::ReadError;
use crate::power_reply::PowerReply;
use scmi_codec::{BASE_PROTOCOL, CLOCK_PROTOCOL, Header, POWER_PROTOCOL, Status};

/// What a reply contains: what the command gives, with status SUCCESS, or another status alone.
#[derive(Clone, PartialEq, Eq, Debug, Drop)]
pub enum Reply {
    Base(BaseReply),
    Power(PowerReply),
    Clock(ClockReply),
    /// The command was refused.
    Refused { status: Status },
}

impl Reply {
    /// What payload words decode to as the reply to a command of this header. `WrongWords` if its
    /// reply has another number of words, and `UnknownStatus` if the first is not a status.
    pub(crate) fn read(header: &Header, words: &[u32]) -> Result<Reply, ReadError>
        requires { length words.now ≤ PAYLOAD_WORDS }
        ensures value { result ≡ reply_of header.now words.now }
        ensures never { (result ≢ Err ReadError.Foreign) × (result ≢ Err ReadError.NotPosted) }
    {
        let [word, words @ ..] = words else {
            return Err(ReadError::WrongWords);
        };
        match Status::of_word(*word) {
            None => Err(ReadError::UnknownStatus),
            Some(Status::Success) => {
                given_by(header.protocol(), header.id(), words).ok_or(ReadError::WrongWords)
            }
            Some(status) if words.is_empty() => Ok(Reply::Refused { status }),
            Some(_) => Err(ReadError::WrongWords),
        }
    }
}

/// What words after the status SUCCESS give as the reply to a message.
fn given_by(protocol: u8, id: u8, words: &[u32]) -> Option<Reply>
    requires { length words.now ≤ PAYLOAD_WORDS }
    ensures { result ≡ given_by protocol id words.now }
{
    match protocol {
        BASE_PROTOCOL => BaseReply::read(id, words).map(Reply::Base),
        POWER_PROTOCOL => PowerReply::read(id, words).map(Reply::Power),
        CLOCK_PROTOCOL => ClockReply::read(id, words).map(Reply::Clock),
        _ => None,
    }
}
