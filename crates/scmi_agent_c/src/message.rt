//! A message that the platform posted of its own accord is read, and released.
ghost use Rattle.std.specs.Prelude.{◌≡◌, IfOk, OnErr};
ghost use Rattle.scmi_codec.specs.Area.{area_after_answer};
ghost use Rattle.scmi_codec.specs.declared.frame.Answer.TheVariants.{Released};
ghost use Rattle.scmi_agent.specs.Notice.{notice_in};
ghost use Rattle.scmi_agent_c.specs.Code.{read_code, error_code};
ghost use Rattle.scmi_agent_c.specs.Message.{message_of};

use crate::code::{
    CHANNEL_ERROR, DONE, FOREIGN, MALFORMED, NOT_POSTED, NOTHING, UNKNOWN_STATUS, WRONG_WORDS,
};
use scmi_agent::{Notice, ReadError, read_notice, release};
use scmi_codec::{AREA_BYTES, SUCCESS};

/// The delayed response to the set of a domain's state.
pub const STATE_SET: u32 = 1;

/// The delayed response to the set of a clock's rate.
pub const RATE_SET: u32 = 2;

/// The notification that a domain has another state.
pub const STATE_CHANGED: u32 = 3;

/// A message of the platform. What it does not contain is 0.
#[repr(C)]
#[derive(Drop)]
pub struct Message {
    /// The rate that was set, in Hz.
    pub rate: u64,
    /// `STATE_SET`, `RATE_SET` or `STATE_CHANGED`.
    pub kind: u32,
    /// The status of a delayed response. After another than SUCCESS it has no numbers.
    pub status: u32,
    /// The token of the command that a delayed response is to.
    pub token: u32,
    /// The agent that changed a state.
    pub agent: u32,
    /// The domain or the clock.
    pub id: u32,
    /// The state that was set, or that a domain now has.
    pub state: u32,
}

/// Reads the message that the platform posted in an agent's P2A channel; it stays there. `DONE`;
/// `NOTHING` if the channel is free, `MALFORMED`, `FOREIGN` if it is neither a delayed response nor
/// a notification of the profile, `WRONG_WORDS` and `UNKNOWN_STATUS`; then `message` is as it was.
#[unsafe(no_mangle)]
pub extern "C" fn scmi_agent_message(area: &[u8; AREA_BYTES], message: &mut Message) -> u32
    ensures code { result ≡ read_code (notice_in area.now) }
    ensures says { IfOk (notice_in area.now) (λ notice. message.new ≡ message_of notice) }
    ensures kept { OnErr (notice_in area.now) (message.new ≡ message.old) }
{
    match read_notice(area) {
        Ok(notice) => {
            *message = numbers_of(&notice);
            DONE
        }
        Err(error) => code_of(error),
    }
}

/// Marks an agent's P2A channel free, once its message was read: no other byte changes.
#[unsafe(no_mangle)]
pub extern "C" fn scmi_agent_release(area: &mut [u8; AREA_BYTES])
    ensures { area.new ≡ area_after_answer Released area.old }
{
    release(area);
}

/// The number of an error.
fn code_of(error: ReadError) -> u32
    ensures { result ≡ error_code error }
{
    match error {
        ReadError::NotPosted => NOT_POSTED,
        ReadError::Nothing => NOTHING,
        ReadError::ChannelError => CHANNEL_ERROR,
        ReadError::Malformed => MALFORMED,
        ReadError::Foreign => FOREIGN,
        ReadError::WrongWords => WRONG_WORDS,
        ReadError::UnknownStatus => UNKNOWN_STATUS,
    }
}

/// The numbers of a message.
fn numbers_of(notice: &Notice) -> Message
    ensures { result ≡ message_of notice.now }
{
    let nothing = Message {
        rate: 0,
        kind: STATE_SET,
        status: SUCCESS,
        token: 0,
        agent: 0,
        id: 0,
        state: 0,
    };
    match *notice {
        Notice::StateSet {
            token,
            domain,
            state,
        } => Message {
            token: u32::from(token),
            id: domain,
            state,
            ..nothing
        },
        Notice::StateSetRefused { token, status } => Message {
            status: status.word(),
            token: u32::from(token),
            ..nothing
        },
        Notice::RateSet { token, clock, rate } => Message {
            rate,
            kind: RATE_SET,
            token: u32::from(token),
            id: clock,
            ..nothing
        },
        Notice::RateSetRefused { token, status } => Message {
            kind: RATE_SET,
            status: status.word(),
            token: u32::from(token),
            ..nothing
        },
        Notice::StateChanged {
            agent,
            domain,
            state,
        } => Message {
            kind: STATE_CHANGED,
            agent,
            id: domain,
            state,
            ..nothing
        },
    }
}
