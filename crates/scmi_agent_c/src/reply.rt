//! The reply to the command that was posted is read.
ghost use Rattle.std.specs.Prelude.{◌≡◌, ◌≢◌, ◌↔◌, Some, None, IfOk, IfErr, IfSome, IsSomeAnd};
ghost use Rattle.scmi_agent.specs.Agent.{IsOfAnother};
ghost use Rattle.scmi_agent.specs.Answer.{answer_in};
ghost use Rattle.scmi_agent.specs.Reply.{reply_of};
ghost use Rattle.scmi_agent_c.specs.Code.{read_code, error_code};
ghost use Rattle.scmi_agent_c.specs.State.{agent_of, state_of};

use crate::code::{
    CHANNEL_ERROR, DONE, FOREIGN, MALFORMED, NOT_POSTED, NOTHING, UNKNOWN_STATUS, WRONG_WORDS,
};
use crate::state::State;
use scmi_agent::ReadError;
use scmi_codec::AREA_BYTES;

/// Reads the area as the platform left it. `DONE` if the channel is free and the area holds the
/// reply to the command that was posted, with as many words as it has; then the agent may post
/// again. After another number the agent is as it was: `NOT_POSTED` if no command is outstanding,
/// `NOTHING` while the channel is busy, `CHANNEL_ERROR`, `MALFORMED`, `FOREIGN` if the message has
/// another header than that command, `WRONG_WORDS` and `UNKNOWN_STATUS`.
#[unsafe(no_mangle)]
pub extern "C" fn scmi_agent_reply(agent: &mut State, area: &[u8; AREA_BYTES]) -> u32
    ensures own { IfSome (agent_of agent.old).posted (λ header.
        IfOk (answer_in area.now) (λ message. message.header ≡ header →
        result ≡ read_code (reply_of header message.payload.items))) }
    ensures answer { IfSome (agent_of agent.old).posted (λ _.
        IfErr (answer_in area.now) (λ e. result ≡ error_code e)) }
    ensures foreign { (result ≡ FOREIGN) ↔
        IsSomeAnd (agent_of agent.old).posted (λ header. IsOfAnother header area.now) }
    ensures not_posted { (result ≡ NOT_POSTED) ↔ ((agent_of agent.old).posted ≡ None) }
    ensures done { result ≡ DONE →
        agent.new ≡ state_of (record (agent_of agent.old) { posted = None }) }
    ensures kept { result ≢ DONE → agent.new ≡ agent.old }
{
    let mut caller = agent.agent();
    match caller.reply(area) {
        Ok(_) => {
            agent.keep(&caller);
            DONE
        }
        Err(ReadError::NotPosted) => NOT_POSTED,
        Err(ReadError::Nothing) => NOTHING,
        Err(ReadError::ChannelError) => CHANNEL_ERROR,
        Err(ReadError::Malformed) => MALFORMED,
        Err(ReadError::Foreign) => FOREIGN,
        Err(ReadError::WrongWords) => WRONG_WORDS,
        Err(ReadError::UnknownStatus) => UNKNOWN_STATUS,
    }
}

/// Gives up the command that was posted, if there is one: no reply to it is read any more.
#[unsafe(no_mangle)]
pub extern "C" fn scmi_agent_forget(agent: &mut State)
    ensures { agent.new ≡ state_of (record (agent_of agent.old) { posted = None }) }
{
    let mut caller = agent.agent();
    caller.forget();
    agent.keep(&caller);
}
