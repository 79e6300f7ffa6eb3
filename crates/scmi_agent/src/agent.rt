//! An agent: its next token, and the command that it posted.
ghost use Rattle.std.specs.Prelude.{◌≡◌, ◌≢◌, ◌↔◌, ◌%◌, Some, None, Ok, Err, OnOk, OnErr, IfOk, IfErr, IfSome, IsSomeAnd};
ghost use Rattle.scmi_codec.specs.Area.{area_after_post, frame_waiting};
ghost use Rattle.scmi_codec.specs.Command.{command_of};
ghost use Rattle.scmi_codec.specs.declared.frame.Frame.TheVariants.{Good};
ghost use Rattle.scmi_agent.specs.Agent.{message_at, next_message, agent_after_post, IsReplyOf, IsOfAnother};
ghost use Rattle.scmi_agent.specs.Answer.{answer_in};
ghost use Rattle.scmi_agent.specs.Reply.{reply_of};
ghost use Rattle.scmi_codec.specs.declared.header.TheConstants.{TOKENS};

use crate::answer::answer_in;
use crate::error::{PostError, ReadError};
use crate::reply::Reply;
use scmi_codec::{AREA_BYTES, Command, Header, TOKENS, is_free, write_message};

/// An agent at one A2P channel. It takes no memory.
#[derive(Clone, Copy, PartialEq, Eq, Debug)]
pub struct Agent {
    /// The token of the next command, modulo `TOKENS`.
    pub next: u16,
    /// The header of the command whose reply was not read yet.
    pub posted: Option<Header>,
}

impl Agent {
    /// An agent that has posted nothing, whose first token is 0.
    pub fn new() -> Agent
        ensures next { result.next ≡ 0 }
        ensures posted { result.posted ≡ None }
    {
        Agent {
            next: 0,
            posted: None,
        }
    }

    /// Writes a command into the area of the agent's channel, at its next token, as a caller posts
    /// it: the channel is then busy. Gives the token. `Outstanding` if the reply to the previous
    /// command was not read, and `NotFree` if a message is in the area; then nothing changed.
    pub fn post(&mut self, area: &mut [u8; AREA_BYTES], command: &Command) -> Result<u16, PostError>
        ensures token { IfOk result (λ token. token ≡ self.old.next % TOKENS) }
        ensures area { OnOk result
            (area.new ≡ area_after_post (next_message self.old command.now) area.old) }
        ensures waits { OnOk result
            (frame_waiting area.new ≡ Some (Good (next_message self.old command.now))) }
        ensures command { OnOk result
            (command_of (next_message self.old command.now) ≡ Ok command.now) }
        ensures agent { OnOk result (self.new ≡ agent_after_post self.old command.now) }
        ensures outstanding { (result ≡ Err PostError.Outstanding) ↔ (self.old.posted ≢ None) }
        ensures not_free { (result ≡ Err PostError.NotFree) ↔
            ((self.old.posted ≡ None) × (frame_waiting area.old ≢ None)) }
        ensures err { OnErr result (self.new ≡ self.old) }
        ensures kept { OnErr result (area.new ≡ area.old) }
    {
        if self.posted.is_some() {
            return Err(PostError::Outstanding);
        }
        let Ok(true) = is_free(area) else {
            return Err(PostError::NotFree);
        };
        let token = self.next % TOKENS;
        let message = command.pack(token);
        let _ = write_message(area, &message);
        self.next = (token + 1) % TOKENS;
        self.posted = Some(message.header);
        Ok(token)
    }

    /// Reads the reply to the command that was posted, from the area as the platform left it; then
    /// the agent may post again. `NotPosted` if none was posted, `Nothing` while the channel is not
    /// free, `ChannelError`, `Malformed`, `Foreign` if the message has another header than the
    /// command that was posted, `WrongWords` and `UnknownStatus`; then the agent is as it was.
    pub fn reply(&mut self, area: &[u8; AREA_BYTES]) -> Result<Reply, ReadError>
        ensures own { IfOk result (λ reply.
            IsSomeAnd self.old.posted (λ header. IsReplyOf header area.now reply)) }
        ensures foreign { (result ≡ Err ReadError.Foreign) ↔
            IsSomeAnd self.old.posted (λ header. IsOfAnother header area.now) }
        ensures value { IfSome self.old.posted (λ header.
            IfOk (answer_in area.now) (λ message.
            message.header ≡ header → result ≡ reply_of header message.payload.items)) }
        ensures answer { IfSome self.old.posted (λ _.
            IfErr (answer_in area.now) (λ e. result ≡ Err e)) }
        ensures not_posted { (result ≡ Err ReadError.NotPosted) ↔ (self.old.posted ≡ None) }
        ensures done { OnOk result (self.new ≡ record self.old { posted = None }) }
        ensures err { OnErr result (self.new ≡ self.old) }
    {
        let Some(header) = self.posted else {
            return Err(ReadError::NotPosted);
        };
        let message = answer_in(area)?;
        if message.header != header {
            return Err(ReadError::Foreign);
        }
        let reply = Reply::read(&header, message.payload.as_slice())?;
        self.forget();
        Ok(reply)
    }

    /// Gives up the command that was posted, if there is one: no reply to it is read any more.
    pub fn forget(&mut self)
        ensures { self.new ≡ record self.old { posted = None } }
    {
        self.posted = None;
    }
}
