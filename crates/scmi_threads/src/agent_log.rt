//! What an agent's script did.
ghost use Rattle.std.specs.Prelude.{◌≡◌, ◌<◌, ◌%◌, ◌∷◌, ◌++◌, [], None, Some, length, map, vec_len, vec_capacity, IfErr, OnOk};
ghost use Rattle.scmi_codec.specs.declared.header.TheConstants.{TOKENS};
ghost use Rattle.scmi_link.specs.Lines.{message_of, closing_of, messages_of, first_closing};
ghost use Rattle.scmi_threads.specs.Tokens.{command_token, first_tokens};

use crate::stop::Stop;
use scmi_codec::{Answer, Frame};
use scmi_link::{Closing, Line};
use std::alloc::Global;

/// What an agent posted, read and took, in order, and what came of each line of its script.
#[derive(Drop)]
pub struct AgentLog {
    /// The commands that it posted on A2P: the n-th has token (n - 1) modulo 1,024, message type 0
    /// and reserved bits 0.
    pub posted: Vec<Frame>,
    /// The answers that it read on A2P.
    pub read: Vec<Answer>,
    /// The messages that it took on P2A.
    pub p2a: Vec<Frame>,
    /// The answer of its first close that was not refused.
    pub closing: Option<Closing>,
    /// What came of the lines of its script.
    pub lines: Vec<Line>,
    /// Why its script ended early, if it did.
    pub stopped: Option<Stop>,
    /// How often it polled for a reply, modulo 2^64.
    pub reply_looks: u64,
    /// How often it polled for a P2A message, modulo 2^64.
    pub message_looks: u64,
    ghost tokens_are: { map command_token posted.items ≡ first_tokens (length posted.items) },
    ghost messages_are: { messages_of lines.items ≡ p2a.items },
    ghost closing_is: { closing ≡ first_closing lines.items },
}

impl AgentLog {
    ghost use Rattle.std.specs.Prelude.{◌≡◌, ◌<◌, ◌%◌, ◌∷◌, ◌++◌, [], Some, length, vec_len, vec_capacity, IfErr, OnOk};
    ghost use Rattle.scmi_threads.specs.Tokens.{command_token};
    ghost use Rattle.std.specs.Option.{option_or};
    ghost use Rattle.scmi_codec.specs.declared.header.TheConstants.{TOKENS};
    ghost use Rattle.scmi_link.specs.Lines.{IsOfCall};
    ghost use Rattle.scmi_link.specs.declared.line.Line.TheVariants as line;
    ghost use Rattle.scmi_threads.specs.Logs.{HasSameLooks, IsEmptyLog, IsSameLog};
    ghost use Rattle.scmi_threads.specs.declared.stop.Stop.TheVariants as stop;

    /// The log of an agent that has done nothing.
    pub(crate) fn new(alloc: Global) -> AgentLog
        ensures { IsEmptyLog result }
    {
        AgentLog {
            posted: Vec::new(alloc),
            read: Vec::new(alloc),
            p2a: Vec::new(alloc),
            closing: None,
            lines: Vec::new(alloc),
            stopped: None,
            reply_looks: 0,
            message_looks: 0,
        }
    }

    /// Makes room for a line.
    pub(crate) fn reserve_line(&mut self) -> Result<(), Stop>
        ensures room { OnOk result (vec_len self.new.lines < vec_capacity self.new.lines) }
        ensures same { IsSameLog self.old self.new }
        ensures p2a { self.new.p2a ≡ self.old.p2a }
        ensures errors { IfErr result (λ error. error ≡ stop.Memory) }
    {
        self.lines.reserve(1).map_err(|_| Stop::Memory)
    }

    /// Makes room for a command and its answer. The room for lines stays.
    pub(crate) fn reserve_call(&mut self) -> Result<(), Stop>
        ensures posted { OnOk result (vec_len self.new.posted < vec_capacity self.new.posted) }
        ensures read { OnOk result (vec_len self.new.read < vec_capacity self.new.read) }
        ensures same { IsSameLog self.old self.new }
        ensures lines { self.new.lines ≡ self.old.lines }
        ensures errors { IfErr result (λ error. error ≡ stop.Memory) }
    {
        self.posted.reserve(1).map_err(|_| Stop::Memory)?;
        self.read.reserve(1).map_err(|_| Stop::Memory)
    }

    /// Makes room for a message and its line.
    pub(crate) fn reserve_message(&mut self) -> Result<(), Stop>
        ensures p2a { OnOk result (vec_len self.new.p2a < vec_capacity self.new.p2a) }
        ensures room { OnOk result (vec_len self.new.lines < vec_capacity self.new.lines) }
        ensures same { IsSameLog self.old self.new }
        ensures errors { IfErr result (λ error. error ≡ stop.Memory) }
    {
        self.p2a.reserve(1).map_err(|_| Stop::Memory)?;
        self.reserve_line()
    }

    /// Notes a command that was posted under the next token. There is room for it.
    #[tactic(auto, using(crate::proofs::TokenLemmas::tokens_push))]
    pub(crate) fn note_posted(&mut self, frame: Frame)
        requires room { vec_len self.old.posted < vec_capacity self.old.posted }
        requires token { command_token frame ≡ Some (length self.old.posted.items % TOKENS) }
        ensures posted { self.new.posted.items ≡ self.old.posted.items ++ frame ∷ [] }
        ensures same { (self.new.read ≡ self.old.read) × (self.new.p2a ≡ self.old.p2a) ×
            (self.new.lines ≡ self.old.lines) × (self.new.closing ≡ self.old.closing) ×
            (self.new.stopped ≡ self.old.stopped) }
        ensures looks { HasSameLooks self.old self.new }
    {
        self.posted.push_reserved(frame);
    }

    /// Notes an answer that was read. There is room for it.
    pub(crate) fn note_read(&mut self, answer: Answer)
        requires room { vec_len self.old.read < vec_capacity self.old.read }
        ensures read { self.new.read.items ≡ self.old.read.items ++ answer ∷ [] }
        ensures same { (self.new.posted ≡ self.old.posted) × (self.new.p2a ≡ self.old.p2a) ×
            (self.new.lines ≡ self.old.lines) × (self.new.closing ≡ self.old.closing) ×
            (self.new.stopped ≡ self.old.stopped) }
        ensures looks { HasSameLooks self.old self.new }
    {
        self.read.push_reserved(answer);
    }

    /// Notes a message that was taken, and its line. There is room for them.
    pub(crate) fn note_message(&mut self, frame: Frame)
        requires p2a { vec_len self.old.p2a < vec_capacity self.old.p2a }
        requires room { vec_len self.old.lines < vec_capacity self.old.lines }
        ensures p2a { self.new.p2a.items ≡ self.old.p2a.items ++ frame ∷ [] }
        ensures lines { self.new.lines.items ≡ self.old.lines.items ++ line.P2a frame ∷ [] }
        ensures same { (self.new.posted ≡ self.old.posted) × (self.new.read ≡ self.old.read) ×
            (self.new.closing ≡ self.old.closing) × (self.new.stopped ≡ self.old.stopped) }
        ensures looks { HasSameLooks self.old self.new }
    {
        self.lines.push_reserved(Line::P2a(frame.copy()));
        self.p2a.push_reserved(frame);
    }

    /// Notes how the agent's endpoint was closed; the first close stays. There is room for its
    /// line.
    pub(crate) fn note_closing(&mut self, closing: Closing)
        requires room { vec_len self.old.lines < vec_capacity self.old.lines }
        ensures closing { self.new.closing ≡ option_or self.old.closing (Some closing) }
        ensures lines { self.new.lines.items ≡ self.old.lines.items ++ line.Close closing ∷ [] }
        ensures same { (self.new.posted ≡ self.old.posted) × (self.new.read ≡ self.old.read) ×
            (self.new.p2a ≡ self.old.p2a) × (self.new.stopped ≡ self.old.stopped) }
        ensures looks { HasSameLooks self.old self.new }
    {
        self.closing = self.closing.or(Some(closing));
        self.lines.push_reserved(Line::Close(closing));
    }

    /// Notes a line that reports neither a message nor the close of an endpoint. There is room for
    /// it.
    pub(crate) fn note(&mut self, line: Line)
        requires room { vec_len self.old.lines < vec_capacity self.old.lines }
        requires of_call { IsOfCall line }
        ensures lines { self.new.lines.items ≡ self.old.lines.items ++ line ∷ [] }
        ensures same { (self.new.posted ≡ self.old.posted) × (self.new.read ≡ self.old.read) ×
            (self.new.p2a ≡ self.old.p2a) × (self.new.closing ≡ self.old.closing) ×
            (self.new.stopped ≡ self.old.stopped) }
        ensures looks { HasSameLooks self.old self.new }
    {
        self.lines.push_reserved(line);
    }
}
