//! What the lines of a record show so far.
ghost use Rattle.std.specs.Prelude.{◌≡◌, ◌<◌, IfErr, IfOk, Ok, OnOk, Some};
ghost use Rattle.scmi_codec.specs.declared.header.TheConstants.{TOKENS};
ghost use Rattle.scmi_board.specs.LineError.{Gives, GivesUnless};
ghost use Rattle.scmi_board.specs.TextError.{IsOfScript};
ghost use Rattle.scmi_text.specs.TextLines.{GivesScript};
ghost use Rattle.scmi_check.specs.RecordText.{all_given_up, given_up, entry_protocol, finished, nothing_shown, record_shown, record_view, ready, shows_of, told, token_free, token_taken, with_answer, with_answered, with_asking, with_called, with_entry, with_lost, with_posted, with_response, with_shown, with_traced, with_unmatched};

use crate::asking::Asking;
use crate::left_out::{LeftOut, frame_protocol, is_judged};
use crate::note::{Lost, Note, NoteKind};
use crate::record::{Placed, Record};
use crate::shown::Shown;
use crate::waiting::{Early, Waiting, is_early, place_of, take_command, take_with};
use scmi_board::{LineError, TextError};
use scmi_codec::{Answer, Frame, Header, Message, TOKENS};
use scmi_judge::Entry;
use scmi_plan::AGENTS;
use scmi_text::Call;
use std::alloc::{AllocError, Global};

/// What the lines of a record show so far. After an error it is of no use.
#[derive(Drop)]
pub(crate) struct SoFar<'a> {
    asking: Asking,
    left: LeftOut,
    // The protocols that are judged.
    judged: &'a [u8],
    // The commands whose answers are still to come, in order, and those of traces.
    waiting: Vec<Waiting>,
    traced: Vec<Waiting>,
    // The last response of a trace that answers no command, until another command of a trace.
    early: Option<Early>,
    // The next token of each agent, from agent 1 on.
    tokens: [u16; AGENTS],
}

impl<'a> SoFar<'a> {
    /// Nothing is shown, and these protocols are judged. It takes no memory.
    pub fn new(alloc: Global, judged: &'a [u8]) -> SoFar<'a>
        ensures { shows_of result ≡ nothing_shown judged.now }
    {
        SoFar {
            asking: Asking::new(alloc),
            left: LeftOut::new(alloc),
            judged,
            waiting: Vec::new(alloc),
            traced: Vec::new(alloc),
            early: None,
            tokens: [0; AGENTS],
        }
    }

    /// What the line of this number shows. `Form` if it can't follow what is shown.
    #[tactic(auto, unfolding(crate::specs::RecordText::with_shown))]
    pub fn add(&mut self, line: u32, shown: Shown) -> Result<(), LineError>
        ensures { GivesUnless (λ _. shows_of self.new) result
            (with_shown (shows_of self.old) line shown) }
    {
        match shown {
            Shown::Called { agent, call } => self.call(line, agent, call),
            Shown::Posted { agent, frame } => self.post(line, agent, frame),
            Shown::PostedBeside { agent, message } => self.post_beside(line, agent, message),
            Shown::Got { agent, answer } => self.answer(line, agent, answer),
            Shown::Responded { agent, message } => self.respond(line, agent, message),
            Shown::Took { agent, message } => self.push(line, Entry::Delivered { agent, message }),
            Shown::Told { report } => self.push(line, Entry::Told { report }),
            Shown::Missed { lost } => self.miss(line, lost),
            Shown::Skipped => Ok(()),
        }
    }

    /// The entries that are shown.
    pub fn entries(&self) -> &[Placed]
        ensures { result.now ≡ (shows_of self.now).entries }
    {
        &self.asking.entries
    }

    /// What is noted.
    pub fn notes(&self) -> &[Note]
        ensures { result.now ≡ (shows_of self.now).left.notes }
    {
        &self.left.notes
    }

    /// Forgets the entries that are shown, and what is noted.
    pub fn forget(&mut self)
        ensures { shows_of self.new ≡ told (shows_of self.old) }
    {
        self.asking.entries.clear();
        self.left.notes.clear();
    }

    /// The record, once no line is left. `Memory` if out of memory.
    pub fn finish(mut self) -> Result<Record, TextError>
        ensures errors { IfErr result IsOfScript }
        ensures record { GivesScript record_view result (Ok (finished (shows_of self.entry))) }
    {
        if self.note_unanswered().is_err() {
            return Err(TextError::Memory);
        }
        let SoFar {
            asking,
            left,
            judged: _,
            waiting: _,
            traced: _,
            early: _,
            tokens: _,
        } = self;
        let Asking { entries, asked: _ } = asking;
        Ok(Record { entries, left })
    }

    /// The commands that wait have no answer.
    fn note_unanswered(&mut self) -> Result<(), AllocError>
        ensures { OnOk result (record_shown (shows_of self.new) ≡ finished (shows_of self.old)) }
    {
        self.left.add_unanswered(self.judged, &self.waiting)?;
        self.left.add_unanswered(self.judged, &self.traced)
    }

    /// A command with the next token of its agent.
    #[tactic(auto, unfolding(crate::specs::RecordText::with_called))]
    fn call(&mut self, line: u32, agent: u32, call: Call) -> Result<(), LineError>
        ensures { GivesUnless (λ _. shows_of self.new) result
            (with_called (shows_of self.old) line agent call) }
    {
        let token = self.take_token(agent)?;
        let header = Header::command(call.protocol, token, call.message);
        let payload = call.payload;
        self.post(line, agent, Frame::Good(Message { header, payload }))
    }

    /// The next token of an agent. `Form` if no board has the agent.
    #[tactic(auto, unfolding(crate::specs::RecordText::token_taken))]
    fn take_token(&mut self, agent: u32) -> Result<u16, LineError>
        ensures fits { IfOk result (λ token. token < TOKENS) }
        ensures token { Gives (λ token. (token, shows_of self.new)) result
            (token_taken (shows_of self.old) agent) }
    {
        if agent == 0 || agent as usize > AGENTS {
            return Err(LineError::Form);
        }
        let place = agent as usize - 1;
        let token = self.tokens[place] % TOKENS;
        self.tokens[place] = token + 1;
        Ok(token)
    }

    /// A command. `Form` if another of its agent waits for its answer.
    #[tactic(auto, unfolding(crate::specs::RecordText::with_posted))]
    fn post(&mut self, line: u32, agent: u32, frame: Frame) -> Result<(), LineError>
        ensures { GivesUnless (λ _. shows_of self.new) result
            (with_posted (shows_of self.old) line agent frame) }
    {
        if place_of(&self.waiting, agent).is_some() {
            return Err(LineError::Form);
        }
        let Ok(()) = self.waiting.push(Waiting { line, agent, frame }) else {
            return Err(LineError::Memory);
        };
        Ok(())
    }

    /// A command of a trace. It waits for its response, unless that was before it.
    fn post_beside(&mut self, line: u32, agent: u32, message: Message) -> Result<(), LineError>
        ensures { GivesUnless (λ _. shows_of self.new) result
            (Some (with_traced (shows_of self.old) line agent message)) }
    {
        let token = message.header.token();
        self.free_token(agent, token)?;
        let early = self.early;
        self.early = None;
        if is_early(early, agent, token) {
            return self.leave(line, message.header.protocol());
        }
        let frame = Frame::Good(message);
        let Ok(()) = self.traced.push(Waiting { line, agent, frame }) else {
            return Err(LineError::Memory);
        };
        Ok(())
    }

    /// The command of an agent in a trace that waits with this token, if there is one, has no answer.
    fn free_token(&mut self, agent: u32, token: u16) -> Result<(), LineError>
        ensures { GivesUnless (λ _. shows_of self.new) result
            (Some (token_free (shows_of self.old) agent token)) }
    {
        match take_with(&mut self.traced, agent, token) {
            Some(command) => {
                self.left.add_command(self.judged, &command)?;
                self.give_up(&command)
            }
            None => Ok(()),
        }
    }

    /// The answer to the command of its agent that waits. `Form` if none waits.
    #[tactic(auto, unfolding(crate::specs::RecordText::with_answer))]
    fn answer(&mut self, line: u32, agent: u32, answer: Answer) -> Result<(), LineError>
        ensures { GivesUnless (λ _. shows_of self.new) result
            (with_answer (shows_of self.old) line agent answer) }
    {
        let command = take_command(&mut self.waiting, agent)?;
        self.push_answer(line, command, answer)
    }

    /// A command with its answer.
    fn push_answer(&mut self, line: u32, command: Waiting, answer: Answer) -> Result<(), LineError>
        ensures { GivesUnless (λ _. shows_of self.new) result
            (Some (with_answered (shows_of self.old) line command answer)) }
    {
        let place = self.asking.place_of(command.line);
        let Waiting {
            line: _,
            agent,
            frame,
        } = command;
        let Some(place) = place else {
            return self.push(
                line,
                Entry::Answered {
                    agent,
                    frame,
                    answer,
                },
            );
        };
        self.push(
            line,
            Entry::Replied {
                place: place as u32,
                agent,
                frame,
                answer,
            },
        )?;
        self.asking.free(place);
        Ok(())
    }

    /// The response in a trace to the command of its agent that waits with its token. If none waits,
    /// the response is not judged.
    fn respond(&mut self, line: u32, agent: u32, message: Message) -> Result<(), LineError>
        ensures { GivesUnless (λ _. shows_of self.new) result
            (Some (with_response (shows_of self.old) line agent message)) }
    {
        let token = message.header.token();
        let Some(command) = take_with(&mut self.traced, agent, token) else {
            self.early = Some(Early { agent, token });
            return self.leave(line, message.header.protocol());
        };
        self.push_answer(line, command, Answer::Reply(message))
    }

    /// Events of a trace are lost: no command of it waits from here on.
    fn miss(&mut self, line: u32, lost: Lost) -> Result<(), LineError>
        ensures { GivesUnless (λ _. shows_of self.new) result
            (Some (with_lost (shows_of self.old) line lost)) }
    {
        self.left.add_unanswered(self.judged, &self.traced)?;
        self.give_up_traced()?;
        self.early = None;
        let kind = NoteKind::Lost(lost);
        self.left.add(self.judged, None, Note { line, kind })?;
        Ok(())
    }

    /// No answers come to the commands of a trace that wait.
    fn give_up_traced(&mut self) -> Result<(), LineError>
        ensures { GivesUnless (λ _. shows_of self.new) result
            (Some (all_given_up (shows_of self.old))) }
    {
        self.get_ready()?;
        self.asking.give_up_all(&self.traced)?;
        self.traced.clear();
        Ok(())
    }

    /// No answer comes to a command that waited.
    fn give_up(&mut self, command: &Waiting) -> Result<(), LineError>
        ensures { GivesUnless (λ _. shows_of self.new) result
            (Some (given_up (shows_of self.old) command.now)) }
    {
        self.asking.ask(self.judged, command)?;
        self.get_ready()?;
        self.asking.give_up(command)?;
        Ok(())
    }

    /// A message of this protocol in a trace, which is not judged.
    fn leave(&mut self, line: u32, protocol: u8) -> Result<(), LineError>
        ensures { GivesUnless (λ _. shows_of self.new) result
            (Some (with_unmatched (shows_of self.old) line protocol)) }
    {
        let kind = NoteKind::Unmatched;
        self.left
            .add(self.judged, Some(protocol), Note { line, kind })?;
        Ok(())
    }

    /// An entry, unless it is of a protocol that is not judged.
    fn push(&mut self, line: u32, entry: Entry) -> Result<(), LineError>
        ensures { GivesUnless (λ _. shows_of self.new) result
            (Some (with_entry (shows_of self.old) line entry)) }
    {
        if let Some(protocol) = entry_protocol(&entry)
            && !is_judged(self.judged, protocol)
        {
            self.left.skip(protocol)?;
            return Ok(());
        }
        self.get_ready()?;
        self.asking.push(line, entry)?;
        Ok(())
    }

    /// Before another entry: the commands that wait are answered later.
    fn get_ready(&mut self) -> Result<(), LineError>
        ensures { GivesUnless (λ _. shows_of self.new) result
            (Some (with_asking (shows_of self.old) (ready (shows_of self.old)))) }
    {
        self.asking.ask_all(self.judged, &self.waiting)?;
        self.asking.ask_all(self.judged, &self.traced)?;
        Ok(())
    }
}

/// The protocol of an entry, of a message that is well formed.
fn entry_protocol(entry: &Entry) -> Option<u8>
    ensures { result ≡ entry_protocol entry.now }
{
    match entry {
        Entry::Answered { frame, .. } | Entry::Asked { frame, .. } | Entry::Replied { frame, .. } =>
            frame_protocol(frame),
        Entry::Delivered { message, .. } => Some(message.header.protocol()),
        Entry::GivenUp { .. } | Entry::Told { .. } => None,
    }
}
