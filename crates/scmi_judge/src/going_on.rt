//! How a judge goes on after an entry that differs. Nothing is promised of the guesses from there
//! on but that they are of the board.
ghost use Rattle.std.specs.Prelude.{◌≡◌, ◌+◌, [], IfErr, OnOk};
ghost use Rattle.scmi_plan.specs.Board.{Board};
ghost use Rattle.scmi_judge.specs.Exact.{IsOfBoard};
ghost use Rattle.scmi_judge.specs.Guesses.{AreOfBoard, HaveBoard, KeepBoard, all_places, places};

use crate::entry::Entry;
use crate::guess::Guess;
use crate::guesses::{Guesses, has};
use crate::place::Place;
use crate::same::is_same_answer;
use crate::shown::{has_succeeded, set_shown, sets_value};
use crate::stop::Stop;
use scmi_codec::{Answer, Command, Frame, Message};
use scmi_core::{Effect, Platform};
use std::mem;

/// The most platforms that a judge goes on with after an entry that differs, and looks back to.
/// Nothing is promised from there on, and each of them costs a step of every later entry.
pub const GOING_ON: usize = 64;

impl Guesses {
    /// Passes over an entry that none of the guesses gives.
    pub fn pass_over(&mut self, entry: &Entry) -> Result<(), Stop>
        requires boards { HaveBoard self.old }
        requires tried { self.old.tried.items ≡ [] }
        requires others { self.old.others.items ≡ [] }
        ensures keeps { KeepBoard self.old self.new }
        ensures others { OnOk result (self.new.others.items ≡ []) }
        ensures tried { OnOk result (self.new.tried.items ≡ []) }
        ensures places { OnOk result (places self.new ≡ places self.old) }
        ensures memory { IfErr result (λ stop. stop ≡ Stop.Memory) }
    {
        mem::swap(&mut self.left, &mut self.others);
        self.go_on(entry)
    }

    /// Leaves what the others may be after an entry that none of them gives, from those on that
    /// have moved on least, until as many are left as may go on: one that executed the command, or
    /// took the message that was due; one that has the value that the entry shows; and the guess as
    /// it is. The other places are free again.
    pub fn go_on(&mut self, entry: &Entry) -> Result<(), Stop>
        requires boards { HaveBoard self.old }
        ensures keeps { KeepBoard self.old self.new }
        ensures others { OnOk result (self.new.others.items ≡ []) }
        ensures tried { self.new.tried ≡ self.old.tried }
        ensures places { OnOk result (places self.new ≡ all_places self.old) }
        ensures memory { IfErr result (λ stop. stop ≡ Stop.Memory) }
    {
        'each: while let Some(mut guess) = self.others.pop() {
            self.go_on_from(&guess, entry)?;
            guess.free_place(entry);
            self.put(guess)?;
        }
        Ok(())
    }

    /// Leaves what one of the others may be after the entry, if more may go on.
    fn go_on_from(&mut self, guess: &Place, entry: &Entry) -> Result<(), Stop>
        requires boards { (board : Board) × AreOfBoard board self.old
            × (guess.now.platform.board ≡ board) }
        ensures keeps { KeepBoard self.old self.new }
        ensures tried { self.new.tried ≡ self.old.tried }
        ensures places { OnOk result (places self.new ≡ places self.old) }
        ensures others { self.new.others ≡ self.old.others }
        ensures memory { IfErr result (λ stop. stop ≡ Stop.Memory) }
    {
        if self.left.len() >= GOING_ON {
            return Ok(());
        }
        self.made.copy_from(guess);
        self.made.pass(entry);
        self.keep_new()?;
        self.made.copy_from(guess);
        if !self.made.give_value(entry) {
            return Ok(());
        }
        self.keep_new()
    }

    /// The guess that was made is left, if it may go on and a place is free for another.
    pub fn keep_new(&mut self) -> Result<(), Stop>
        requires boards { HaveBoard self.old }
        ensures keeps { KeepBoard self.old self.new }
        ensures tried { self.new.tried ≡ self.old.tried }
        ensures places { OnOk result (places self.new ≡ places self.old) }
        ensures others { self.new.others ≡ self.old.others }
        ensures memory { IfErr result (λ stop. stop ≡ Stop.Memory) }
    {
        if self.spare.is_empty() || !self.may_go_on(&self.made) {
            return Ok(());
        }
        self.keep_made()
    }

    /// A guess is left, if it may go on, or else its place is free.
    fn put(&mut self, guess: Place) -> Result<(), Stop>
        requires boards { (board : Board) × AreOfBoard board self.old
            × (guess.platform.board ≡ board) }
        ensures keeps { KeepBoard self.old self.new }
        ensures tried { self.new.tried ≡ self.old.tried }
        ensures places { OnOk result (places self.new ≡ 1 + places self.old) }
        ensures others { self.new.others ≡ self.old.others }
        ensures memory { IfErr result (λ stop. stop ≡ Stop.Memory) }
    {
        let pushed = if self.may_go_on(&guess) {
            self.left.push(guess)
        } else {
            self.spare.push(guess)
        };
        let Ok(()) = pushed else {
            return Err(Stop::Memory);
        };
        Ok(())
    }

    /// Whether a guess may go on: fewer are left than may, and it is not left yet.
    fn may_go_on(&self, guess: &Place) -> bool
        requires boards { IsOfBoard guess.now.platform.board self.now.left.items }
    {
        self.left.len() < GOING_ON && !has(&self.left, guess)
    }
}

impl Guess {
    /// Executes the command of an entry, or takes the message that was due in place of that of the
    /// entry.
    pub fn pass(&mut self, entry: &Entry)
        ensures { self.new.platform.board ≡ self.old.platform.board }
    {
        match entry {
            Entry::Answered { agent, frame, .. } => {
                let mut reply = Message::default();
                let _ = self.platform.command(*agent, frame, &mut reply);
            }
            Entry::Delivered { agent, .. } => {
                if self.has_agent(*agent) {
                    self.posted[*agent as usize - 1] = None;
                }
            }
            Entry::Replied { place, .. } => {
                let _ = self.execute_at(*place);
                self.give_up(*place);
            }
            Entry::Asked { .. } | Entry::GivenUp { .. } | Entry::Told { .. } => {}
        }
    }

    /// The place of the command that an entry answers is free.
    pub fn free_place(&mut self, entry: &Entry)
        ensures { self.new.platform.board ≡ self.old.platform.board }
    {
        if let Entry::Replied { place, .. } = entry {
            self.give_up(*place);
        }
    }

    /// Gives the value that a reply of success shows to its domain or clock, by an agent that may
    /// set it, if there is one and no agent is notified of that. Whether it has that value then.
    pub fn give_value(&mut self, entry: &Entry) -> bool
        ensures { self.new.platform.board ≡ self.old.platform.board }
    {
        self.free_place(entry);
        let Some(set) = value_of(entry) else {
            return false;
        };
        let frame = Frame::Good(set);
        let mut agent = self.platform.agents();
        'agents: while agent > 0 {
            if may_set(&self.platform, agent, &frame) {
                let mut reply = Message::default();
                let _ = self.platform.command(agent, &frame, &mut reply);
                return self.has_value(entry);
            }
            agent -= 1;
        }
        false
    }

    /// Whether an entry shows a value that was set, or that is read so. A rate that a clock can't
    /// have was rounded.
    fn has_value(&mut self, entry: &Entry) -> bool
        ensures { self.new.platform.board ≡ self.old.platform.board }
    {
        match entry {
            Entry::Answered {
                agent,
                frame,
                answer,
            }
            | Entry::Replied {
                agent,
                frame,
                answer,
                ..
            } => is_set(frame) || self.gives_answer(*agent, frame, answer),
            Entry::Delivered { .. }
            | Entry::Asked { .. }
            | Entry::GivenUp { .. }
            | Entry::Told { .. } => false,
        }
    }

    fn gives_answer(&mut self, agent: u32, frame: &Frame, answer: &Answer) -> bool
        ensures { self.new.platform.board ≡ self.old.platform.board }
    {
        match self.executed(agent, frame) {
            Some(given) => is_same_answer(&given, answer),
            None => false,
        }
    }
}

/// Whether a frame is a command that sets a value.
fn is_set(frame: &Frame) -> bool {
    match frame {
        Frame::Good(command) => sets_value(&Command::read(command)),
        Frame::Malformed { .. } => false,
    }
}

/// The set of the value that an entry shows.
fn value_of(entry: &Entry) -> Option<Message> {
    match entry {
        Entry::Answered {
            frame: Frame::Good(command),
            answer,
            ..
        }
        | Entry::Replied {
            frame: Frame::Good(command),
            answer,
            ..
        } => match answer {
            Answer::Reply(reply) if has_succeeded(answer) => set_shown(command, reply),
            _ => None,
        },
        _ => None,
    }
}

/// Whether a set of an agent changes the hardware, and no agent is notified of that.
fn may_set(platform: &Platform, agent: u32, frame: &Frame) -> bool {
    match platform.effect_of(agent, frame) {
        Ok(Some(Effect::State { domain, .. })) => !has_subscriber(platform, domain),
        Ok(effect) => effect.is_some(),
        Err(_) => false,
    }
}

/// Whether an agent is notified of a domain's changes.
fn has_subscriber(platform: &Platform, domain: u32) -> bool {
    let mut agent = platform.agents();
    'agents: while agent > 0 {
        if platform.is_subscribed(agent, domain) == Some(true) {
            return true;
        }
        agent -= 1;
    }
    false
}
