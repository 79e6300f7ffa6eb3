//! The commands of a guess that are answered later.
ghost use Rattle.std.specs.Prelude.{◌≡◌, ◌≢◌, ℕ, ◌<◌, None, Some, true, false, IfSome, length};
ghost use Rattle.scmi_codec.specs.declared.frame.Frame.{Frame as Frames};
ghost use Rattle.scmi_judge.specs.Guess.{CannotCome, Gives, GivesNot, GoesOn, command_at};
ghost use Rattle.scmi_judge.specs.Moves.{outstanding};
ghost use Rattle.scmi_judge.specs.declared.entry.Entry.TheVariants as entry;
ghost use Rattle.scmi_judge.specs.declared.outstanding.TheConstants.{OUTSTANDING as PLACES};
ghost use Rattle.scmi_judge.specs.declared.unseen.Step.TheVariants as steps;
ghost use Rattle.scmi_judge.specs.declared.unseen.Unseen.{Unseen as Hidden};

use crate::guess::Guess;
use crate::outstanding::{OUTSTANDING, Outstanding};
use crate::same::{is_same_answer, is_same_frame};
use scmi_codec::{Answer, Fault, Frame, Message};

impl Guess {
    /// The command at a place, if one is outstanding there.
    pub fn command_at(&self, place: u32) -> Option<&Outstanding>
        ensures some { IfSome result (λ command. command_at self.now place ≡ Some command.now) }
        ensures few { IfSome result (λ command. place < PLACES) }
        ensures none { result ≡ None → command_at self.now place ≡ None }
    {
        match self.outstanding.get(place as usize) {
            Some(Some(command)) => Some(command),
            _ => None,
        }
    }

    /// The command at a place, if it was not executed yet.
    fn waiting(&self, place: u32) -> Option<Outstanding>
        ensures some { IfSome result (λ command.
            command_at self.now place ≡ Some (outstanding command.agent command.frame None)) }
        ensures few { IfSome result (λ command. place < PLACES) }
        ensures none { result ≡ None → (a : ℕ) (frame : Frames)
            → command_at self.now place ≢ Some (outstanding a frame None) }
    {
        let command = self.command_at(place)?;
        match &command.answer {
            Some(_) => None,
            None => Some(command.copy()),
        }
    }

    /// Whether the command at a place was not executed yet.
    pub fn waits(&self, place: u32) -> bool
        ensures executes { result ≡ false → (may : Hidden)
            → CannotCome may self.now (steps.Execute place) }
        ensures fails { result ≡ false → (may : Hidden)
            → CannotCome may self.now (steps.Fail place) }
    {
        match self.command_at(place) {
            Some(command) => command.answer.is_none(),
            None => false,
        }
    }

    /// Executes the command at a place; `false` if none waits there that can be executed.
    pub fn execute_at(&mut self, place: u32) -> bool
        ensures goes { result ≡ true → (may : Hidden)
            → GoesOn may self.old (steps.Execute place) self.new }
        ensures cannot { result ≡ false → (may : Hidden)
            → CannotCome may self.old (steps.Execute place) }
        ensures board { self.new.platform.board ≡ self.old.platform.board }
    {
        let Some(mut command) = self.waiting(place) else {
            return false;
        };
        let Some(answer) = self.executed(command.agent, &command.frame) else {
            return false;
        };
        command.answer = Some(answer);
        self.outstanding[place as usize] = Some(command);
        true
    }

    /// The hardware refuses the change of the command at a place; `false` if it can't, and then
    /// nothing changed.
    pub fn fail_at(&mut self, place: u32) -> bool
        ensures goes { result ≡ true → (may : Hidden)
            → GoesOn may self.old (steps.Fail place) self.new }
        ensures cannot { result ≡ false → (may : Hidden)
            → CannotCome may self.old (steps.Fail place) }
        ensures board { self.new.platform.board ≡ self.old.platform.board }
    {
        let Some(mut command) = self.waiting(place) else {
            return false;
        };
        let mut failed = Message::default();
        let Ok(()) = self.platform.command_failed(
            command.agent,
            &command.frame,
            Fault::HardwareError,
            &mut failed,
        )
        else {
            return false;
        };
        command.answer = Some(Answer::Reply(failed));
        self.outstanding[place as usize] = Some(command);
        true
    }

    /// What it is after a command that is answered later; `false` if that can't be asked, and then
    /// nothing changed.
    pub fn ask(&mut self, place: u32, agent: u32, frame: &Frame) -> bool
        ensures gives { result ≡ true → (may : Hidden)
            → Gives may self.old (entry.Asked place agent frame.now) self.new }
        ensures not { result ≡ false → (may : Hidden)
            → GivesNot may self.old (entry.Asked place agent frame.now) }
        ensures board { self.new.platform.board ≡ self.old.platform.board }
    {
        if !self.has_agent(agent) || place as usize >= OUTSTANDING {
            return false;
        }
        if self.outstanding[place as usize].is_some() {
            return false;
        }
        self.outstanding[place as usize] = Some(Outstanding {
            agent,
            frame: frame.copy(),
            answer: None,
        });
        true
    }

    /// What it is after the answer to the command at a place; `false` if it does not give that, and
    /// then nothing changed.
    pub fn reply(&mut self, place: u32, agent: u32, frame: &Frame, answer: &Answer) -> bool
        ensures gives { result ≡ true → (may : Hidden)
            → Gives may self.old (entry.Replied place agent frame.now answer.now) self.new }
        ensures not { result ≡ false → (may : Hidden)
            → GivesNot may self.old (entry.Replied place agent frame.now answer.now) }
        ensures board { self.new.platform.board ≡ self.old.platform.board }
    {
        if !self.has_answered(place, agent, frame, answer) {
            return false;
        }
        self.outstanding[place as usize] = None;
        true
    }

    /// Whether the command at a place is this one, and was executed with this answer.
    fn has_answered(&self, place: u32, agent: u32, frame: &Frame, answer: &Answer) -> bool
        ensures yes { result ≡ true
            → command_at self.now place ≡ Some (outstanding agent frame.now (Some answer.now)) }
        ensures few { result ≡ true → place < PLACES }
        ensures no { result ≡ false
            → command_at self.now place ≢ Some (outstanding agent frame.now (Some answer.now)) }
    {
        let Some(command) = self.command_at(place) else {
            return false;
        };
        let Some(given) = &command.answer else {
            return false;
        };
        command.agent == agent
            && is_same_frame(&command.frame, frame)
            && is_same_answer(given, answer)
    }

    /// What it is once no answer comes to the command at a place.
    pub fn give_up(&mut self, place: u32)
        ensures gives { (may : Hidden) → Gives may self.old (entry.GivenUp place) self.new }
        ensures board { self.new.platform.board ≡ self.old.platform.board }
    {
        if self.command_at(place).is_some() {
            self.outstanding[place as usize] = None;
        }
    }
}
