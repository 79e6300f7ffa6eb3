//! A guess in a place of its own.
ghost use Rattle.std.specs.Prelude.{◌≡◌, ◌≢◌, ◌↔◌, [], true, false, IfErr, IfOk, IfSome};
ghost use Rattle.scmi_judge.specs.Guess.{CannotCome, Gives, GivesNot, GoesOn, IsGuess};
ghost use Rattle.scmi_judge.specs.declared.unseen.Unseen.{Unseen as Hidden};
ghost use Rattle.scmi_judge.specs.declared.verdict.Verdict.TheVariants.{Same};

use crate::entry::Entry;
use crate::guess::Guess;
use crate::unseen::{Step, Unseen};
use crate::verdict::Verdict;
use scmi_core::CoreError;
use scmi_plan::Plan;
use std::alloc::Global;
use std::marker::Model;

/// A guess in a box: a guess is large, and moving a place moves a pointer. Contracts see the guess.
#[derive(Drop)]
pub(crate) struct Place {
    guess: Box<Guess>,
}

impl Model for Place {
    ghost use Rattle.scmi_judge.specs.declared.guess.Guess.{Guess};

    ghost Value = { Guess };

    ghost view = { λ p. p.guess.value };
}

impl Place {
    /// The platform of a board at the start. `Memory` is the only error.
    pub fn new(alloc: Global, plan: Plan) -> Result<Place, CoreError>
        ensures board { IfOk result (λ place. place.platform.board ≡ plan) }
        ensures start { IfOk result (λ place. (may : Hidden) → IsGuess may plan place [] []) }
        ensures errors { IfErr result (λ e. e ≡ CoreError.Memory) }
    {
        match Box::new(alloc, Guess::new(plan)) {
            Ok(guess) => Ok(Place { guess }),
            Err(_) => Err(CoreError::Memory),
        }
    }

    /// The guess that is in it.
    pub fn get(&self) -> &Guess
        ensures { result.now ≡ self.now }
    {
        &self.guess
    }

    /// `Guess::copy_from`.
    pub fn copy_from(&mut self, other: &Place)
        requires { self.now.platform.board ≡ other.now.platform.board }
        ensures { self.new ≡ other.now }
    {
        self.guess.copy_from(&other.guess);
    }

    /// `Guess::is_same`.
    pub fn is_same(&self, other: &Place) -> bool
        requires { self.now.platform.board ≡ other.now.platform.board }
        ensures { (result ≡ true) ↔ (self.now ≡ other.now) }
    {
        self.guess.is_same(&other.guess)
    }

    /// `Guess::make`.
    pub fn make(&mut self, step: Step, unseen: Unseen) -> bool
        ensures goes { result ≡ true → GoesOn unseen self.old step self.new }
        ensures cannot { result ≡ false → CannotCome unseen self.old step }
        ensures board { self.new.platform.board ≡ self.old.platform.board }
    {
        self.guess.make(step, unseen)
    }

    /// `Guess::show`.
    pub fn show(&mut self, entry: &Entry, unseen: Unseen) -> bool
        ensures gives { result ≡ true → Gives unseen self.old entry.now self.new }
        ensures not { result ≡ false → GivesNot unseen self.old entry.now }
        ensures board { self.new.platform.board ≡ self.old.platform.board }
    {
        self.guess.show(entry, unseen)
    }

    /// `Guess::due`.
    pub fn due(&mut self, entry: &Entry) -> Option<Verdict>
        ensures differs { IfSome result (λ due. due ≢ Same) }
        ensures board { self.new.platform.board ≡ self.old.platform.board }
    {
        self.guess.due(entry)
    }

    /// `Guess::pass`.
    pub fn pass(&mut self, entry: &Entry)
        ensures { self.new.platform.board ≡ self.old.platform.board }
    {
        self.guess.pass(entry);
    }

    /// `Guess::give_value`.
    pub fn give_value(&mut self, entry: &Entry) -> bool
        ensures { self.new.platform.board ≡ self.old.platform.board }
    {
        self.guess.give_value(entry)
    }

    /// `Guess::free_place`.
    pub fn free_place(&mut self, entry: &Entry)
        ensures { self.new.platform.board ≡ self.old.platform.board }
    {
        self.guess.free_place(entry);
    }
}
