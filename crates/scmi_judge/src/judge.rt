//! The judge of a platform by a record of its channels.
ghost use Rattle.std.specs.Prelude.{◌≡◌, ◌≢◌, ◌+◌, ◌∷◌, [], List, length, Ok, None, Some, true, false, IfOk, IfSome, IfErr, OnOk};
ghost use Rattle.scmi_judge.specs.Behind.{HasLegalHistory};
ghost use Rattle.scmi_judge.specs.Due.{IsDue};
ghost use Rattle.scmi_judge.specs.Judging.{AreTooMany, Knows};
ghost use Rattle.scmi_judge.specs.declared.entry.Entry.{Entry as Shown};
ghost use Rattle.scmi_judge.specs.declared.verdict.Verdict.TheVariants.{Same};

use crate::entry::Entry;
use crate::guesses::Guesses;
use crate::place::Place;
use crate::stop::Stop;
use crate::unseen::Unseen;
use crate::verdict::Verdict;
use crate::window::Window;
use scmi_core::CoreError;
use scmi_plan::Plan;
use std::alloc::Global;
use std::marker::Model;

/// A judge of a platform of a board, by all platforms that may be behind the entries so far.
/// Contracts see the board, what may happen that no entry shows, those platforms, the places for
/// more, and whether it still judges.
#[derive(Drop)]
pub struct Judge {
    guesses: Guesses,
    // Whether it still judges.
    sure: bool,
    // What may explain an entry that differs.
    window: Window,
}

impl Model for Judge {
    ghost use Rattle.scmi_judge.specs.Due.{IsDue};
    ghost use Rattle.scmi_judge.specs.Judging.{Judging, IsReady};

    ghost Value = { Judging };

    ghost view = { λ j. record {
      board = j.guesses.made.platform.board;
      unseen = j.guesses.unseen;
      guesses = j.guesses.left.items;
      spare = j.guesses.spare.items;
      sure = j.sure;
    } };

    ghost invariant = { λ j. IsReady j.sure j.guesses j.window };
}

impl Judge {
    /// A judge of a platform of a board, before the first entry. It needs a plan of the same board
    /// for a place in which it makes others. `unseen` is what may happen that no entry shows.
    /// `Memory` is the only error.
    pub fn new(alloc: Global, plan: Plan, place: Plan, unseen: Unseen) -> Result<Judge, CoreError>
        requires { place ≡ plan }
        ensures places { IfOk result (λ judge. length judge.guesses + length judge.spare ≡ 1) }
        ensures start { IfOk result (λ judge. Knows judge []) }
        ensures board { IfOk result (λ judge. judge.board ≡ plan) }
        ensures unseen { IfOk result (λ judge. judge.unseen ≡ unseen) }
        ensures errors { IfErr result (λ e. e ≡ CoreError.Memory) }
    {
        let first = Place::new(alloc, plan)?;
        let made = Place::new(alloc, place)?;
        let mut left = Vec::new(alloc);
        let Ok(()) = left.push(first) else {
            return Err(CoreError::Memory);
        };
        let guesses = Guesses {
            left,
            tried: Vec::new(alloc),
            others: Vec::new(alloc),
            spare: Vec::new(alloc),
            made,
            unseen,
        };
        Ok(Judge {
            guesses,
            sure: true,
            window: Window::new(alloc),
        })
    }

    /// Makes a place for one more platform of the board. `Memory` is the only error.
    pub fn add_place(&mut self, place: Plan) -> Result<(), CoreError>
        requires { place ≡ self.old.board }
        ensures knows { (entries : List Shown) → Knows self.old entries → Knows self.new entries }
        ensures board { self.new.board ≡ self.old.board }
        ensures unseen { self.new.unseen ≡ self.old.unseen }
        ensures place { OnOk result (length self.new.guesses + length self.new.spare
            ≡ 1 + (length self.old.guesses + length self.old.spare)) }
        ensures errors { IfErr result (λ e. e ≡ CoreError.Memory) }
    {
        let place = Place::new(*self.guesses.spare.allocator(), place)?;
        let Ok(()) = self.guesses.spare.push(place) else {
            return Err(CoreError::Memory);
        };
        Ok(())
    }

    /// Makes places for one more platform that may be looked back to, of two times, before the
    /// first entry; more than `GOING_ON` are of no use. `Memory` is the only error.
    pub fn add_look_back(&mut self, before: Plan, between: Plan) -> Result<(), CoreError>
        requires before { before ≡ self.old.board }
        requires between { between ≡ self.old.board }
        ensures knows { (entries : List Shown) → Knows self.old entries → Knows self.new entries }
        ensures board { self.new.board ≡ self.old.board }
        ensures unseen { self.new.unseen ≡ self.old.unseen }
        ensures places { length self.new.guesses + length self.new.spare
            ≡ length self.old.guesses + length self.old.spare }
        ensures errors { IfErr result (λ e. e ≡ CoreError.Memory) }
    {
        let alloc = *self.guesses.spare.allocator();
        let before = Place::new(alloc, before)?;
        let between = Place::new(alloc, between)?;
        let Ok(()) = self.window.add(before, between, &self.guesses.left) else {
            return Err(CoreError::Memory);
        };
        Ok(())
    }

    /// Judges the next entry. If the entries so far have a legal history, the verdict is `Same` if
    /// and only if they have one with this entry. After `Same` it is one of the entries so far.
    /// After another verdict the judge knows what it knew: judge another entry in its place, or
    /// `go_on`. What the verdict says was due is right in its place.
    ///
    /// `None` once more different platforms may be behind the entries so far than there are places,
    /// and from then on, also after an error. `Memory` is the only error.
    pub fn judge(&mut self, entry: &Entry) -> Result<Option<Verdict>, CoreError>
        ensures same { (entries : List Shown) → Knows self.old entries
            → IfOk result (λ o. IfSome o (λ verdict. verdict ≡ Same
            → HasLegalHistory self.old.unseen self.old.board (entry.now ∷ entries))) }
        ensures differs { (entries : List Shown) → Knows self.old entries
            → IfOk result (λ o. IfSome o (λ verdict. verdict ≢ Same
            → ¬ (HasLegalHistory self.old.unseen self.old.board (entry.now ∷ entries)))) }
        ensures knows { (entries : List Shown) → Knows self.old entries
            → IfOk result (λ o. IfSome o (λ verdict. verdict ≡ Same
            → Knows self.new (entry.now ∷ entries))) }
        ensures stays { (entries : List Shown) → Knows self.old entries
            → IfOk result (λ o. IfSome o (λ verdict. verdict ≢ Same
            → Knows self.new entries)) }
        ensures due { (entries : List Shown) → Knows self.old entries
            → IfOk result (λ o. IfSome o (λ verdict. IsDue verdict entry.now
            (λ due. HasLegalHistory self.old.unseen self.old.board (due ∷ entries)))) }
        ensures unsure { (entries : List Shown) → Knows self.old entries
            → result ≡ Ok None → AreTooMany self.old entries }
        ensures sure { IfOk result (λ o. IfSome o (λ verdict. self.new.sure ≡ true)) }
        ensures places { IfOk result (λ o. IfSome o (λ verdict.
            length self.new.guesses + length self.new.spare
            ≡ length self.old.guesses + length self.old.spare)) }
        ensures ended { self.old.sure ≡ false → result ≡ Ok None }
        ensures board { self.new.board ≡ self.old.board }
        ensures unseen { self.new.unseen ≡ self.old.unseen }
        ensures errors { IfErr result (λ e. e ≡ CoreError.Memory) }
    {
        if !self.sure {
            return Ok(None);
        }
        self.sure = false;
        match self.guesses.judge(entry) {
            Ok(verdict) => {
                let Ok(()) = self.window.note(entry, &verdict, &self.guesses.left) else {
                    return Err(CoreError::Memory);
                };
                self.sure = true;
                Ok(Some(verdict))
            }
            Err(Stop::Full) => Ok(None),
            Err(Stop::Memory) => Err(CoreError::Memory),
        }
    }

    /// Passes over an entry that differs. If one of the last entries alone explains it, it goes on
    /// as if that had been another, and else from what this one shows, if that can be. From there
    /// on nothing is promised but that the places stay. `Memory` is the only error.
    pub fn go_on(&mut self, entry: &Entry) -> Result<(), CoreError>
        ensures places { OnOk result (length self.new.guesses + length self.new.spare
            ≡ length self.old.guesses + length self.old.spare) }
        ensures board { self.new.board ≡ self.old.board }
        ensures unseen { self.new.unseen ≡ self.old.unseen }
        ensures errors { IfErr result (λ e. e ≡ CoreError.Memory) }
    {
        if !self.sure {
            return Ok(());
        }
        self.sure = false;
        match self.guesses.look_back(&mut self.window, entry) {
            Ok(()) => {
                self.sure = true;
                Ok(())
            }
            Err(_) => Err(CoreError::Memory),
        }
    }

    /// How many entries that were the same stand behind the one that alone explains the last entry
    /// that was passed over, with that one. `None` if no one is known to.
    pub fn explained(&self) -> Option<usize> {
        self.window.back
    }
}
