//! The platforms that may be behind a record, one beside the other.
ghost use Rattle.std.specs.Prelude.{◌≡◌, ◌↔◌, ℕ, ◌+◌, ◌∷◌, ◌++◌, [], List, length, reverse, true, OnOk, IfErr};
ghost use Rattle.scmi_judge.specs.Exact.{AreClosed, HaveGiven, HaveGrown, HaveKept, IsOfBoard, IsTried, IsTriedAbove, AreTriedActs, IsTriedWhole};
ghost use Rattle.scmi_judge.specs.Guesses.{AreDifferent, AreFound, AreOfBoard, FindsMany, HaveBoard, IsGiven, IsIn, KeepBoard, StayFound, all_places, places};
ghost use Rattle.scmi_judge.specs.declared.entry.Entry.{Entry as Shown};
ghost use Rattle.scmi_plan.specs.Board.{Board};

use crate::entry::Entry;
use crate::place::Place;
use crate::stop::Stop;
use crate::unseen::{ACTS, Act, Step, Unseen};
use std::mem;

/// Guesses of one board, in places that are there from the start.
#[derive(Drop)]
pub(crate) struct Guesses {
    // Those of which it is still to be tried what they move on to. Between two entries these are
    // all.
    pub left: Vec<Place>,
    // Those of which it was tried.
    pub tried: Vec<Place>,
    // Those that are not left after the entry.
    pub others: Vec<Place>,
    // Places for more.
    pub spare: Vec<Place>,
    // The place of the one that is being made.
    pub made: Place,
    // What may happen that no entry shows.
    pub unseen: Unseen,
}

impl Guesses {
    /// Tries what the guesses that are left move on to, until nothing new comes.
    pub fn close(&mut self) -> Result<(), Stop>
        requires boards { HaveBoard self.old }
        requires none { self.old.tried.items ≡ [] }
        ensures kept { OnOk result
            (HaveKept self.old.unseen self.old.left.items self.new.tried.items) }
        ensures closed { OnOk result (AreClosed self.old.unseen self.new.tried.items) }
        ensures left { OnOk result (self.new.left.items ≡ []) }
        ensures found { (board : Board) (entries : List Shown)
            → AreFound self.old.unseen board entries [] self.old.left.items
            → OnOk result (AreFound self.old.unseen board entries self.new.tried.items []) }
        ensures places { OnOk result (places self.new ≡ places self.old) }
        ensures keeps { KeepBoard self.old self.new }
        ensures others { self.new.others ≡ self.old.others }
        ensures full { IfErr result (λ stop. stop ≡ Stop.Full
            → FindsMany self.old.unseen [] self.old.left.items (1 + places self.old)) }
        ensures room { IfErr result (λ stop. stop ≡ Stop.Full
            → places self.new ≡ places self.old) }
    {
        'each: while let Some(guess) = self.left.pop() {
            let tried = self.try_steps(&guess);
            let Ok(()) = self.tried.push(guess) else {
                return Err(Stop::Memory);
            };
            tried?;
        }
        Ok(())
    }

    /// Tries each step from a guess.
    fn try_steps(&mut self, guess: &Place) -> Result<(), Stop>
        requires boards { (board : Board) × AreOfBoard board self.old
            × (guess.now.platform.board ≡ board) }
        ensures whole { OnOk result (IsTriedWhole self.old.unseen guess.now
            ((self.old.tried.items ++ guess.now ∷ []) ++ self.new.left.items)) }
        ensures grown { OnOk result
            (HaveGrown self.old.unseen guess.now self.old.left.items self.new.left.items) }
        ensures found { OnOk result (StayFound self.old.unseen guess.now
            self.old.tried.items self.old.left.items self.new.left.items) }
        ensures places { OnOk result (places self.new ≡ places self.old) }
        ensures keeps { KeepBoard self.old self.new }
        ensures tried { self.new.tried ≡ self.old.tried }
        ensures others { self.new.others ≡ self.old.others }
        ensures full { IfErr result (λ stop. stop ≡ Stop.Full
            → FindsMany self.old.unseen (self.old.tried.items ++ guess.now ∷ [])
            self.old.left.items (2 + places self.old)) }
        ensures room { IfErr result (λ stop. stop ≡ Stop.Full
            → places self.new ≡ places self.old) }
    {
        self.try_step(guess, Step::Complete)?;
        self.try_step(guess, Step::Refuse)?;
        self.try_acts(guess)?;
        Ok(())
    }

    /// Tries what may happen to each agent, and to each outstanding command.
    fn try_acts(&mut self, guess: &Place) -> Result<(), Stop>
        requires boards { (board : Board) × AreOfBoard board self.old
            × (guess.now.platform.board ≡ board) }
        ensures acts { OnOk result (AreTriedActs self.old.unseen guess.now
            ((self.old.tried.items ++ guess.now ∷ []) ++ self.new.left.items)) }
        ensures grown { OnOk result
            (HaveGrown self.old.unseen guess.now self.old.left.items self.new.left.items) }
        ensures found { OnOk result (StayFound self.old.unseen guess.now
            self.old.tried.items self.old.left.items self.new.left.items) }
        ensures places { OnOk result (places self.new ≡ places self.old) }
        ensures keeps { KeepBoard self.old self.new }
        ensures tried { self.new.tried ≡ self.old.tried }
        ensures others { self.new.others ≡ self.old.others }
        ensures full { IfErr result (λ stop. stop ≡ Stop.Full
            → FindsMany self.old.unseen (self.old.tried.items ++ guess.now ∷ [])
            self.old.left.items (2 + places self.old)) }
        ensures room { IfErr result (λ stop. stop ≡ Stop.Full
            → places self.new ≡ places self.old) }
    {
        'acts: for act in &ACTS {
            self.try_each(guess, *act)?;
        }
        Ok(())
    }

    /// Tries this of each agent, or of the command at each place.
    fn try_each(&mut self, guess: &Place, act: Act) -> Result<(), Stop>
        requires boards { (board : Board) × AreOfBoard board self.old
            × (guess.now.platform.board ≡ board) }
        ensures each { OnOk result (IsTriedAbove self.old.unseen guess.now act 0
            ((self.old.tried.items ++ guess.now ∷ []) ++ self.new.left.items)) }
        ensures grown { OnOk result
            (HaveGrown self.old.unseen guess.now self.old.left.items self.new.left.items) }
        ensures found { OnOk result (StayFound self.old.unseen guess.now
            self.old.tried.items self.old.left.items self.new.left.items) }
        ensures places { OnOk result (places self.new ≡ places self.old) }
        ensures keeps { KeepBoard self.old self.new }
        ensures tried { self.new.tried ≡ self.old.tried }
        ensures others { self.new.others ≡ self.old.others }
        ensures full { IfErr result (λ stop. stop ≡ Stop.Full
            → FindsMany self.old.unseen (self.old.tried.items ++ guess.now ∷ [])
            self.old.left.items (2 + places self.old)) }
        ensures room { IfErr result (λ stop. stop ≡ Stop.Full
            → places self.new ≡ places self.old) }
    {
        let mut number = act.count(guess.get().platform.agents());
        'numbers: while number > 0 {
            self.try_step(guess, act.step(number))?;
            number -= 1;
        }
        Ok(())
    }

    /// Tries a step from a guess. What it moves on to is left, unless it was there before.
    fn try_step(&mut self, guess: &Place, step: Step) -> Result<(), Stop>
        requires boards { (board : Board) × AreOfBoard board self.old
            × (guess.now.platform.board ≡ board) }
        ensures moves { OnOk result (IsTried self.old.unseen guess.now step
            ((self.old.tried.items ++ guess.now ∷ []) ++ self.new.left.items)) }
        ensures grown { OnOk result
            (HaveGrown self.old.unseen guess.now self.old.left.items self.new.left.items) }
        ensures found { OnOk result (StayFound self.old.unseen guess.now
            self.old.tried.items self.old.left.items self.new.left.items) }
        ensures places { OnOk result (places self.new ≡ places self.old) }
        ensures keeps { KeepBoard self.old self.new }
        ensures tried { self.new.tried ≡ self.old.tried }
        ensures others { self.new.others ≡ self.old.others }
        ensures full { IfErr result (λ stop. stop ≡ Stop.Full
            → FindsMany self.old.unseen (self.old.tried.items ++ guess.now ∷ [])
            self.old.left.items (2 + places self.old)) }
        ensures room { IfErr result (λ stop. stop ≡ Stop.Full
            → places self.new ≡ places self.old) }
    {
        if !guess.get().can_come(step, self.unseen) {
            return Ok(());
        }
        self.made.copy_from(guess);
        if !self.made.make(step, self.unseen) {
            return Ok(());
        }
        if self.made.is_same(guess) {
            return Ok(());
        }
        if has(&self.tried, &self.made) {
            return Ok(());
        }
        if has(&self.left, &self.made) {
            return Ok(());
        }
        self.keep_made()?;
        Ok(())
    }

    /// The guess that was made is left, if a place is free for another.
    pub fn keep_made(&mut self) -> Result<(), Stop>
        requires boards { HaveBoard self.old }
        ensures kept { OnOk result
            (self.new.left.items ≡ self.old.left.items ++ self.old.made ∷ []) }
        ensures places { OnOk result (places self.new ≡ places self.old) }
        ensures keeps { KeepBoard self.old self.new }
        ensures tried { self.new.tried ≡ self.old.tried }
        ensures others { self.new.others ≡ self.old.others }
        ensures full { IfErr result (λ stop. stop ≡ Stop.Full → self.old.spare.items ≡ []) }
        ensures room { IfErr result (λ stop. stop ≡ Stop.Full
            → places self.new ≡ places self.old) }
    {
        let Some(place) = self.spare.pop() else {
            return Err(Stop::Full);
        };
        self.leave(place)
    }

    /// The guess that was made is left, and this is the place of the next.
    fn leave(&mut self, place: Place) -> Result<(), Stop>
        requires boards { (board : Board) × AreOfBoard board self.old
            × (place.platform.board ≡ board) }
        ensures kept { OnOk result
            (self.new.left.items ≡ self.old.left.items ++ self.old.made ∷ []) }
        ensures keeps { KeepBoard self.old self.new }
        ensures tried { self.new.tried ≡ self.old.tried }
        ensures others { self.new.others ≡ self.old.others }
        ensures spare { self.new.spare ≡ self.old.spare }
        ensures memory { IfErr result (λ stop. stop ≡ Stop.Memory) }
    {
        let made = mem::replace(&mut self.made, place);
        let Ok(()) = self.left.push(made) else {
            return Err(Stop::Memory);
        };
        Ok(())
    }

    /// Leaves those of the guesses that were tried that give an entry, as they are after it.
    pub fn give(&mut self, entry: &Entry) -> Result<(), Stop>
        requires boards { HaveBoard self.old }
        requires none { self.old.left.items ≡ [] }
        ensures given { OnOk result
            (HaveGiven self.old.unseen self.old.tried.items entry.now self.new.left.items) }
        ensures apart { OnOk result (self.new.left.items ≡ [] → self.new.others.items
            ≡ self.old.others.items ++ reverse self.old.tried.items) }
        ensures different { OnOk result (AreDifferent self.new.left.items) }
        ensures tried { OnOk result (self.new.tried.items ≡ []) }
        ensures places { OnOk result (all_places self.new ≡ all_places self.old) }
        ensures keeps { KeepBoard self.old self.new }
        ensures memory { IfErr result (λ stop. stop ≡ Stop.Memory) }
    {
        'each: while let Some(guess) = self.tried.pop() {
            self.give_by(guess, entry)?;
        }
        Ok(())
    }

    /// Leaves a guess as it is after an entry, if it gives that and is not left yet.
    fn give_by(&mut self, guess: Place, entry: &Entry) -> Result<(), Stop>
        requires boards { (board : Board) × AreOfBoard board self.old
            × (guess.platform.board ≡ board) }
        ensures given { OnOk result (IsGiven self.old.unseen guess entry.now
            self.old.left.items self.new.left.items) }
        ensures apart { OnOk result (self.new.left.items ≡ [] → (self.old.left.items ≡ [])
            × (self.new.others.items ≡ self.old.others.items ++ guess ∷ [])) }
        ensures different { OnOk result
            (AreDifferent self.old.left.items → AreDifferent self.new.left.items) }
        ensures places { OnOk result (all_places self.new ≡ 1 + all_places self.old) }
        ensures keeps { KeepBoard self.old self.new }
        ensures tried { self.new.tried ≡ self.old.tried }
        ensures memory { IfErr result (λ stop. stop ≡ Stop.Memory) }
    {
        self.made.copy_from(&guess);
        if self.made.show(entry, self.unseen) && !has(&self.left, &self.made) {
            return self.leave(guess);
        }
        let Ok(()) = self.others.push(guess) else {
            return Err(Stop::Memory);
        };
        Ok(())
    }

    /// The places of the others are free again.
    pub fn free_others(&mut self) -> Result<(), Stop>
        requires boards { HaveBoard self.old }
        ensures none { OnOk result (self.new.others.items ≡ []) }
        ensures places { OnOk result (places self.new ≡ all_places self.old) }
        ensures keeps { KeepBoard self.old self.new }
        ensures left { self.new.left ≡ self.old.left }
        ensures tried { self.new.tried ≡ self.old.tried }
        ensures memory { IfErr result (λ stop. stop ≡ Stop.Memory) }
    {
        'each: while let Some(guess) = self.others.pop() {
            let Ok(()) = self.spare.push(guess) else {
                return Err(Stop::Memory);
            };
        }
        Ok(())
    }

    /// The others are left again, the last of them first.
    pub fn keep_others(&mut self) -> Result<(), Stop>
        requires boards { HaveBoard self.old }
        ensures left { OnOk result (self.new.left.items
            ≡ self.old.left.items ++ reverse self.old.others.items) }
        ensures none { OnOk result (self.new.others.items ≡ []) }
        ensures places { OnOk result (places self.new ≡ all_places self.old) }
        ensures keeps { KeepBoard self.old self.new }
        ensures tried { self.new.tried ≡ self.old.tried }
        ensures memory { IfErr result (λ stop. stop ≡ Stop.Memory) }
    {
        'each: while let Some(guess) = self.others.pop() {
            let Ok(()) = self.left.push(guess) else {
                return Err(Stop::Memory);
            };
        }
        Ok(())
    }
}

/// Whether a guess is among others of its board.
pub(crate) fn has(guesses: &[Place], guess: &Place) -> bool
    requires { IsOfBoard guess.now.platform.board guesses.now }
    ensures { (result ≡ true) ↔ IsIn guess.now guesses.now }
{
    'each: for one in guesses {
        if one.is_same(guess) {
            return true;
        }
    }
    false
}
