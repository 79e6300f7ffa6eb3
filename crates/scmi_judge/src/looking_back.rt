//! The search for the one earlier entry that explains an entry that differs. Nothing is promised of
//! the guesses from there on but that they are of the board.
ghost use Rattle.std.specs.Prelude.{◌≡◌, ◌+◌, [], true, IfErr, IfOk, OnOk};
ghost use Rattle.scmi_plan.specs.Board.{Board};
ghost use Rattle.scmi_judge.specs.Exact.{IsOfBoard};
ghost use Rattle.scmi_judge.specs.Guesses.{AreOfBoard, HaveBoard, KeepBoard, all_places, places};
ghost use Rattle.scmi_judge.specs.Window.{IsOfWindow};

use crate::due::in_place;
use crate::entry::Entry;
use crate::guesses::Guesses;
use crate::place::Place;
use crate::stop::Stop;
use crate::verdict::Verdict;
use crate::window::Window;
use scmi_codec::Answer;
use std::mem;

impl Guesses {
    /// Goes on after an entry that differs: as if the last entry had been another that alone explains
    /// it, if there is one, and else by what the entry shows.
    pub fn look_back(&mut self, window: &mut Window, entry: &Entry) -> Result<(), Stop>
        requires boards { (board : Board) × AreOfBoard board self.old
            × IsOfWindow board window.old }
        requires tried { self.old.tried.items ≡ [] }
        requires others { self.old.others.items ≡ [] }
        ensures keeps { KeepBoard self.old self.new }
        ensures window { (board : Board) → IsOfWindow board window.old
            → IsOfWindow board window.new }
        ensures tried { OnOk result (self.new.tried.items ≡ []) }
        ensures others { OnOk result (self.new.others.items ≡ []) }
        ensures places { OnOk result (places self.new ≡ places self.old) }
        ensures memory { IfErr result (λ stop. stop ≡ Stop.Memory) }
    {
        window.back = self.explain(window, entry)?;
        window.begin(&self.left)
    }

    /// How many entries back the last one is that explains an entry: then the guesses that are left
    /// are those behind the entry by that explanation. If none does, the entry is passed over.
    fn explain(&mut self, window: &Window, entry: &Entry) -> Result<Option<usize>, Stop>
        requires boards { (board : Board) × AreOfBoard board self.old
            × IsOfWindow board window.now }
        requires tried { self.old.tried.items ≡ [] }
        requires others { self.old.others.items ≡ [] }
        ensures keeps { KeepBoard self.old self.new }
        ensures tried { OnOk result (self.new.tried.items ≡ []) }
        ensures others { OnOk result (self.new.others.items ≡ []) }
        ensures places { OnOk result (places self.new ≡ places self.old) }
        ensures memory { IfErr result (λ stop. stop ≡ Stop.Memory) }
    {
        if window.between.guesses.is_empty() {
            self.pass_over(entry)?;
            return Ok(None);
        }
        'entries: for before in 0..window.len() {
            let back = before.saturating_add(1);
            if self.is_explained(window, back, entry)? {
                return Ok(Some(back));
            }
        }
        self.come_again(window, entry)?;
        Ok(None)
    }

    /// Comes to an entry again, from what was kept, and passes it over.
    fn come_again(&mut self, window: &Window, entry: &Entry) -> Result<(), Stop>
        requires boards { (board : Board) × AreOfBoard board self.old
            × IsOfWindow board window.now }
        ensures keeps { KeepBoard self.old self.new }
        ensures tried { OnOk result (self.new.tried.items ≡ []) }
        ensures others { OnOk result (self.new.others.items ≡ []) }
        ensures places { OnOk result (places self.new ≡ all_places self.old) }
        ensures memory { IfErr result (λ stop. stop ≡ Stop.Memory) }
    {
        self.go_back(&window.between.guesses)?;
        // There were places enough before, so it does not go back once more.
        if !self.gives_all(&window.newer, window.newer.len())? {
            return self.go_back(&window.between.guesses);
        }
        if !self.pass_on(entry)? {
            return self.go_back(&window.between.guesses);
        }
        Ok(())
    }

    /// Whether the entry that is noted so many back explains an entry: whether all entries behind it
    /// are the same, and this one, if it was another.
    fn is_explained(&mut self, window: &Window, back: usize, entry: &Entry) -> Result<bool, Stop>
        requires boards { (board : Board) × AreOfBoard board self.old
            × IsOfWindow board window.now }
        ensures keeps { KeepBoard self.old self.new }
        ensures places { OnOk result (all_places self.new ≡ all_places self.old) }
        ensures tried { IfOk result (λ fits. fits ≡ true → self.new.tried.items ≡ []) }
        ensures others { IfOk result (λ fits. fits ≡ true → self.new.others.items ≡ []) }
        ensures memory { IfErr result (λ stop. stop ≡ Stop.Memory) }
    {
        let newer = window.newer.len();
        if back <= newer {
            self.go_back(&window.between.guesses)?;
            if !self.gives_all(&window.newer, newer.saturating_sub(back))? {
                return Ok(false);
            }
            return self.gives(entry);
        }
        self.go_back(&window.before.guesses)?;
        if !self.gives_all(&window.older, window.len().saturating_sub(back))? {
            return Ok(false);
        }
        if !self.gives_all(&window.newer, newer)? {
            return Ok(false);
        }
        self.gives(entry)
    }

    /// Whether entries come the same, one after the other, if the one at an index was another.
    fn gives_all(&mut self, entries: &[Entry], other: usize) -> Result<bool, Stop>
        requires boards { HaveBoard self.old }
        requires tried { self.old.tried.items ≡ [] }
        requires others { self.old.others.items ≡ [] }
        ensures keeps { KeepBoard self.old self.new }
        ensures places { OnOk result (all_places self.new ≡ all_places self.old) }
        ensures tried { IfOk result (λ fits. fits ≡ true → self.new.tried.items ≡ []) }
        ensures others { IfOk result (λ fits. fits ≡ true → self.new.others.items ≡ []) }
        ensures memory { IfErr result (λ stop. stop ≡ Stop.Memory) }
    {
        'entries: for index in 0..entries.len() {
            let fits = if index == other {
                self.doubt(&entries[index])?
            } else {
                self.gives(&entries[index])?
            };
            if !fits {
                return Ok(false);
            }
        }
        Ok(true)
    }

    /// Whether an entry comes the same. If more platforms may be behind it than there are places, it
    /// does not.
    fn gives(&mut self, entry: &Entry) -> Result<bool, Stop>
        requires boards { HaveBoard self.old }
        requires tried { self.old.tried.items ≡ [] }
        requires others { self.old.others.items ≡ [] }
        ensures keeps { KeepBoard self.old self.new }
        ensures places { OnOk result (all_places self.new ≡ all_places self.old) }
        ensures tried { IfOk result (λ fits. fits ≡ true → self.new.tried.items ≡ []) }
        ensures others { IfOk result (λ fits. fits ≡ true → self.new.others.items ≡ []) }
        ensures memory { IfErr result (λ stop. stop ≡ Stop.Memory) }
    {
        match self.judge(entry) {
            Ok(Verdict::Same) => Ok(true),
            Ok(_) | Err(Stop::Full) => Ok(false),
            Err(Stop::Memory) => Err(Stop::Memory),
        }
    }

    /// Passes over an entry without a look at what it shows; `false` if the platform gives nothing
    /// there, or if more platforms may be behind it than there are places.
    fn doubt(&mut self, entry: &Entry) -> Result<bool, Stop>
        requires boards { HaveBoard self.old }
        requires tried { self.old.tried.items ≡ [] }
        requires others { self.old.others.items ≡ [] }
        ensures keeps { KeepBoard self.old self.new }
        ensures places { OnOk result (all_places self.new ≡ all_places self.old) }
        ensures tried { IfOk result (λ fits. fits ≡ true → self.new.tried.items ≡ []) }
        ensures others { IfOk result (λ fits. fits ≡ true → self.new.others.items ≡ []) }
        ensures memory { IfErr result (λ stop. stop ≡ Stop.Memory) }
    {
        if !entry.is_from_platform() {
            return Ok(false);
        }
        // An answer that shows no value.
        self.pass_on(&in_place(entry, &Verdict::Answer(Answer::Released)))
    }

    /// Passes over an entry as one that differs.
    fn pass_on(&mut self, entry: &Entry) -> Result<bool, Stop>
        requires boards { HaveBoard self.old }
        requires tried { self.old.tried.items ≡ [] }
        requires others { self.old.others.items ≡ [] }
        ensures keeps { KeepBoard self.old self.new }
        ensures places { OnOk result (all_places self.new ≡ all_places self.old) }
        ensures tried { IfOk result (λ fits. fits ≡ true → self.new.tried.items ≡ []) }
        ensures others { IfOk result (λ fits. fits ≡ true → self.new.others.items ≡ []) }
        ensures memory { IfErr result (λ stop. stop ≡ Stop.Memory) }
    {
        match self.close() {
            Ok(()) => {}
            Err(Stop::Full) => return Ok(false),
            Err(Stop::Memory) => return Err(Stop::Memory),
        }
        mem::swap(&mut self.left, &mut self.tried);
        self.pass_over(entry)?;
        Ok(true)
    }

    /// Leaves these guesses alone, if they may all go on.
    fn go_back(&mut self, guesses: &[Place]) -> Result<(), Stop>
        requires boards { (board : Board) × AreOfBoard board self.old
            × IsOfBoard board guesses.now }
        ensures keeps { KeepBoard self.old self.new }
        ensures tried { OnOk result (self.new.tried.items ≡ []) }
        ensures others { OnOk result (self.new.others.items ≡ []) }
        ensures places { OnOk result (places self.new ≡ all_places self.old) }
        ensures memory { IfErr result (λ stop. stop ≡ Stop.Memory) }
    {
        self.free_all()?;
        'each: for guess in guesses {
            self.put_back(guess)?;
        }
        Ok(())
    }

    /// One more guess is left, if it may go on.
    fn put_back(&mut self, guess: &Place) -> Result<(), Stop>
        requires boards { (board : Board) × AreOfBoard board self.old
            × (guess.now.platform.board ≡ board) }
        ensures keeps { KeepBoard self.old self.new }
        ensures tried { self.new.tried ≡ self.old.tried }
        ensures places { OnOk result (places self.new ≡ places self.old) }
        ensures others { self.new.others ≡ self.old.others }
        ensures memory { IfErr result (λ stop. stop ≡ Stop.Memory) }
    {
        self.made.copy_from(guess);
        self.keep_new()
    }

    /// No guess is left, and all places are free.
    fn free_all(&mut self) -> Result<(), Stop>
        requires boards { HaveBoard self.old }
        ensures keeps { KeepBoard self.old self.new }
        ensures left { OnOk result (self.new.left.items ≡ []) }
        ensures tried { OnOk result (self.new.tried.items ≡ []) }
        ensures others { OnOk result (self.new.others.items ≡ []) }
        ensures places { OnOk result (places self.new ≡ all_places self.old) }
        ensures memory { IfErr result (λ stop. stop ≡ Stop.Memory) }
    {
        self.free_others()?;
        mem::swap(&mut self.left, &mut self.others);
        self.free_others()?;
        mem::swap(&mut self.tried, &mut self.others);
        self.free_others()
    }
}
