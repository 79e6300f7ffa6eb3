//! The judging of an entry by all platforms that may be behind those before it.
ghost use Rattle.std.specs.Prelude.{◌≡◌, ◌≢◌, ◌+◌, ◌∷◌, [], List, IfOk, IfErr, OnOk};
ghost use Rattle.scmi_plan.specs.Board.{Board};
ghost use Rattle.scmi_judge.specs.Behind.{HasLegalHistory};
ghost use Rattle.scmi_judge.specs.Due.{IsDue};
ghost use Rattle.scmi_judge.specs.Exact.{AreExact};
ghost use Rattle.scmi_judge.specs.Guesses.{AreDifferent, FindsMany, HaveBoard, KeepBoard, all_places, places};
ghost use Rattle.scmi_judge.specs.declared.entry.Entry.{Entry as Shown};
ghost use Rattle.scmi_judge.specs.declared.verdict.Verdict.TheVariants.{Same};

use crate::entry::Entry;
use crate::guesses::Guesses;
use crate::stop::Stop;
use crate::verdict::Verdict;

impl Guesses {
    /// Judges the next entry: leaves what gives it, or, if nothing does, what was left before and
    /// what that moves on to.
    pub fn judge(&mut self, entry: &Entry) -> Result<Verdict, Stop>
        requires boards { HaveBoard self.old }
        requires tried { self.old.tried.items ≡ [] }
        requires others { self.old.others.items ≡ [] }
        ensures exact { (board : Board) (entries : List Shown)
            → AreExact self.old.unseen board entries self.old.left.items
            → IfOk result (λ verdict. verdict ≡ Same
            → AreExact self.old.unseen board (entry.now ∷ entries) self.new.left.items) }
        ensures different { IfOk result (λ verdict. verdict ≡ Same
            → AreDifferent self.new.left.items) }
        ensures some { IfOk result (λ verdict. verdict ≡ Same → self.new.left.items ≢ []) }
        ensures lost { (board : Board) (entries : List Shown)
            → AreExact self.old.unseen board entries self.old.left.items
            → IfOk result (λ verdict. verdict ≢ Same
            → AreExact self.old.unseen board (entry.now ∷ entries) []) }
        ensures stays { (board : Board) (entries : List Shown)
            → AreExact self.old.unseen board entries self.old.left.items
            → AreDifferent self.old.left.items → IfOk result (λ verdict. verdict ≢ Same
            → AreExact self.old.unseen board entries self.new.left.items
            × AreDifferent self.new.left.items) }
        ensures due { (board : Board) (entries : List Shown)
            → AreExact self.old.unseen board entries self.old.left.items
            → IfOk result (λ verdict. IsDue verdict entry.now
            (λ due. HasLegalHistory self.old.unseen board (due ∷ entries))) }
        ensures tried { OnOk result (self.new.tried.items ≡ []) }
        ensures others { OnOk result (self.new.others.items ≡ []) }
        ensures places { OnOk result (places self.new ≡ places self.old) }
        ensures keeps { KeepBoard self.old self.new }
        ensures full { IfErr result (λ stop. stop ≡ Stop.Full
            → FindsMany self.old.unseen [] self.old.left.items (1 + places self.old)) }
        ensures room { IfErr result (λ stop. stop ≡ Stop.Full
            → all_places self.new ≡ all_places self.old) }
    {
        self.close()?;
        self.give(entry)?;
        if !self.left.is_empty() {
            self.free_others()?;
            return Ok(Verdict::Same);
        }
        let due = self.due(entry);
        self.keep_others()?;
        Ok(due)
    }
}
