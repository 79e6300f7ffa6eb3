//! The entries of a record with the verdicts on them.
ghost use Rattle.std.specs.Prelude.{◌≡◌, ◌+◌, ◌∷◌, List, length, None, Ok, IfOk, IfErr, IfSome};
ghost use Rattle.scmi_core.specs.declared.core_error.CoreError.TheVariants.{Memory};
ghost use Rattle.scmi_judge.specs.Behind.{HasLegalHistory};
ghost use Rattle.scmi_judge.specs.Judging.{AreTooMany, Knows};
ghost use Rattle.scmi_judge.specs.declared.entry.Entry.{Entry as Shown};
ghost use Rattle.scmi_check.specs.Finding.{Fits, finding_of, judged_as};
ghost use Rattle.scmi_check.specs.Judged.{does_differ};

use crate::finding::Finding;
use scmi_core::CoreError;
use scmi_judge::{Entry, Judge, Verdict, in_place};

/// An entry of a record at its line, with the verdict on it.
#[derive(Drop)]
pub struct Judged {
    pub line: u32,
    pub entry: Entry,
    pub verdict: Verdict,
}

impl Judged {
    /// The same again. It takes no memory.
    pub(crate) fn copy(&self) -> Judged
        ensures { result ≡ self.now }
    {
        Judged {
            line: self.line,
            entry: self.entry.copy(),
            verdict: copy_of(&self.verdict),
        }
    }

    /// What is found of the entry.
    pub fn finding(&self) -> Finding
        ensures { result ≡ finding_of self.now.entry self.now.verdict }
    {
        Finding::of(&self.entry, &self.verdict)
    }

    /// Whether the entry differs, but not by a rule of the profile's own.
    pub(crate) fn differs(&self) -> bool
        ensures { result ≡ does_differ self.now }
    {
        match self.finding() {
            Finding::Differs => true,
            Finding::Same | Finding::Own(_) => false,
        }
    }
}

/// The same verdict again.
fn copy_of(verdict: &Verdict) -> Verdict
    ensures { result ≡ verdict.now }
{
    match verdict {
        Verdict::Answer(due) => Verdict::Answer(due.copy()),
        Verdict::Message(due) => Verdict::Message(due.copy()),
        Verdict::Same => Verdict::Same,
        Verdict::NoAgent => Verdict::NoAgent,
        Verdict::NoMessage => Verdict::NoMessage,
        Verdict::NoReport => Verdict::NoReport,
    }
}

/// Judges the next entry of a record. `None` if more platforms may be behind it than there are
/// places. `Memory` is the only error.
pub(crate) fn judge_one(judge: &mut Judge, entry: &Entry) -> Result<Option<Verdict>, CoreError>
    ensures fits { (entries : List Shown) → Knows judge.old entries
        → IfOk result (λ o. IfSome o (λ verdict. Fits (finding_of entry.now verdict)
        → Knows judge.new (judged_as entry.now verdict ∷ entries))) }
    ensures legal { (entries : List Shown) → Knows judge.old entries
        → IfOk result (λ o. IfSome o (λ verdict. Fits (finding_of entry.now verdict)
        → HasLegalHistory judge.old.unseen judge.old.board
        (judged_as entry.now verdict ∷ entries))) }
    ensures differs { (entries : List Shown) → Knows judge.old entries
        → IfOk result (λ o. IfSome o (λ verdict. ¬ (Fits (finding_of entry.now verdict))
        → ¬ (HasLegalHistory judge.old.unseen judge.old.board (entry.now ∷ entries)))) }
    ensures many { (entries : List Shown) → Knows judge.old entries → result ≡ Ok None
        → AreTooMany judge.old entries }
    ensures places { IfOk result (λ o. IfSome o (λ verdict.
        length judge.new.guesses + length judge.new.spare
        ≡ length judge.old.guesses + length judge.old.spare)) }
    ensures board { judge.new.board ≡ judge.old.board }
    ensures unseen { judge.new.unseen ≡ judge.old.unseen }
    ensures errors { IfErr result (λ e. e ≡ Memory) }
{
    let Some(verdict) = judge.judge(entry)? else {
        return Ok(None);
    };
    match Finding::of(entry, &verdict) {
        Finding::Same => Ok(Some(verdict)),
        Finding::Own(_) => match judge.judge(&in_place(entry, &verdict))? {
            Some(_) => Ok(Some(verdict)),
            None => Ok(None),
        },
        Finding::Differs => {
            judge.go_on(entry)?;
            Ok(Some(verdict))
        }
    }
}
