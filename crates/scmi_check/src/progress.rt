//! The entries of a record, judged as they are read.
ghost use Rattle.std.specs.Prelude.{◌≡◌, ◌+◌, ◌++◌, ◌∷◌, ◌||◌, ◌&&◌, not, [], Bool, List, None, length, OnOk, IfErr};
ghost use Rattle.scmi_plan.specs.Board.{Board};
ghost use Rattle.scmi_judge.specs.Judging.{Knows};
ghost use Rattle.scmi_judge.specs.Shown.{is_from_platform};
ghost use Rattle.scmi_judge.specs.declared.unseen.Unseen.{Unseen};
ghost use Rattle.scmi_check.specs.CheckError.{IsRefused};
ghost use Rattle.scmi_check.specs.Progress.{AreBeingJudged, FindsMore, at_entry};
ghost use Rattle.scmi_check.specs.declared.check.TheConstants.{PLACES};
ghost use Rattle.scmi_check.specs.declared.judged.Judged.{Judged as Verdicts};
ghost use Rattle.scmi_check.specs.declared.record.Placed.{Placed as Entries};

use crate::check_error::CheckError;
use crate::judged::{Judged, judge_one};
use crate::last_lines::LastLines;
use crate::listener::Listener;
use crate::record::Placed;
use scmi_judge::{Entry, Judge};

/// How far the entries of a record are judged.
#[derive(Drop)]
pub(crate) struct Progress {
    judge: Judge,
    // The lines to which the judge may look back.
    lines: LastLines,
    // Whether no entry was of the platform.
    pub is_empty: bool,
    // Whether one that was judged differs, but by a rule of the profile's own.
    pub differs: bool,
    // The line of the first entry that is not judged, since more platforms may be behind it than
    // there are places.
    pub unsure: Option<u32>,
}

impl Progress {
    /// No entry was judged.
    pub fn new(judge: Judge) -> Progress
        ensures { (may : Unseen) (board : Board) → Knows judge []
            → judge.board ≡ board → judge.unseen ≡ may
            → length judge.guesses + length judge.spare ≡ 1 + PLACES
            → AreBeingJudged may board [] [] result }
    {
        Progress {
            judge,
            lines: LastLines::new(),
            is_empty: true,
            differs: false,
            unsure: None,
        }
    }

    /// Judges entries, one after the other.
    pub fn judge_all<L: Listener>(
        &mut self,
        entries: &[Placed],
        listener: &mut L,
    ) -> Result<(), CheckError>
        ensures judged { (may : Unseen) (board : Board) (before : List Entries)
            (judged : List Verdicts) → AreBeingJudged may board before judged self.old
            → OnOk result (FindsMore may board (before ++ entries.now) judged self.new
            (L.judged listener.old) (L.judged listener.new)) }
        ensures noted { OnOk result (L.noted listener.new ≡ L.noted listener.old) }
        ensures errors { IfErr result IsRefused }
    {
        'each: for one in entries {
            self.judge(one, listener)?;
        }
        Ok(())
    }

    /// Judges an entry, and gives it to the listener with the verdict. It is passed over once one
    /// before it was not judged.
    fn judge<L: Listener>(&mut self, one: &Placed, listener: &mut L) -> Result<(), CheckError>
        ensures judged { (may : Unseen) (board : Board) (before : List Entries)
            (judged : List Verdicts) → AreBeingJudged may board before judged self.old
            → OnOk result (FindsMore may board (before ++ one.now ∷ []) judged self.new
            (L.judged listener.old) (L.judged listener.new)) }
        ensures noted { OnOk result (L.noted listener.new ≡ L.noted listener.old) }
        ensures errors { IfErr result IsRefused }
    {
        self.is_empty = is_still_empty(self.is_empty, &one.entry);
        match self.unsure {
            Some(_line) => Ok(()),
            None => self.judge_next(one, listener),
        }
    }

    /// The same, while all before it were judged.
    fn judge_next<L: Listener>(&mut self, one: &Placed, listener: &mut L) -> Result<(), CheckError>
        requires sure { self.old.unsure ≡ None }
        ensures judged { (may : Unseen) (board : Board) (before : List Entries)
            (judged : List Verdicts) (empty : Bool)
            → self.old.is_empty ≡ empty && not (is_from_platform one.now.entry)
            → AreBeingJudged may board before judged (at_entry self.old empty)
            → OnOk result (FindsMore may board (before ++ one.now ∷ []) judged self.new
            (L.judged listener.old) (L.judged listener.new)) }
        ensures noted { OnOk result (L.noted listener.new ≡ L.noted listener.old) }
        ensures errors { IfErr result IsRefused }
    {
        let Some(verdict) = judge_one(&mut self.judge, &one.entry)? else {
            self.unsure = Some(one.line);
            return Ok(());
        };
        let judged = Judged {
            line: one.line,
            entry: one.entry.copy(),
            verdict,
        };
        let differs = judged.differs();
        let any = either(self.differs, differs);
        self.differs = any;
        let unless = self.lines.note(one.line, differs, self.judge.explained());
        listener.found(&judged, unless)
    }
}

/// Whether no entry was of the platform, with one more.
fn is_still_empty(empty: bool, entry: &Entry) -> bool
    ensures { result ≡ empty && not (is_from_platform entry.now) }
{
    empty && !entry.is_from_platform()
}

fn either(one: bool, other: bool) -> bool
    ensures { result ≡ one || other }
{
    one || other
}
