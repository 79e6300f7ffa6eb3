//! A check under way: what the lines of a record show so far, and how far they are judged.
ghost use Rattle.std.specs.Prelude.{◌≡◌, ◌+◌, ◌++◌, [], List, length, OnOk, IfOk, IfErr};
ghost use Rattle.scmi_board.specs.Lines.{line_of};
ghost use Rattle.scmi_plan.specs.Board.{Board};
ghost use Rattle.scmi_judge.specs.Judging.{Knows};
ghost use Rattle.scmi_judge.specs.declared.unseen.Unseen.{Unseen};
ghost use Rattle.scmi_check.specs.Check.{IsAtLine, IsEndWithout, IsFoundOf};
ghost use Rattle.scmi_check.specs.CheckError.{IsRefused};
ghost use Rattle.scmi_check.specs.Listener.{Grows};
ghost use Rattle.scmi_check.specs.Progress.{AreBeingJudged};
ghost use Rattle.scmi_check.specs.RecordText.{Shows, finished, nothing_shown, onto, shows_of, with_line};
ghost use Rattle.scmi_check.specs.UnderWay.{AddsLine, AddsLines, IsStop, IsStopBy, IsTold, IsUnderWay, if_counts};
ghost use Rattle.scmi_check.specs.declared.check.TheConstants.{PLACES};
ghost use Rattle.scmi_check.specs.declared.judged.Judged.{Judged as Verdicts};
ghost use Rattle.scmi_check.specs.declared.note.Note.{Note as Notes};
ghost use Rattle.scmi_check.specs.declared.record.Placed.{Placed as Entries};

use crate::check_error::CheckError;
use crate::checked::Checked;
use crate::left_out::LeftOut;
use crate::listener::Listener;
use crate::names::Names;
use crate::note::Note;
use crate::progress::Progress;
use crate::record::{Record, add_line};
use crate::so_far::SoFar;
use scmi_board::{TextLine, is_significant};
use scmi_judge::Judge;
use std::alloc::Global;

/// A check under way. What was judged and noted is with its listener: of the lines that were read
/// only what the next ones need is kept.
#[derive(Drop)]
pub(crate) struct Check<'a> {
    so_far: SoFar<'a>,
    // How many agents the board has.
    agents: u32,
    progress: Progress,
}

impl<'a> Check<'a> {
    /// No line was read, and these protocols are judged.
    pub fn new(alloc: Global, protocols: &'a [u8], agents: u32, judge: Judge) -> Check<'a>
        ensures { (may : Unseen) (board : Board) → Knows judge []
            → judge.board ≡ board → judge.unseen ≡ may
            → length judge.guesses + length judge.spare ≡ 1 + PLACES
            → agents ≡ length board.agents
            → IsUnderWay may board (nothing_shown protocols.now) [] [] result }
    {
        let so_far = SoFar::new(alloc, protocols);
        let progress = Progress::new(judge);
        Check {
            so_far,
            agents,
            progress,
        }
    }

    /// The next line, of this number: the listener is given what is found of it.
    pub fn add<N: Names, L: Listener>(
        &mut self,
        alloc: Global,
        names: &N,
        line: TextLine<'_>,
        listener: &mut L,
    ) -> Result<(), CheckError>
        ensures line { (may : Unseen) (board : Board) (all : Shows)
            (judged : List Verdicts) (notes : List Notes)
            → IsUnderWay may board all judged notes self.old
            → OnOk result (AddsLines (N.means names.now) may board all judged notes
            (if_counts (line_of line.entry)) self.new (L.judged listener.old)
            (L.judged listener.new) (L.noted listener.old) (L.noted listener.new)) }
        ensures errors { (may : Unseen) (board : Board) (all : Shows)
            (judged : List Verdicts) (notes : List Notes)
            → IsUnderWay may board all judged notes self.old
            → IfErr result (IsStopBy (N.means names.now) board all (line_of line.entry)) }
        ensures before { IfErr result (λ e. IsAtLine e → listener.new ≡ listener.old) }
    {
        if !is_significant(line.text) {
            return Ok(());
        }
        let TextLine { number, text } = line;
        match names.line(alloc, text)? {
            Some(given) => {
                let text = given.as_bytes();
                self.add_given(alloc, TextLine { number, text }, listener)
            }
            None => self.add_given(alloc, line, listener),
        }
    }

    /// The same with numbers in place of names.
    fn add_given<L: Listener>(
        &mut self,
        alloc: Global,
        line: TextLine<'_>,
        listener: &mut L,
    ) -> Result<(), CheckError>
        ensures line { (may : Unseen) (board : Board) (all : Shows)
            (judged : List Verdicts) (notes : List Notes)
            → IsUnderWay may board all judged notes self.old
            → OnOk result (AddsLine may board all judged notes (line_of line.entry)
            self.new (L.judged listener.old) (L.judged listener.new) (L.noted listener.old)
            (L.noted listener.new)) }
        ensures errors { (may : Unseen) (board : Board) (all : Shows)
            (judged : List Verdicts) (notes : List Notes)
            → IsUnderWay may board all judged notes self.old
            → IfErr result (IsStop (with_line (length board.agents) all (line_of line.entry))
            line.entry.number) }
        ensures before { IfErr result (λ e. IsAtLine e → listener.new ≡ listener.old) }
    {
        if let Err(error) = add_line(alloc, &mut self.so_far, line, self.agents) {
            return Err(CheckError::from(error.in_script(line.number)));
        }
        listener.at_line(line.text);
        self.tell(listener)
    }

    /// Judges the entries of the last line, and gives the listener what is found of it.
    fn tell<L: Listener>(&mut self, listener: &mut L) -> Result<(), CheckError>
        ensures told { (may : Unseen) (board : Board) (placed : List Entries)
            (judged : List Verdicts) (notes : List Notes)
            → self.old.agents ≡ length board.agents
            → AreBeingJudged may board placed judged self.old.progress
            → OnOk result (IsTold may board (onto placed notes (shows_of self.old.so_far))
            judged notes self.new (L.judged listener.old) (L.judged listener.new)
            (L.noted listener.old) (L.noted listener.new)) }
        ensures errors { IfErr result IsRefused }
    {
        self.progress.judge_all(self.so_far.entries(), listener)?;
        tell_notes(self.so_far.notes(), listener)?;
        self.so_far.forget();
        Ok(())
    }

    /// What is found once no line is left. `Empty` if there was no answer and no message.
    pub fn finish<L: Listener>(self, listener: &mut L) -> Result<Checked, CheckError>
        ensures found { (may : Unseen) (board : Board) (all : Shows)
            (judged : List Verdicts) (notes : List Notes)
            → IsUnderWay may board all judged notes self.entry
            → IfOk result (λ c. (remarks : List Notes)
            × IsFoundOf may board (finished all) judged (notes ++ remarks) c
            × Grows (L.noted listener.old) (L.noted listener.new) remarks) }
        ensures judged { OnOk result (L.judged listener.new ≡ L.judged listener.old) }
        ensures errors { (may : Unseen) (board : Board) (all : Shows)
            (judged : List Verdicts) (notes : List Notes)
            → IsUnderWay may board all judged notes self.entry
            → IfErr result (IsEndWithout (finished all)) }
    {
        let Check {
            so_far,
            agents: _,
            progress,
        } = self;
        let record = match so_far.finish() {
            Ok(record) => record,
            Err(_) => return Err(CheckError::Memory),
        };
        let Record { entries: _, left } = record;
        let LeftOut {
            notes,
            skipped,
            protocols,
        } = left;
        tell_notes(&notes, listener)?;
        if progress.is_empty {
            return Err(CheckError::Empty);
        }
        Ok(Checked {
            differs: progress.differs,
            unsure: progress.unsure,
            skipped,
            protocols,
        })
    }
}

/// Gives the listener notes, one after the other.
fn tell_notes<L: Listener>(notes: &[Note], listener: &mut L) -> Result<(), CheckError>
    ensures noted { OnOk result (Grows (L.noted listener.old) (L.noted listener.new) notes.now) }
    ensures judged { OnOk result (L.judged listener.new ≡ L.judged listener.old) }
    ensures errors { IfErr result IsRefused }
{
    'each: for note in notes {
        listener.left_out(note)?;
    }
    Ok(())
}
