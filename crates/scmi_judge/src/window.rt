//! The last entries that were the same.
ghost use Rattle.std.specs.Prelude.{◌≡◌, IfErr};
ghost use Rattle.scmi_plan.specs.Board.{Board};
ghost use Rattle.scmi_judge.specs.Exact.{IsOfBoard};
ghost use Rattle.scmi_judge.specs.Window.{IsOfWindow};

use crate::entry::Entry;
use crate::kept::Kept;
use crate::place::Place;
use crate::stop::Stop;
use crate::verdict::Verdict;
use std::alloc::Global;
use std::mem;

/// So many entries are noted until the guesses are kept again.
const NOTED: usize = 16;

/// The last entries that were the same, 16 of them at least, if there are so many, with the guesses
/// before them: one of these entries may explain one that differs.
#[derive(Drop)]
pub(crate) struct Window {
    // What was left before the older entries.
    pub before: Kept,
    pub older: Vec<Entry>,
    // What was left before the newer ones.
    pub between: Kept,
    pub newer: Vec<Entry>,
    // How many entries before the last one that differed the one is that explains it.
    pub back: Option<usize>,
}

impl Window {
    /// No entry is noted, and there is no place for a guess.
    pub fn new(alloc: Global) -> Window
        ensures { (board : Board) → IsOfWindow board result }
    {
        Window {
            before: Kept::new(alloc),
            older: Vec::new(alloc),
            between: Kept::new(alloc),
            newer: Vec::new(alloc),
            back: None,
        }
    }

    /// One place more for each time, before the first entry, at which these guesses are left.
    pub fn add(&mut self, before: Place, between: Place, left: &[Place]) -> Result<(), Stop>
        requires { (board : Board) × IsOfWindow board self.old × IsOfBoard board left.now
            × (before.platform.board ≡ board) × (between.platform.board ≡ board) }
        ensures boards { (board : Board) → IsOfWindow board self.old
            → before.platform.board ≡ board → between.platform.board ≡ board
            → IsOfWindow board self.new }
        ensures memory { IfErr result (λ stop. stop ≡ Stop.Memory) }
    {
        self.before.add(before)?;
        self.between.add(between)?;
        self.begin(left)
    }

    /// The entries that come are noted behind these guesses, and none before.
    pub fn begin(&mut self, guesses: &[Place]) -> Result<(), Stop>
        requires { (board : Board) × IsOfWindow board self.old × IsOfBoard board guesses.now }
        ensures boards { (board : Board) → IsOfWindow board self.old
            → IsOfWindow board self.new }
        ensures memory { IfErr result (λ stop. stop ≡ Stop.Memory) }
    {
        self.older.clear();
        self.newer.clear();
        self.before.free()?;
        self.between.keep(guesses)?;
        Ok(())
    }

    /// Notes an entry with the verdict on it, if it is the same, before what is left now.
    pub fn note(&mut self, entry: &Entry, verdict: &Verdict, left: &[Place]) -> Result<(), Stop>
        requires { (board : Board) × IsOfWindow board self.old × IsOfBoard board left.now }
        ensures boards { (board : Board) → IsOfWindow board self.old
            → IsOfWindow board self.new }
        ensures memory { IfErr result (λ stop. stop ≡ Stop.Memory) }
    {
        match verdict {
            Verdict::Same => {}
            _ => return Ok(()),
        }
        let Ok(()) = self.newer.push(entry.copy()) else {
            return Err(Stop::Memory);
        };
        if self.newer.len() < NOTED {
            return Ok(());
        }
        self.move_on(left)
    }

    /// The newer entries are the older ones, and these guesses are left before the newer ones.
    fn move_on(&mut self, left: &[Place]) -> Result<(), Stop>
        requires { (board : Board) × IsOfWindow board self.old × IsOfBoard board left.now }
        ensures boards { (board : Board) → IsOfWindow board self.old
            → IsOfWindow board self.new }
        ensures memory { IfErr result (λ stop. stop ≡ Stop.Memory) }
    {
        mem::swap(&mut self.before, &mut self.between);
        mem::swap(&mut self.older, &mut self.newer);
        self.newer.clear();
        self.between.keep(left)?;
        Ok(())
    }

    /// How many entries are noted.
    pub fn len(&self) -> usize {
        self.older.len().saturating_add(self.newer.len())
    }
}
