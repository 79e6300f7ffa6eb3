//! How much was found of a record.
use crate::finding::Finding;
use crate::note::NoteKind;

/// How many entries are the same, differ by a rule of the profile's own, and differ; and how many
/// commands are unanswered, and responses unmatched. Each stays at 2^64 - 1.
#[derive(Clone, Copy)]
pub(crate) struct Counts {
    pub same: u64,
    pub own: u64,
    pub differ: u64,
    pub unanswered: u64,
    pub unmatched: u64,
}

impl Counts {
    /// Nothing was found.
    pub fn new() -> Counts {
        Counts {
            same: 0,
            own: 0,
            differ: 0,
            unanswered: 0,
            unmatched: 0,
        }
    }

    /// How many entries there are.
    pub fn entries(&self) -> u64 {
        self.same
            .saturating_add(self.own)
            .saturating_add(self.differ)
    }

    /// One entry more.
    pub fn add(&mut self, finding: Finding) {
        let count = match finding {
            Finding::Same => &mut self.same,
            Finding::Own(_) => &mut self.own,
            Finding::Differs => &mut self.differ,
        };
        *count = count.saturating_add(1);
    }

    /// One note more.
    pub fn note(&mut self, kind: NoteKind) {
        let count = match kind {
            NoteKind::Unanswered => &mut self.unanswered,
            NoteKind::Unmatched => &mut self.unmatched,
            NoteKind::Lost(_) => return,
        };
        *count = count.saturating_add(1);
    }
}
