//! The lines of the last entries that were the same.

/// So many are known. A judge looks back to at most 31.
const LINES: usize = 32;

/// The lines of the last entries that did not differ.
#[derive(Drop)]
pub(crate) struct LastLines {
    // In the order of the entries, round and round.
    lines: [u32; LINES],
    // The index of the next.
    next: usize,
}

impl LastLines {
    /// None is known.
    pub fn new() -> LastLines {
        LastLines {
            lines: [0; LINES],
            next: 0,
        }
    }

    /// Notes the line of an entry, unless it differs. The line of the entry that explains it then,
    /// if it is so many back.
    pub fn note(&mut self, line: u32, differs: bool, back: Option<usize>) -> Option<u32> {
        if differs {
            let ahead = LINES.checked_sub(back?)?;
            return self
                .lines
                .get(self.next.wrapping_add(ahead) % LINES)
                .copied();
        }
        if let Some(place) = self.lines.get_mut(self.next) {
            *place = line;
        }
        self.next = self.next.wrapping_add(1) % LINES;
        None
    }
}
