//! The lines that set the states and rates of a board.
use crate::judged::Judged;
use crate::subject::{changed_by, subject_of};
use scmi_plan::{CLOCKS, DOMAINS, Resource};

/// The line of the last set of each domain and each clock that a board may have which was answered by
/// SUCCESS, or at which the hardware told of another value, by the entries so far.
#[derive(Clone, Copy)]
pub(crate) struct LastSets {
    domains: [Option<u32>; DOMAINS],
    clocks: [Option<u32>; CLOCKS],
}

impl LastSets {
    /// No entry is noted.
    pub fn new() -> LastSets {
        LastSets {
            domains: [None; DOMAINS],
            clocks: [None; CLOCKS],
        }
    }

    /// The line that set what an entry is about.
    pub fn line_of(&self, one: &Judged) -> Option<u32> {
        let line = match subject_of(&one.entry) {
            Some(Resource::Domain(domain)) => self.domains.get(domain as usize),
            Some(Resource::Clock(clock)) => self.clocks.get(clock as usize),
            None => None,
        };
        line.copied().unwrap_or(None)
    }

    /// Notes an entry, if it is such a set, or the hardware told of another value.
    pub fn add(&mut self, one: &Judged) {
        match changed_by(one) {
            Some(Resource::Domain(domain)) if (domain as usize) < DOMAINS => {
                self.domains[domain as usize] = Some(one.line);
            }
            Some(Resource::Clock(clock)) if (clock as usize) < CLOCKS => {
                self.clocks[clock as usize] = Some(one.line);
            }
            _ => {}
        }
    }
}
