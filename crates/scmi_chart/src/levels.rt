//! The states of a board's domains, clocks and outboxes along the time axis, and the notifications that
//! were dropped.
use crate::board_names::{agent_name, clock_name, domain_name};
use crate::chart::{Column, Dropped, Span, State};
use crate::subject::Subject;
use crate::words::{rate_words, state_words, two_words};
use scmi_core::Core;
use scmi_plan::RawPlan;
use std::alloc::{AllocError, Global};

/// A state that lasts, and since when.
#[derive(Clone, Copy)]
struct Level {
    since: u16,
    state: Option<State>,
}

impl Level {
    /// From this time on the state is this one: what lasted until then is a span. Returns whether
    /// it is another state.
    fn change(
        &mut self,
        spans: &mut Vec<Span>,
        time: u16,
        state: Option<State>,
    ) -> Result<bool, AllocError> {
        if self.state == state {
            return Ok(false);
        }
        self.end(spans, time)?;
        self.since = time;
        self.state = state;
        Ok(true)
    }

    /// What lasted until this time is a span.
    fn end(&self, spans: &mut Vec<Span>, time: u16) -> Result<(), AllocError> {
        if let Some(state) = self.state {
            spans.push(Span {
                since: self.since,
                until: time,
                state,
            })?;
        }
        Ok(())
    }
}

/// The states of one domain, clock or outbox.
#[derive(Drop)]
struct Track {
    subject: Subject,
    value: Level,
    pending: Level,
    spans: Vec<Span>,
    drops: Vec<Dropped>,
    // The time of the last change; 0 if there was none.
    changed: u16,
}

/// The states of all domains, clocks and outboxes of a board.
#[derive(Drop)]
pub struct Levels {
    tracks: Vec<Track>,
    // The time of the last look.
    time: u16,
}

impl Levels {
    /// The states with which a platform begins.
    pub fn new(alloc: Global, core: &Core) -> Result<Levels, AllocError> {
        let mut tracks = Vec::new(alloc);
        let (domains, clocks) = (core.board().domains(), core.board().clocks());
        let resources = domains.saturating_add(clocks);
        for i in 0..resources.saturating_add(core.board().agents()) {
            let subject = if i < domains {
                Subject::Domain(i)
            } else if i < resources {
                Subject::Clock(i - domains)
            } else {
                Subject::Outbox(i - resources + 1)
            };
            tracks.push(Track::new(alloc, subject, core))?;
        }
        Ok(Levels { tracks, time: 0 })
    }

    /// The states from this time on are those that the platform has now.
    pub fn look(&mut self, core: &Core, time: u16) -> Result<(), AllocError> {
        self.time = time;
        for track in &mut self.tracks {
            track.look(core, time)?;
        }
        Ok(())
    }

    /// The notification of a domain's state for an agent was dropped at the time of the last look.
    pub(crate) fn add_dropped(
        &mut self,
        alloc: Global,
        board: &RawPlan,
        agent: u32,
        domain: u32,
    ) -> Result<(), AllocError> {
        let time = self.time;
        for track in &mut self.tracks {
            if track.subject.is_outbox_of(agent) {
                track.add_dropped(time, dropped_words(alloc, board, agent, domain)?)?;
            }
        }
        Ok(())
    }

    /// What changed at this time, in words: the first domain or clock that did.
    pub fn news(&self, alloc: Global, board: &RawPlan, time: u16) -> Result<Vec<u8>, AllocError> {
        for track in &self.tracks {
            if track.changed == time {
                return track.words(alloc, board);
            }
        }
        Ok(Vec::new(alloc))
    }

    /// The columns of what changed in the run, up to this time.
    pub fn columns(
        self,
        alloc: Global,
        board: &RawPlan,
        time: u16,
    ) -> Result<Vec<Column>, AllocError> {
        let mut columns = Vec::new(alloc);
        for track in self.tracks {
            if track.is_shown() {
                let place = columns.len().min(255) as u8;
                columns.push(track.column(alloc, board, time, place)?)?;
            }
        }
        Ok(columns)
    }
}

impl Track {
    fn new(alloc: Global, subject: Subject, core: &Core) -> Track {
        Track {
            subject,
            value: Level {
                since: 0,
                state: subject.state(core),
            },
            pending: Level {
                since: 0,
                state: None,
            },
            spans: Vec::new(alloc),
            drops: Vec::new(alloc),
            changed: 0,
        }
    }

    fn look(&mut self, core: &Core, time: u16) -> Result<(), AllocError> {
        let state = self.subject.state(core);
        let pending = if self.subject.is_pending(core) {
            Some(State::Pending)
        } else {
            None
        };
        let is_new = self.value.change(&mut self.spans, time, state)?;
        if self.pending.change(&mut self.spans, time, pending)? || is_new {
            self.changed = time;
        }
        Ok(())
    }

    /// A notification was dropped at this time.
    fn add_dropped(&mut self, time: u16, words: Vec<u8>) -> Result<(), AllocError> {
        if let Some(last) = self.drops.last_mut() {
            if last.time == time {
                last.count = last.count.saturating_add(1);
                last.detail.extend_from_slice(b"; ")?;
                last.detail.extend_from_slice(&words)?;
                return Ok(());
            }
        }
        self.drops.push(Dropped {
            time,
            count: 1,
            detail: words,
        })?;
        Ok(())
    }

    /// Whether it has a column: it changed, or a notification was dropped.
    fn is_shown(&self) -> bool {
        self.changed > 0 || !self.drops.is_empty()
    }

    fn name(&self, alloc: Global, board: &RawPlan) -> Result<Vec<u8>, AllocError> {
        match self.subject {
            Subject::Domain(domain) => domain_name(alloc, board, domain),
            Subject::Clock(clock) => clock_name(alloc, board, clock),
            Subject::Outbox(agent) => agent_name(alloc, board, agent),
        }
    }

    /// What it is now; nothing of an outbox.
    fn words(&self, alloc: Global, board: &RawPlan) -> Result<Vec<u8>, AllocError> {
        let value = match self.value.state {
            Some(State::On) => state_words(alloc, 0),
            Some(State::Off) => state_words(alloc, 0x4000_0000),
            Some(State::Rate { hertz, .. }) => rate_words(alloc, hertz),
            _ => return Ok(Vec::new(alloc)),
        };
        two_words(alloc, "% is %", self.name(alloc, board), value)
    }

    /// The column of these states, up to a time.
    fn column(
        self,
        alloc: Global,
        board: &RawPlan,
        time: u16,
        place: u8,
    ) -> Result<Column, AllocError> {
        let name = self.name(alloc, board)?;
        let mut spans = self.spans;
        self.value.end(&mut spans, time)?;
        self.pending.end(&mut spans, time)?;
        Ok(Column {
            place,
            kind: self.subject.kind(),
            name,
            spans,
            drops: self.drops,
        })
    }
}

/// That the notification of a domain's state for an agent was dropped, for a reader who points at
/// the mark.
fn dropped_words(
    alloc: Global,
    board: &RawPlan,
    agent: u32,
    domain: u32,
) -> Result<Vec<u8>, AllocError> {
    let (domain, agent) = (
        domain_name(alloc, board, domain),
        agent_name(alloc, board, agent),
    );
    let text = "the notification of % for % was dropped: its outbox has no room";
    two_words(alloc, text, domain, agent)
}
