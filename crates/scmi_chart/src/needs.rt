//! How much room the parts of a chart need, in pixels.
ghost use Rattle.std.specs.Prelude.{◌<◌};

use crate::chart::{Column, Kind, Lifeline, Span, State, Step};
use crate::drawn_label::label_needs;
use crate::mark::Mark;
use crate::measure::width_in;
use crate::place::MARGIN;

/// The bounds of what depends on how many agents there are.
#[derive(Clone, Copy)]
pub(crate) struct Bounds {
    /// The most characters of a line of the script that are shown.
    pub shown: usize,
    /// The greatest distance between the platform and the nearest agent.
    gap: u32,
    /// The size of the names of agents, and the least and the greatest distance between two agents
    /// on one side, of which this is not the box of a name.
    name: u32,
    side: u32,
    wide_side: u32,
    space: u32,
    /// The greatest width of the name of a column.
    column: u32,
}

/// The bounds of up to four agents.
const FEW: Bounds = Bounds {
    shown: 60,
    gap: 372,
    name: 14,
    side: 108,
    wide_side: 300,
    space: 44,
    column: 96,
};
/// The bounds of more agents, which fit a screen.
const MANY: Bounds = Bounds {
    shown: 40,
    gap: 300,
    name: 10,
    side: 74,
    wide_side: 108,
    space: 18,
    column: 76,
};
/// The least distance between the platform and the nearest agent.
const GAP: u32 = 280;
/// Half the box of the platform's name.
const PLATFORM: u32 = 66;
/// The least and the greatest width of a column.
const COLUMN: u32 = 56;

const WIDE_COLUMN: u32 = 260;

/// The bounds for so many agents.
pub(crate) fn bounds_of(agents: usize) -> Bounds {
    if agents <= 4 { FEW } else { MANY }
}

/// The room that the lines of a script need.
pub(crate) fn script_of(steps: &[Step], bounds: Bounds) -> u32 {
    let mut longest = 14;
    for step in steps {
        longest = longest.max(step.text.len().min(bounds.shown));
    }
    76 + 6 * longest.min(60) as u32
}

/// The room that the words of a mark need beside the platform.
fn mark_width(mark: &Mark, bounds: Bounds) -> u32 {
    if let Some(message) = mark.message() {
        let room = bounds.gap.saturating_sub(MARGIN);
        return label_needs(&message.label, room).saturating_add(MARGIN);
    }
    match mark {
        Mark::Closed { text, .. } | Mark::Remark { text, .. } | Mark::Fault { text, .. } => {
            width_in(text, 11).saturating_add(MARGIN)
        }
        Mark::Advance { text, .. } | Mark::Failed { text, .. } | Mark::Restarted { text, .. } => {
            width_in(text, 11) / 2
        }
        _ => 0,
    }
}

/// The room that a mark needs beside the platform where no agent is.
fn width_beyond(mark: &Mark) -> u32 {
    match mark {
        Mark::Fault { text, .. } => width_in(text, 10).saturating_add(76),
        Mark::Advance { text, .. } | Mark::Failed { text, .. } | Mark::Restarted { text, .. } => {
            (width_in(text, 11) / 2).saturating_add(46)
        }
        _ => PLATFORM,
    }
}

/// The distance between the platform and the nearest agent, and the room beside the platform where
/// no agent is: that of half its box, at least.
pub(crate) fn gap_of(marks: &[Mark], bounds: Bounds) -> (u32, u32) {
    let (mut gap, mut beyond) = (GAP, PLATFORM);
    for mark in marks {
        gap = gap.max(mark_width(mark, bounds));
        beyond = beyond.max(width_beyond(mark));
    }
    (gap.min(bounds.gap), beyond.min(300))
}

/// The distance between two agents on one side: the box of a name, and some room.
pub(crate) fn side_of(lifelines: &[Lifeline], bounds: Bounds) -> u32 {
    let mut side = bounds.side;
    for lifeline in lifelines {
        side = side.max(width_in(&lifeline.name, bounds.name).saturating_add(bounds.space));
    }
    side.min(bounds.wide_side)
}

/// The room that a state and its words need.
fn span_width(span: &Span) -> u32 {
    match span.state {
        State::Rate { hertz, .. } if hertz >= 10_000_000_000_000 => 198,
        State::Rate { hertz, .. } if hertz >= 1_000_000_000 && hertz % 1_000_000 != 0 => 140,
        State::Rate { hertz, .. } if hertz >= 1_000_000_000 => 108,
        State::Rate { hertz, .. } if hertz >= 1_000 => 96,
        State::Rate { .. } => 74,
        State::Waiting(count) => 40 + 3 * u32::from(count),
        State::On | State::Off | State::Pending => 0,
    }
}

/// How far the bar of a state goes to the right of the middle of its column, with some room.
fn bar_width(span: &Span) -> u32 {
    match span.state {
        State::Waiting(count) => 6 + 3 * u32::from(count),
        State::On | State::Off | State::Rate { .. } | State::Pending => 10,
    }
}

/// Where a name that is written again begins, beside the bars of its column, which it would cover.
pub(crate) fn beside_bars(column: &Column) -> u32 {
    let mut widest = 10;
    for span in &column.spans {
        widest = widest.max(bar_width(span));
    }
    widest
}

/// The room that the name and the states of a column need.
fn column_width(column: &Column, bounds: Bounds) -> u32 {
    let name = width_in(&column.name, 12)
        .min(bounds.column)
        .saturating_add(20);
    let again = width_in(&column.name, 10)
        .min(bounds.column / 6 * 5)
        .saturating_add(18)
        .saturating_add(beside_bars(column));
    let mut widest = name.max(again);
    for span in &column.spans {
        widest = widest.max(span_width(span));
    }
    for dropped in &column.drops {
        widest = widest.max(if dropped.count == 1 { 138 } else { 162 });
    }
    widest
}

/// Columns of one kind, which are side by side.
#[derive(Clone, Copy)]
pub(crate) struct Group {
    pub count: u8,
    /// The width of each.
    pub width: u32,
}

/// The place of a kind in the order of columns.
pub(crate) fn order_of(kind: Kind) -> usize
    ensures { result < 3 }
{
    match kind {
        Kind::Domain => 0,
        Kind::Clock => 1,
        Kind::Outbox(_) => 2,
    }
}

/// The columns of the kind that has this place in the order of columns.
pub(crate) fn group_of(columns: &[Column], order: usize, bounds: Bounds) -> Group {
    let mut count = 0u8;
    let mut width = COLUMN;
    for column in columns {
        if order_of(column.kind) == order {
            count = count.saturating_add(1);
            width = width.max(column_width(column, bounds));
        }
    }
    Group {
        count,
        width: width.min(WIDE_COLUMN),
    }
}
