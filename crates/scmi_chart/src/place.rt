//! Where things are, in pixels.
//!
//! The words of all messages are in the two gaps beside the platform's lifeline, so only these are
//! wide. At most one message leaves in a slot, and its words are above its line, in at most two rows:
//! no label lies over another. Five agents and more are nearer to each other, so that they fit a
//! screen. Sums that would wrap end at the largest number.

use crate::chart::{Chart, Kind, Step};
use crate::needs::{Group, bounds_of, gap_of, group_of, order_of, script_of, side_of};
use crate::shape::Point;

/// The most agents of a chart.
const AGENTS: usize = 8;
/// The height of a slot, and the upper edge of the first.
pub(crate) const SLOT: u32 = 32;

const TOP: u32 = 150;
/// After how many steps the names are written again, and the height of that row.
pub(crate) const STRETCH: u16 = 20;

const AGAIN: u32 = 24;
/// The parts of a gap that have no words, at the platform and at the nearest agent: messages wait
/// there.
const AT_PLATFORM: u32 = 52;

const AT_AGENT: u32 = 34;
/// Both.
pub(crate) const MARGIN: u32 = AT_PLATFORM + AT_AGENT;
/// By how much the middle of the words is nearer to the agent than to the platform.
const ASIDE: u32 = 9;

/// Where the lifelines and columns of a chart are, and how far down they go.
#[derive(Clone, Copy)]
pub(crate) struct Place<'a> {
    steps: &'a [Step],
    slots: u16,
    /// How many agents are to the left of the platform.
    left_agents: u32,
    /// The platform's lifeline.
    pub platform_x: u32,
    /// The distance between two agents on one side of the platform.
    side: u32,
    /// The distance between the platform and the nearest agent.
    gap: u32,
    /// The room for the words between these.
    pub room: u32,
    /// The width of the box of an agent's name.
    pub head: u32,
    /// The most characters of a line of the script that are shown.
    pub shown: usize,
    /// The line between the lifelines and the columns.
    pub border_x: u32,
    /// The columns, in the order of their kinds.
    groups: [Group; 3],
}

impl<'a> Place<'a> {
    pub fn of(chart: &'a Chart) -> Place<'a> {
        let bounds = bounds_of(chart.lifelines.len());
        let side = side_of(&chart.lifelines, bounds);
        let (gap, beyond) = gap_of(&chart.marks, bounds);
        let agents = chart.lifelines.len().min(AGENTS) as u32;
        let left_agents = (agents + 1) / 2;
        let right_agents = agents.saturating_sub(left_agents);
        let left = script_of(&chart.steps, bounds).saturating_add(side / 2);
        let between = side.saturating_mul(left_agents.saturating_sub(1));
        let platform_x = left.saturating_add(between).saturating_add(gap);
        let beyond = if right_agents == 0 {
            beyond
        } else {
            let between = side.saturating_mul(right_agents.saturating_sub(1));
            gap.saturating_add(between).saturating_add(side / 2)
        };
        Place {
            steps: &chart.steps,
            slots: chart.slots,
            left_agents,
            platform_x,
            side,
            gap,
            room: gap.saturating_sub(MARGIN),
            head: side.saturating_sub(if agents > 4 { 8 } else { 16 }),
            shown: bounds.shown,
            border_x: platform_x.saturating_add(beyond).saturating_add(16),
            groups: [
                group_of(&chart.columns, 0, bounds),
                group_of(&chart.columns, 1, bounds),
                group_of(&chart.columns, 2, bounds),
            ],
        }
    }

    /// Whether an agent is to the left of the platform.
    pub fn is_left(self, agent: u8) -> bool {
        u32::from(agent) <= self.left_agents
    }

    /// How many agents are between an agent and the platform.
    fn rank(self, agent: u8) -> u32 {
        let (agent, left) = (u32::from(agent), self.left_agents);
        if agent <= left {
            left.saturating_sub(agent)
        } else {
            agent.saturating_sub(left).saturating_sub(1)
        }
    }

    pub fn agent_x(self, agent: u8) -> u32 {
        let between = self.side.saturating_mul(self.rank(agent));
        self.beside_platform(agent, self.gap.saturating_add(between))
    }

    /// The line of a slot at the platform's lifeline.
    pub fn at_platform(self, slot: u16) -> Point {
        Point {
            x: self.platform_x,
            y: self.line_y(slot),
        }
    }

    /// The line of a slot at the lifeline of an agent.
    pub fn at_agent(self, agent: u8, slot: u16) -> Point {
        Point {
            x: self.agent_x(agent),
            y: self.line_y(slot),
        }
    }

    /// At this distance from the platform's lifeline, towards the agent's.
    pub fn beside_platform(self, agent: u8, distance: u32) -> u32 {
        if self.is_left(agent) {
            self.platform_x.saturating_sub(distance)
        } else {
            self.platform_x.saturating_add(distance)
        }
    }

    /// At this distance from the agent's lifeline, towards the platform's.
    pub fn beside_agent(self, agent: u8, distance: u32) -> u32 {
        if self.is_left(agent) {
            self.agent_x(agent).saturating_add(distance)
        } else {
            self.agent_x(agent).saturating_sub(distance)
        }
    }

    /// Where a command of this agent waits for the platform: each agent of a side has its own
    /// place.
    pub fn waiting_x(self, agent: u8) -> u32 {
        self.beside_platform(agent, 18 + 8 * self.rank(agent).min(8))
    }

    /// The middle of the words between the platform and the agents of this agent's side.
    pub fn words_x(self, agent: u8) -> u32 {
        self.beside_platform(agent, (self.gap / 2).saturating_add(ASIDE))
    }

    /// At this distance from the agent that is nearest to the platform, towards the platform.
    pub fn inner_x(self, agent: u8, distance: u32) -> u32 {
        self.beside_platform(agent, self.gap.saturating_sub(distance))
    }

    pub fn column_x(self, place: u8) -> u32 {
        let (mut x, mut left) = (self.border_x.saturating_add(30), place);
        for group in &self.groups {
            let count = left.min(group.count);
            x = x.saturating_add(group.width.saturating_mul(u32::from(count)));
            left = left.saturating_sub(count);
        }
        x
    }

    /// The room for the name of a column of this kind.
    pub fn name_room(self, kind: Kind) -> u32 {
        self.groups[order_of(kind)].width.saturating_sub(20)
    }

    pub fn width(self) -> u32 {
        self.column_x(255)
    }

    /// Where the lifelines end.
    pub fn bottom(self) -> u32 {
        self.line_y(self.slots)
    }

    /// How many rows of names are above a slot.
    fn rows(self, slot: u16) -> u16 {
        let begun = self.steps.partition_point(|step: &Step| step.slot <= slot);
        match self.steps[..begun].last() {
            Some(step) => step.number / STRETCH,
            None => 0,
        }
    }

    /// The upper edge of a slot.
    pub fn slot_y(self, slot: u16) -> u32 {
        TOP + SLOT * u32::from(slot) + AGAIN * u32::from(self.rows(slot))
    }

    /// The line of a slot on which its mark is drawn.
    pub fn line_y(self, slot: u16) -> u32 {
        self.slot_y(slot).saturating_add(21)
    }

    /// Where a state that begins or ends at this time does so.
    pub fn state_y(self, time: u16) -> u32 {
        match time.checked_sub(1) {
            Some(slot) => self.line_y(slot),
            None => TOP - 11,
        }
    }
}
