//! The lifelines of a chart.
ghost use Rattle.std.specs.Prelude.{◌≡◌, ◌+◌, IfOk, map, string_bytes};
ghost use Rattle.scmi_chart.specs.Signs.{lane};
ghost use Rattle.scmi_chart.specs.Shown.{head_of, heads_from};

use crate::chart::Lifeline;
use crate::parties::{Event, Parties};
use scmi_plan::RawPlan;
use std::alloc::{AllocError, Global};

/// The lifelines of a board's agents, in the order of their numbers.
pub(crate) fn lifelines_of(
    alloc: Global,
    board: &RawPlan,
    parties: &Parties,
) -> Result<Vec<Lifeline>, AllocError>
    ensures { IfOk result (λ lifelines.
        map head_of lifelines.items ≡ heads_from 1 (map string_bytes board.now.agents.items)) }
{
    let mut lifelines = Vec::new(alloc);
    'agents: for name in &board.agents {
        let agent = lane_behind(lifelines.len());
        lifelines.push(Lifeline {
            agent,
            name: Vec::from_slice(alloc, name.as_bytes())?,
            closed: parties.slot(agent, Event::Closed),
        })?;
    }
    Ok(lifelines)
}

/// The lifeline after this many.
fn lane_behind(count: usize) -> u8
    ensures { result ≡ lane (1 + count) }
{
    count.min(254) as u8 + 1
}
