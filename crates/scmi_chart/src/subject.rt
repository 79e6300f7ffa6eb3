//! What a column of a chart is about.
ghost use Rattle.std.specs.Prelude.{◌≡◌, ◌↔◌, None, IfSome};
ghost use Rattle.scmi_chart.specs.Standing.{IsLacking, IsStateOf, is_set_pending, power_state};

use crate::chart::{Kind, State};
use scmi_core::Core;

/// A power domain or clock by its number, or the outbox of an agent.
#[derive(Clone, Copy)]
pub enum Subject {
    Domain(u32),
    Clock(u32),
    Outbox(u32),
}

impl Subject {
    /// What it is in a chart.
    pub(crate) fn kind(self) -> Kind {
        match self {
            Subject::Domain(_) => Kind::Domain,
            Subject::Clock(_) => Kind::Clock,
            Subject::Outbox(agent) => Kind::Outbox(agent.min(255) as u8),
        }
    }

    /// Whether it is the outbox of this agent.
    pub(crate) fn is_outbox_of(self, agent: u32) -> bool {
        match self {
            Subject::Domain(_) | Subject::Clock(_) => false,
            Subject::Outbox(owner) => owner == agent,
        }
    }

    /// Its state as the platform has it; `None` if the board lacks it.
    pub fn state(self, core: &Core) -> Option<State>
        ensures value { IfSome result (IsStateOf self core.now.board core.now.history) }
        ensures none { (result ≡ None) ↔ IsLacking self core.now.board }
    {
        match self {
            Subject::Domain(domain) => Some(power_state(core.power_state(domain)?)),
            Subject::Clock(clock) => {
                let hertz = core.clock_rate(clock)?;
                let is_enabled = core.is_clock_enabled(clock)?;
                Some(State::Rate { hertz, is_enabled })
            }
            Subject::Outbox(agent) => {
                let count = core.waiting(agent)?;
                Some(State::Waiting(count.min(255) as u8))
            }
        }
    }

    /// Whether the platform has a set of it that is pending.
    pub fn is_pending(self, core: &Core) -> bool
        ensures { result ≡ is_set_pending self core.now.board core.now.history }
    {
        match self {
            Subject::Domain(domain) => core.is_domain_pending(domain),
            Subject::Clock(clock) => core.is_clock_pending(clock),
            Subject::Outbox(_) => false,
        }
    }
}

/// A power state in a chart: 0 is ON.
fn power_state(word: u32) -> State
    ensures { result ≡ power_state word }
{
    if word == 0 { State::On } else { State::Off }
}
