//! What happens to a platform that no entry of a record shows by itself.
ghost use Rattle.std.specs.Prelude.{◌≡◌, ◌≢◌, ◌<◌, ◌⊎◌, ◌↔◌, true};
ghost use Rattle.scmi_judge.specs.Unseen.{count_of, step_of};

use crate::outstanding::OUTSTANDING;
use scmi_codec::Fault;

/// What may happen that no entry shows by itself.
#[derive(Clone, Copy)]
pub(crate) enum Step {
    /// The first pending set completes.
    Complete,
    /// The hardware refuses the change of the first pending set.
    Refuse,
    /// The first message for an agent is posted into its channel.
    Post { agent: u32 },
    /// An agent restarts.
    Restart { agent: u32 },
    /// The outstanding command at a place is executed.
    Execute { place: u32 },
    /// The hardware refuses the change of the outstanding command at a place.
    Fail { place: u32 },
}

/// What may happen to each agent, or to the outstanding command at each place, that no entry shows
/// by itself.
#[derive(Clone, Copy)]
pub(crate) enum Act {
    /// The first message for it is posted into its channel.
    Post,
    /// It restarts.
    Restart,
    /// The command is executed.
    Execute,
    /// The hardware refuses its change.
    Fail,
}

/// All of them.
pub(crate) const ACTS: [Act; 4] = [Act::Post, Act::Restart, Act::Execute, Act::Fail];

impl Act {
    /// The step of the agent of this number, or of the place of this number, counted from 1.
    pub fn step(self, number: u32) -> Step
        requires { 0 < number }
        ensures { result ≡ step_of self number }
    {
        match self {
            Act::Post => Step::Post { agent: number },
            Act::Restart => Step::Restart { agent: number },
            Act::Execute => Step::Execute { place: number - 1 },
            Act::Fail => Step::Fail { place: number - 1 },
        }
    }

    /// How many agents or places there are, on a board with so many agents.
    pub fn count(self, agents: u32) -> u32
        ensures { result ≡ count_of self agents }
    {
        match self {
            Act::Post | Act::Restart => agents,
            Act::Execute | Act::Fail => OUTSTANDING as u32,
        }
    }
}

/// What may happen to a platform that no entry of a record shows by itself, beside pending sets
/// that complete and messages that are posted.
#[derive(Clone, Copy)]
pub struct Unseen {
    /// Which changes of pending sets the hardware may refuse. If any, it may also refuse a
    /// command's change with another fault than HARDWARE_ERROR.
    pub refusals: Refusals,
    /// Whether agents may restart.
    pub restarts: bool,
}

impl Unseen {
    /// Whether the hardware may refuse a command's change with a fault.
    pub(crate) fn may_fail(self, fault: Fault) -> bool
        ensures { (result ≡ true)
            ↔ ((fault ≡ Fault.HardwareError) ⊎ (self.refusals ≢ Refusals.None)) }
    {
        fault == Fault::HardwareError || self.refusals != Refusals::None
    }
}

/// The hardware refuses no change, and no agent restarts: the default.
pub const NOTHING_UNSEEN: Unseen = Unseen {
    refusals: Refusals::None,
    restarts: false,
};

/// Which changes of pending sets the hardware may refuse, so that no entry need show it by itself.
#[derive(Clone, Copy)]
pub enum Refusals {
    /// None.
    None,
    /// Those to which a delayed response is wanted, which is then HARDWARE_ERROR.
    Answered,
    /// Any.
    Any,
}
