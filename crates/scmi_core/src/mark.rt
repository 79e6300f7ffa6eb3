//! The first word of an event in a trace.
ghost use Rattle.std.specs.Prelude.{◌≡◌, ◌<◌};
ghost use Rattle.scmi_plan.specs.declared.limits.TheConstants.{AGENTS};
ghost use Rattle.scmi_core.specs.Mark.{HasAgent, fault_numbered, mark_of, report_of};

use scmi_codec::Fault;

/// What an event is, and whose. As a word it is the event's number, 0 to 6 in this order, and eight
/// times its agent, and if it failed 128 times the number of its fault. A report is 7, and eight
/// times 0 to 2 for what it is of, and so is a settled rate with 3; a promotion is 7, and eight
/// times 4 and its place.
#[derive(Clone, Copy, PartialEq, Eq, Debug)]
pub enum Mark {
    Advance,
    AdvanceFailed(Fault),
    Sent(u32),
    /// The command of a frame that is malformed.
    Malformed(u32),
    /// The command of a frame that is a message, which failed.
    Failed(u32, Fault),
    Restarted(u32),
    /// The command of a frame that is a message.
    Message(u32),
    /// The report of a domain's state.
    StateReported,
    /// The report of a clock's rate.
    RateReported,
    /// The report of whether a clock is enabled.
    EnabledReported,
    /// The rate that a clock's pending set gives it.
    RateSettled,
    /// The promotion of the pending set at this place.
    Promoted(u32),
}

impl Mark {
    /// The word of a mark.
    pub fn pack(self) -> u32
        requires { HasAgent self AGENTS }
        ensures back { mark_of result ≡ self }
    {
        match self {
            Mark::Advance => 0,
            Mark::AdvanceFailed(fault) => 1 + 128 * number_of(fault),
            Mark::Sent(agent) => 2 + 8 * agent,
            Mark::Malformed(agent) => 3 + 8 * agent,
            Mark::Failed(agent, fault) => 4 + 8 * agent + 128 * number_of(fault),
            Mark::Restarted(agent) => 5 + 8 * agent,
            Mark::Message(agent) => 6 + 8 * agent,
            Mark::StateReported => 7,
            Mark::RateReported => 7 + 8,
            Mark::EnabledReported => 7 + 8 * 2,
            Mark::RateSettled => 7 + 8 * 3,
            Mark::Promoted(place) => 7 + 8 * (4 + place),
        }
    }

    /// The mark of a word.
    pub fn unpack(word: u32) -> Mark
        ensures { result ≡ mark_of word }
    {
        let agent = word / 8;
        match word % 8 {
            0 => Mark::Advance,
            1 => Mark::AdvanceFailed(fault_numbered(word / 128)),
            2 => Mark::Sent(agent),
            3 => Mark::Malformed(agent),
            4 => Mark::Failed(agent % 16, fault_numbered(word / 128)),
            5 => Mark::Restarted(agent),
            6 => Mark::Message(agent),
            _ => report_of(agent),
        }
    }
}

/// The mark of a report, by what it is of, of a settled rate, or from 4 on of a promotion, by its
/// place.
fn report_of(number: u32) -> Mark
    ensures { result ≡ report_of number }
{
    match number {
        0 => Mark::StateReported,
        1 => Mark::RateReported,
        2 => Mark::EnabledReported,
        3 => Mark::RateSettled,
        _ => Mark::Promoted(number - 4),
    }
}

/// The number of a fault, from 0 in the order of the enum.
fn number_of(fault: Fault) -> u32
    ensures few { result < 7 }
    ensures back { fault_numbered result ≡ fault }
{
    match fault {
        Fault::NotSupported => 0,
        Fault::InvalidParameters => 1,
        Fault::Denied => 2,
        Fault::OutOfRange => 3,
        Fault::Busy => 4,
        Fault::GenericError => 5,
        Fault::HardwareError => 6,
    }
}

/// The fault of a number; any other number is read as the last fault.
fn fault_numbered(number: u32) -> Fault
    ensures { result ≡ fault_numbered number }
{
    match number {
        0 => Fault::NotSupported,
        1 => Fault::InvalidParameters,
        2 => Fault::Denied,
        3 => Fault::OutOfRange,
        4 => Fault::Busy,
        5 => Fault::GenericError,
        _ => Fault::HardwareError,
    }
}
