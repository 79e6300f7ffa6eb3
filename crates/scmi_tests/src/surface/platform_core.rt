//! The surface of `scmi_core`.
ghost use Rattle.std.specs.Prelude.{◌≡◌, true};

use scmi_codec::{Answer, Frame, Message, Status};
use scmi_core::{Core, CoreError, Event, Fault, Trace};
use scmi_plan::{Effect, Plan, Report};
use std::alloc::Global;

fn name_the_calls() {
    let _: fn(Global, Plan) -> Core = Core::new;
    let _: fn(&mut Core) -> Result<(), CoreError> = Core::reserve;
    let _: fn(&mut Core, u32, &Frame) -> Result<Answer, CoreError> = Core::command;
    let _: fn(&mut Core) -> Result<bool, CoreError> = Core::advance;
    let _: fn(&mut Core, Effect) -> Result<(), CoreError> = Core::report;
    let _: fn(&mut Core, usize) -> Result<bool, CoreError> = Core::promote;
    let _: fn(&mut Core, u32, u64) -> Result<bool, CoreError> = Core::settle;
    let _: fn(&mut Core, Report) -> Result<bool, CoreError> = Core::tell;
    let _: fn(&Core, u32) -> Result<Option<Message>, CoreError> = Core::front;
    let _: fn(&mut Core, u32) -> Result<(), CoreError> = Core::sent;
    let _: fn(Core) -> Trace = Core::into_trace;
    let _: fn(&Trace) -> usize = Trace::len;
    let _: fn(&Trace, usize) -> Option<Event> = Trace::get;
    let _: fn(Fault) -> Status = Fault::status;
    let _: fn(Status) -> Option<Fault> = Fault::of_status;
}

fn trace_of(core: &Core) -> &Trace {
    core.trace()
}

/// The agent of an event. The first three are those of a run without hardware and restarts.
fn agent_of(event: &Event) -> u32 {
    match event {
        Event::Command(agent, _frame) => *agent,
        Event::Advance => 0,
        Event::Sent(agent) => *agent,
        Event::CommandFailed(agent, _frame, _fault) => *agent,
        Event::AdvanceFailed(_fault) => 0,
        Event::Restarted(agent) => *agent,
        Event::Promoted(_place) => 0,
        Event::Settled(_clock, _rate) => 0,
        Event::Reported(_effect) => 0,
    }
}

/// A fault is one of these, and nothing else.
fn name_the_faults(fault: Fault) -> u32 {
    match fault {
        Fault::NotSupported => 0,
        Fault::InvalidParameters => 1,
        Fault::Denied => 2,
        Fault::OutOfRange => 3,
        Fault::Busy => 4,
        Fault::GenericError => 5,
        Fault::HardwareError => 6,
    }
}

/// A fault is read back from its status.
fn is_read_back(fault: Fault) -> bool
    ensures { result ≡ true }
{
    Fault::of_status(fault.status()) == Some(fault)
}

/// Errors have the numbers of their order.
fn is_numbered(error: CoreError) -> bool
    ensures { result ≡ true }
{
    let number = match error {
        CoreError::Memory => 1,
        CoreError::NoAgent => 2,
        CoreError::Nothing => 3,
        CoreError::NoResource => 4,
        CoreError::NoState => 5,
    };
    error as u8 == number
}
