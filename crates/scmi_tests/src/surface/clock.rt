//! The surface of `scmi_clock`.

use scmi_base::BaseState;
use scmi_clock::{ClockDone, ClockState, Rounding, round};
use scmi_codec::{ClockCommand, Payload};
use scmi_plan::{Load, Plan, Rates};

type Execute = fn(&mut ClockState, &Plan, &BaseState, u32, ClockCommand, Load) -> ClockDone;

fn name_the_calls() {
    let _: fn(&Plan) -> ClockState = ClockState::new;
    let _: Execute = ClockState::execute;
    let _: fn(&mut ClockState, u32, u64) = ClockState::complete;
    let _: fn(&ClockState, u32) -> u64 = ClockState::rate;
    let _: fn(&ClockState, u32) -> bool = ClockState::enabled;
    let _: fn(&Rates, u64, Rounding) -> Option<u64> = round;
}

/// What a command did, by all its fields.
fn rebuilt(done: ClockDone) -> ClockDone {
    let ClockDone { reply, later } = done;
    let reply: Payload = reply;
    let later: Option<(u32, u64, bool)> = later;
    ClockDone { reply, later }
}

fn name_the_variants(rounding: Rounding) -> u8 {
    match rounding {
        Rounding::Down => 1,
        Rounding::Up => 2,
        Rounding::Nearest => 3,
    }
}
