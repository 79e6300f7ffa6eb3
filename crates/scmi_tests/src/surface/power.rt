//! The surface of `scmi_power`.

use scmi_base::BaseState;
use scmi_codec::{Payload, PowerCommand};
use scmi_plan::{Load, Plan};
use scmi_power::{PowerDone, PowerState};

type Execute = fn(&mut PowerState, &Plan, &BaseState, u32, PowerCommand, Load) -> PowerDone;

fn name_the_calls() {
    let _: fn(&Plan) -> PowerState = PowerState::new;
    let _: Execute = PowerState::execute;
    let _: fn(&mut PowerState, u32, u32) -> bool = PowerState::complete;
    let _: fn(&PowerState, u32) -> u8 = PowerState::subscribers;
    let _: fn(&mut PowerState, u32) = PowerState::reset;
    let _: fn(&PowerState, u32) -> u32 = PowerState::state;
}

/// What a command did, by all its fields.
fn rebuilt(done: PowerDone) -> PowerDone {
    let PowerDone {
        reply,
        changed,
        later,
    } = done;
    let reply: Payload = reply;
    let changed: Option<(u32, u32)> = changed;
    let later: Option<(u32, u32)> = later;
    PowerDone {
        reply,
        changed,
        later,
    }
}
