//! The surface of `scmi_base`.

use scmi_base::{BaseDone, BaseState};
use scmi_codec::{BaseCommand, Payload};
use scmi_plan::{Plan, Resource};

fn name_the_calls() {
    let _: fn(&Plan) -> BaseState = BaseState::new;
    let _: fn(&mut BaseState, &Plan, u32, BaseCommand) -> BaseDone = BaseState::execute;
    let _: fn(&BaseState, &Plan, u32, Resource) -> bool = BaseState::may_change;
    let _: fn(&mut BaseState, u32) = BaseState::reset;
}

/// What a command did, by all its fields.
fn rebuilt(done: BaseDone) -> BaseDone {
    let BaseDone { reply, reset } = done;
    let reply: Payload = reply;
    let reset: Option<u32> = reset;
    BaseDone { reply, reset }
}
