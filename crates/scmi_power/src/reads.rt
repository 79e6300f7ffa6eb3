//! The replies to the commands that only read, which are open to each agent.
ghost use Rattle.std.specs.Prelude.{◌≡◌, ◌∷◌, [], length, true};
ghost use Rattle.scmi_base.specs.Permission.{Permissions};
ghost use Rattle.scmi_plan.specs.Agent.{IsAgent};
ghost use Rattle.scmi_plan.specs.declared.load.Load.{Load};
ghost use Rattle.scmi_power.specs.PowerReply.{message_reply, domain_reply, get_reply};
ghost use Rattle.scmi_power.specs.PowerTable.{only_reads, reply_to, state_at};

use crate::checks::check_domain;
use crate::domain_attributes::attributes_of;
use crate::power_state::PowerState;
use scmi_codec::{
    POWER_PROTOCOL, POWER_VERSION, Payload, PowerCommand, SUCCESS, Status, is_listed, name_words,
    set_payload, set_refusal,
};
use scmi_plan::{AgentChannel, Plan};

/// The address and length of the statistics memory, of which there is none (own).
const NO_STATISTICS: u32 = 0;

/// The reply to a command that only reads, of a caller.
#[tactic(auto, unfolding(crate::specs::PowerReply::power_reply))]
pub(crate) fn read(
    plan: &Plan,
    state: &PowerState,
    caller: u32,
    command: PowerCommand,
    reply: &mut Payload,
)
    requires caller { IsAgent (length plan.now.agents) caller }
    requires read { only_reads command ≡ true }
    ensures { (permissions : Permissions) → (load : Load) → reply.new.items
        ≡ reply_to plan.now permissions state.now load caller command }
{
    match command {
        PowerCommand::Version => version(reply),
        PowerCommand::Attributes => attributes(plan, reply),
        PowerCommand::MessageAttributes { message } => message_attributes(message, reply),
        PowerCommand::DomainAttributes { domain } => {
            domain_attributes(plan, plan.channel(caller), domain, reply);
        }
        PowerCommand::Get { domain } => get(plan, state, domain, reply),
        PowerCommand::Set { .. } | PowerCommand::Notify { .. } => {}
    }
}

/// 0x0: the version of the protocol.
fn version(reply: &mut Payload)
    ensures { reply.new.items ≡ 0 ∷ 0x00020000 ∷ [] }
{
    set_payload(reply, &[SUCCESS, POWER_VERSION]);
}

/// 0x1: the number of domains, and where the statistics memory is.
fn attributes(plan: &Plan, reply: &mut Payload)
    ensures { reply.new.items ≡ 0 ∷ length plan.now.domains ∷ 0 ∷ 0 ∷ 0 ∷ [] }
{
    set_payload(
        reply,
        &[
            SUCCESS,
            plan.domains(),
            NO_STATISTICS,
            NO_STATISTICS,
            NO_STATISTICS,
        ],
    );
}

/// 0x2: no attributes; NOT_FOUND for an id that the protocol lacks.
fn message_attributes(message: u32, reply: &mut Payload)
    ensures { reply.new.items ≡ message_reply message }
{
    if is_listed(POWER_PROTOCOL, message) {
        set_payload(reply, &[SUCCESS, 0]);
    } else {
        set_refusal(reply, Status::NotFound);
    }
}

/// 0x3: what a domain supports for an agent, and its name; NOT_FOUND for a domain that the board
/// lacks.
fn domain_attributes(plan: &Plan, channel: AgentChannel, domain: u32, reply: &mut Payload)
    ensures { reply.new.items ≡ domain_reply plan.now channel domain }
{
    match check_domain(plan, domain) {
        Ok(()) => {
            let row = plan.domain(domain);
            let [a, b, c, d] = name_words(&row.name);
            set_payload(reply, &[SUCCESS, attributes_of(channel, row), a, b, c, d]);
        }
        Err(status) => set_refusal(reply, status),
    }
}

/// 0x5: a domain's state; NOT_FOUND for a domain that the board lacks.
fn get(plan: &Plan, state: &PowerState, domain: u32, reply: &mut Payload)
    ensures { reply.new.items ≡ get_reply plan.now domain (state_at state.now domain) }
{
    match check_domain(plan, domain) {
        Ok(()) => set_payload(reply, &[SUCCESS, state.state(domain)]),
        Err(status) => set_refusal(reply, status),
    }
}
