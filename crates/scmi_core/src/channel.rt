//! What an agent's channel has room for.
ghost use Rattle.std.specs.Prelude.{◌≡◌, length};
ghost use Rattle.scmi_plan.specs.Agent.{IsAgent};
ghost use Rattle.scmi_core.specs.Reply.{fits_channel};

use scmi_codec::Message;
use scmi_plan::Plan;

/// Whether a message of an agent has no more payload words than its channel.
pub(crate) fn fits_channel(plan: &Plan, agent: u32, message: &Message) -> bool
    requires agent { IsAgent (length plan.now.agents) agent }
    ensures { result ≡ fits_channel plan.now agent message.now }
{
    message.payload.len() <= plan.channel(agent).words as usize
}
