//! The commands of the power domain protocol.
ghost use Rattle.scmi_agent_c.specs.Post.{Posts};
ghost use Rattle.scmi_codec.specs.declared.command.Command.TheVariants.{Power};
ghost use Rattle.scmi_codec.specs.declared.power_command.PowerCommand.TheVariants as asks;

use crate::post::post;
use crate::state::State;
use scmi_codec::{AREA_BYTES, Command, PowerCommand};

/// Posts Version, as `post`.
#[unsafe(no_mangle)]
pub extern "C" fn scmi_agent_power_protocol_version(
    agent: &mut State,
    area: &mut [u8; AREA_BYTES],
) -> u32
    ensures { Posts (Power asks.Version)
        agent.old agent.new area.old area.new result }
{
    post(agent, area, &Command::Power(PowerCommand::Version))
}

/// Posts Attributes, as `post`.
#[unsafe(no_mangle)]
pub extern "C" fn scmi_agent_power_protocol_attributes(
    agent: &mut State,
    area: &mut [u8; AREA_BYTES],
) -> u32
    ensures { Posts (Power asks.Attributes)
        agent.old agent.new area.old area.new result }
{
    post(agent, area, &Command::Power(PowerCommand::Attributes))
}

/// Posts MessageAttributes, as `post`.
#[unsafe(no_mangle)]
pub extern "C" fn scmi_agent_power_message_attributes(
    agent: &mut State,
    area: &mut [u8; AREA_BYTES],
    message: u32,
) -> u32
    ensures { Posts (Power (asks.MessageAttributes message))
        agent.old agent.new area.old area.new result }
{
    post(
        agent,
        area,
        &Command::Power(PowerCommand::MessageAttributes { message }),
    )
}

/// Posts DomainAttributes, as `post`.
#[unsafe(no_mangle)]
pub extern "C" fn scmi_agent_power_domain_attributes(
    agent: &mut State,
    area: &mut [u8; AREA_BYTES],
    domain: u32,
) -> u32
    ensures { Posts (Power (asks.DomainAttributes domain))
        agent.old agent.new area.old area.new result }
{
    post(
        agent,
        area,
        &Command::Power(PowerCommand::DomainAttributes { domain }),
    )
}

/// Posts Set, as `post`.
#[unsafe(no_mangle)]
pub extern "C" fn scmi_agent_power_state_set(
    agent: &mut State,
    area: &mut [u8; AREA_BYTES],
    flags: u32,
    domain: u32,
    state: u32,
) -> u32
    ensures { Posts (Power (asks.Set flags domain state))
        agent.old agent.new area.old area.new result }
{
    post(
        agent,
        area,
        &Command::Power(PowerCommand::Set {
            flags,
            domain,
            state,
        }),
    )
}

/// Posts Get, as `post`.
#[unsafe(no_mangle)]
pub extern "C" fn scmi_agent_power_state_get(
    agent: &mut State,
    area: &mut [u8; AREA_BYTES],
    domain: u32,
) -> u32
    ensures { Posts (Power (asks.Get domain))
        agent.old agent.new area.old area.new result }
{
    post(agent, area, &Command::Power(PowerCommand::Get { domain }))
}

/// Posts Notify, as `post`.
#[unsafe(no_mangle)]
pub extern "C" fn scmi_agent_power_state_notify(
    agent: &mut State,
    area: &mut [u8; AREA_BYTES],
    domain: u32,
    enable: u32,
) -> u32
    ensures { Posts (Power (asks.Notify domain enable))
        agent.old agent.new area.old area.new result }
{
    post(
        agent,
        area,
        &Command::Power(PowerCommand::Notify { domain, enable }),
    )
}
