//! The commands of the base protocol.
ghost use Rattle.scmi_agent_c.specs.Post.{Posts};
ghost use Rattle.scmi_codec.specs.declared.command.Command.TheVariants.{Base};
ghost use Rattle.scmi_codec.specs.declared.base_command.BaseCommand.TheVariants as asks;

use crate::post::post;
use crate::state::State;
use scmi_codec::{AREA_BYTES, BaseCommand, Command};

/// Posts Version, as `post`.
#[unsafe(no_mangle)]
pub extern "C" fn scmi_agent_base_protocol_version(
    agent: &mut State,
    area: &mut [u8; AREA_BYTES],
) -> u32
    ensures { Posts (Base asks.Version)
        agent.old agent.new area.old area.new result }
{
    post(agent, area, &Command::Base(BaseCommand::Version))
}

/// Posts Attributes, as `post`.
#[unsafe(no_mangle)]
pub extern "C" fn scmi_agent_base_protocol_attributes(
    agent: &mut State,
    area: &mut [u8; AREA_BYTES],
) -> u32
    ensures { Posts (Base asks.Attributes)
        agent.old agent.new area.old area.new result }
{
    post(agent, area, &Command::Base(BaseCommand::Attributes))
}

/// Posts MessageAttributes, as `post`.
#[unsafe(no_mangle)]
pub extern "C" fn scmi_agent_base_message_attributes(
    agent: &mut State,
    area: &mut [u8; AREA_BYTES],
    message: u32,
) -> u32
    ensures { Posts (Base (asks.MessageAttributes message))
        agent.old agent.new area.old area.new result }
{
    post(
        agent,
        area,
        &Command::Base(BaseCommand::MessageAttributes { message }),
    )
}

/// Posts Vendor, as `post`.
#[unsafe(no_mangle)]
pub extern "C" fn scmi_agent_base_discover_vendor(
    agent: &mut State,
    area: &mut [u8; AREA_BYTES],
) -> u32
    ensures { Posts (Base asks.Vendor)
        agent.old agent.new area.old area.new result }
{
    post(agent, area, &Command::Base(BaseCommand::Vendor))
}

/// Posts SubVendor, as `post`.
#[unsafe(no_mangle)]
pub extern "C" fn scmi_agent_base_discover_sub_vendor(
    agent: &mut State,
    area: &mut [u8; AREA_BYTES],
) -> u32
    ensures { Posts (Base asks.SubVendor)
        agent.old agent.new area.old area.new result }
{
    post(agent, area, &Command::Base(BaseCommand::SubVendor))
}

/// Posts Implementation, as `post`.
#[unsafe(no_mangle)]
pub extern "C" fn scmi_agent_base_discover_implementation_version(
    agent: &mut State,
    area: &mut [u8; AREA_BYTES],
) -> u32
    ensures { Posts (Base asks.Implementation)
        agent.old agent.new area.old area.new result }
{
    post(agent, area, &Command::Base(BaseCommand::Implementation))
}

/// Posts Protocols, as `post`.
#[unsafe(no_mangle)]
pub extern "C" fn scmi_agent_base_discover_list_protocols(
    agent: &mut State,
    area: &mut [u8; AREA_BYTES],
    skip: u32,
) -> u32
    ensures { Posts (Base (asks.Protocols skip))
        agent.old agent.new area.old area.new result }
{
    post(agent, area, &Command::Base(BaseCommand::Protocols { skip }))
}

/// Posts Agent, as `post`.
#[unsafe(no_mangle)]
pub extern "C" fn scmi_agent_base_discover_agent(
    caller: &mut State,
    area: &mut [u8; AREA_BYTES],
    agent: u32,
) -> u32
    ensures { Posts (Base (asks.Agent agent))
        caller.old caller.new area.old area.new result }
{
    post(caller, area, &Command::Base(BaseCommand::Agent { agent }))
}

/// Posts Permit, as `post`.
#[unsafe(no_mangle)]
pub extern "C" fn scmi_agent_base_set_device_permissions(
    caller: &mut State,
    area: &mut [u8; AREA_BYTES],
    agent: u32,
    device: u32,
    flags: u32,
) -> u32
    ensures { Posts (Base (asks.Permit agent device flags))
        caller.old caller.new area.old area.new result }
{
    post(
        caller,
        area,
        &Command::Base(BaseCommand::Permit {
            agent,
            device,
            flags,
        }),
    )
}

/// Posts PermitProtocol, as `post`.
#[unsafe(no_mangle)]
pub extern "C" fn scmi_agent_base_set_protocol_permissions(
    caller: &mut State,
    area: &mut [u8; AREA_BYTES],
    agent: u32,
    device: u32,
    protocol: u32,
    flags: u32,
) -> u32
    ensures { Posts (Base (asks.PermitProtocol agent device protocol flags))
        caller.old caller.new area.old area.new result }
{
    post(
        caller,
        area,
        &Command::Base(BaseCommand::PermitProtocol {
            agent,
            device,
            protocol,
            flags,
        }),
    )
}

/// Posts ResetAgent, as `post`.
#[unsafe(no_mangle)]
pub extern "C" fn scmi_agent_base_reset_agent_configuration(
    caller: &mut State,
    area: &mut [u8; AREA_BYTES],
    agent: u32,
    flags: u32,
) -> u32
    ensures { Posts (Base (asks.ResetAgent agent flags))
        caller.old caller.new area.old area.new result }
{
    post(
        caller,
        area,
        &Command::Base(BaseCommand::ResetAgent { agent, flags }),
    )
}
