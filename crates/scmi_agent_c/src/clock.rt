//! The commands of the clock protocol.
ghost use Rattle.scmi_agent_c.specs.Post.{Posts};
ghost use Rattle.scmi_codec.specs.declared.command.Command.TheVariants.{Clock};
ghost use Rattle.scmi_codec.specs.declared.clock_command.ClockCommand.TheVariants as asks;

use crate::post::post;
use crate::state::State;
use scmi_codec::{AREA_BYTES, ClockCommand, Command};

/// Posts Version, as `post`.
#[unsafe(no_mangle)]
pub extern "C" fn scmi_agent_clock_protocol_version(
    agent: &mut State,
    area: &mut [u8; AREA_BYTES],
) -> u32
    ensures { Posts (Clock asks.Version)
        agent.old agent.new area.old area.new result }
{
    post(agent, area, &Command::Clock(ClockCommand::Version))
}

/// Posts Attributes, as `post`.
#[unsafe(no_mangle)]
pub extern "C" fn scmi_agent_clock_protocol_attributes(
    agent: &mut State,
    area: &mut [u8; AREA_BYTES],
) -> u32
    ensures { Posts (Clock asks.Attributes)
        agent.old agent.new area.old area.new result }
{
    post(agent, area, &Command::Clock(ClockCommand::Attributes))
}

/// Posts MessageAttributes, as `post`.
#[unsafe(no_mangle)]
pub extern "C" fn scmi_agent_clock_message_attributes(
    agent: &mut State,
    area: &mut [u8; AREA_BYTES],
    message: u32,
) -> u32
    ensures { Posts (Clock (asks.MessageAttributes message))
        agent.old agent.new area.old area.new result }
{
    post(
        agent,
        area,
        &Command::Clock(ClockCommand::MessageAttributes { message }),
    )
}

/// Posts ClockAttributes, as `post`.
#[unsafe(no_mangle)]
pub extern "C" fn scmi_agent_clock_attributes(
    agent: &mut State,
    area: &mut [u8; AREA_BYTES],
    clock: u32,
) -> u32
    ensures { Posts (Clock (asks.ClockAttributes clock))
        agent.old agent.new area.old area.new result }
{
    post(
        agent,
        area,
        &Command::Clock(ClockCommand::ClockAttributes { clock }),
    )
}

/// Posts Describe, as `post`.
#[unsafe(no_mangle)]
pub extern "C" fn scmi_agent_clock_describe_rates(
    agent: &mut State,
    area: &mut [u8; AREA_BYTES],
    clock: u32,
    index: u32,
) -> u32
    ensures { Posts (Clock (asks.Describe clock index))
        agent.old agent.new area.old area.new result }
{
    post(
        agent,
        area,
        &Command::Clock(ClockCommand::Describe { clock, index }),
    )
}

/// Posts SetRate, as `post`.
#[unsafe(no_mangle)]
pub extern "C" fn scmi_agent_clock_rate_set(
    agent: &mut State,
    area: &mut [u8; AREA_BYTES],
    flags: u32,
    clock: u32,
    rate: u64,
) -> u32
    ensures { Posts (Clock (asks.SetRate flags clock rate))
        agent.old agent.new area.old area.new result }
{
    post(
        agent,
        area,
        &Command::Clock(ClockCommand::SetRate { flags, clock, rate }),
    )
}

/// Posts GetRate, as `post`.
#[unsafe(no_mangle)]
pub extern "C" fn scmi_agent_clock_rate_get(
    agent: &mut State,
    area: &mut [u8; AREA_BYTES],
    clock: u32,
) -> u32
    ensures { Posts (Clock (asks.GetRate clock))
        agent.old agent.new area.old area.new result }
{
    post(
        agent,
        area,
        &Command::Clock(ClockCommand::GetRate { clock }),
    )
}

/// Posts Config, as `post`.
#[unsafe(no_mangle)]
pub extern "C" fn scmi_agent_clock_config_set(
    agent: &mut State,
    area: &mut [u8; AREA_BYTES],
    clock: u32,
    attributes: u32,
) -> u32
    ensures { Posts (Clock (asks.Config clock attributes))
        agent.old agent.new area.old area.new result }
{
    post(
        agent,
        area,
        &Command::Clock(ClockCommand::Config { clock, attributes }),
    )
}
