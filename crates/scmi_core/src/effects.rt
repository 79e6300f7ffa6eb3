//! What a command or a completion is to change of the hardware.
ghost use Rattle.std.specs.Prelude.{◌≡◌, ◌==◌, ℕ, List, length, false, None, Ok};
ghost use Rattle.scmi_codec.specs.Payload.{if_success};
ghost use Rattle.scmi_codec.specs.declared.command.Command.TheVariants.{Power, Clock};
ghost use Rattle.scmi_codec.specs.declared.frame.Frame.TheVariants.{Good};
ghost use Rattle.scmi_plan.specs.Agent.{IsAgent};
ghost use Rattle.scmi_plan.specs.Board.{Board};
ghost use Rattle.scmi_plan.specs.Plan.{IsValid};
ghost use Rattle.scmi_core.specs.Commands.{now_of};
ghost use Rattle.scmi_core.specs.Effect.{effect_after, effect_in, effect_read, is_set_header, is_set_frame};
ghost use Rattle.scmi_core.specs.Reply.{reply_words};
ghost use Rattle.scmi_core.specs.Tables.{situation_in};
ghost use Rattle.scmi_core.specs.declared.event.Event.{Event};
ghost use Rattle.scmi_core.specs.declared.event.Event.TheVariants.{Command as Called};

use crate::channel::fits_channel;
use crate::read_command::read_command;
use crate::tables::Tables;
use scmi_codec::{
    CLOCK_PROTOCOL, ClockCommand, Command, Frame, Header, Message, POWER_PROTOCOL, PowerCommand,
};
use scmi_plan::{Effect, Plan};

impl Tables {
    /// The effect of a frame of an agent, if it has one. A message that has none by its header is not
    /// read.
    #[inline(always)]
    pub fn effect_of(&self, plan: &Plan, agent: u32, frame: &Frame) -> Option<Effect>
        requires agent { IsAgent (length plan.now.agents) agent }
        requires valid { IsValid plan.now }
        ensures { result ≡ effect_in plan.now agent frame.now (situation_in agent self.now) }
    {
        match frame {
            Frame::Good(message) if may_have_effect(&message.header) => {
                self.message_effect(plan, agent, message)
            }
            _ => None,
        }
    }

    /// As `effect_of`, for a message; one that is longer than the agent's channel has none.
    #[inline(never)]
    fn message_effect(&self, plan: &Plan, agent: u32, message: &Message) -> Option<Effect>
        requires agent { IsAgent (length plan.now.agents) agent }
        requires valid { IsValid plan.now }
        ensures { result
            ≡ effect_in plan.now agent (Good message.now) (situation_in agent self.now) }
    {
        if fits_channel(plan, agent, message) {
            self.read_effect(plan, agent, message)
        } else {
            None
        }
    }

    /// The effect of a message of an agent that fits its channel, if it has one.
    fn read_effect(&self, plan: &Plan, agent: u32, message: &Message) -> Option<Effect>
        requires agent { IsAgent (length plan.now.agents) agent }
        requires valid { IsValid plan.now }
        ensures { result
            ≡ effect_read plan.now agent message.now (situation_in agent self.now) }
    {
        match read_command(plan, message) {
            Ok(Command::Power(command)) => self.power_effect(plan, agent, command),
            Ok(Command::Clock(command)) => self.clock_effect(plan, agent, command),
            _ => None,
        }
    }

    /// The effect of a command of the power domain protocol, if it has one.
    fn power_effect(&self, plan: &Plan, agent: u32, command: PowerCommand) -> Option<Effect>
        requires agent { IsAgent (length plan.now.agents) agent }
        requires valid { IsValid plan.now }
        ensures { result ≡ if_success
            (reply_words plan.now agent (situation_in agent self.now) (Ok (Power command)))
            (now_of plan.now (Power command)) }
    {
        let load = self.power_load(plan, agent, command);
        match self.power.change_of(plan, &self.base, agent, command, load) {
            Some((domain, state)) => Some(Effect::State { domain, state }),
            None => None,
        }
    }

    /// The effect of a command of the clock protocol, if it has one.
    fn clock_effect(&self, plan: &Plan, agent: u32, command: ClockCommand) -> Option<Effect>
        requires agent { IsAgent (length plan.now.agents) agent }
        requires valid { IsValid plan.now }
        ensures { result ≡ if_success
            (reply_words plan.now agent (situation_in agent self.now) (Ok (Clock command)))
            (now_of plan.now (Clock command)) }
    {
        let load = self.clock_load(plan, agent, command);
        match self
            .clocks
            .rate_change_of(plan, &self.base, agent, command, load)
        {
            Some((clock, rate)) => Some(Effect::Rate { clock, rate }),
            None => match self
                .clocks
                .enabled_change_of(plan, &self.base, agent, command, load)
            {
                Some((clock, enabled)) => Some(Effect::Enabled { clock, enabled }),
                None => None,
            },
        }
    }
}

/// Whether a frame may change hardware, by its header alone, whatever came before it.
pub fn may_change(frame: &Frame) -> bool
    ensures exact { result ≡ is_set_frame frame.now }
    ensures none { result ≡ false → (board : Board) → (agent : ℕ) → (h : List Event)
        → effect_after board h (Called agent frame.now) ≡ None }
{
    match frame {
        Frame::Good(message) => may_have_effect(&message.header),
        Frame::Malformed { .. } => false,
    }
}

/// Whether a message with this header may have an effect: POWER_STATE_SET, CLOCK_RATE_SET and
/// CLOCK_CONFIG_SET may.
fn may_have_effect(header: &Header) -> bool
    ensures { result ≡ is_set_header header.now }
{
    matches!(
        (header.protocol(), header.id()),
        (POWER_PROTOCOL, 0x4) | (CLOCK_PROTOCOL, 0x5 | 0x7)
    )
}
