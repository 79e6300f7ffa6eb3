//! What is left of an effect that the hardware made.
ghost use Rattle.std.specs.Prelude.{◌≡◌, length, Some};
ghost use Rattle.scmi_codec.specs.declared.frame.Answer.TheVariants.{Reply};
ghost use Rattle.scmi_codec.specs.declared.frame.Frame.TheVariants.{Good};
ghost use Rattle.scmi_plan.specs.Agent.{IsAgent};
ghost use Rattle.scmi_plan.specs.Plan.{IsValid};
ghost use Rattle.scmi_core.specs.Effect.{effect_in};
ghost use Rattle.scmi_core.specs.History.{answer_with};
ghost use Rattle.scmi_core.specs.Reply.{answer_in};
ghost use Rattle.scmi_core.specs.Step.{HasAnswered};
ghost use Rattle.scmi_core.specs.Tables.{situation_in};

use crate::answered::Answered;
use crate::tables::Tables;
use scmi_codec::{Frame, Message, SUCCESS, set_payload};
use scmi_plan::{Effect, Plan};

impl Tables {
    /// As `answer`, for a frame whose effect the hardware made; nothing is decided again.
    #[inline(always)]
    pub fn commit(
        &mut self,
        plan: &Plan,
        agent: u32,
        frame: &Frame,
        effect: Effect,
        reply: &mut Message,
    ) -> Answered
        requires agent { IsAgent (length plan.now.agents) agent }
        requires valid { IsValid plan.now }
        requires effect { effect_in plan.now agent frame.now (situation_in agent self.old)
            ≡ Some effect }
        ensures answer { answer_with result reply.new
            ≡ answer_in plan.now agent frame.now (situation_in agent self.old) }
        ensures unwritten { result ≡ Answered.ChannelError → reply.new ≡ reply.old }
        ensures stepped { HasAnswered plan.now agent frame.now self.old self.new }
    {
        match frame {
            Frame::Good(message) => {
                self.commit_message(plan, agent, message, effect, reply);
                Answered::Reply
            }
            Frame::Malformed { .. } => Answered::ChannelError,
        }
    }

    /// As `commit`, for a message. One with an effect succeeds, and its reply is SUCCESS alone.
    #[inline(always)]
    fn commit_message(
        &mut self,
        plan: &Plan,
        agent: u32,
        message: &Message,
        effect: Effect,
        reply: &mut Message,
    )
        requires agent { IsAgent (length plan.now.agents) agent }
        requires valid { IsValid plan.now }
        requires effect { effect_in plan.now agent (Good message.now) (situation_in agent self.old)
            ≡ Some effect }
        ensures answer { Reply reply.new
            ≡ answer_in plan.now agent (Good message.now) (situation_in agent self.old) }
        ensures stepped { HasAnswered plan.now agent (Good message.now) self.old self.new }
    {
        reply.header = message.header;
        set_payload(&mut reply.payload, &[SUCCESS]);
        self.change(plan, agent, effect);
    }
}
