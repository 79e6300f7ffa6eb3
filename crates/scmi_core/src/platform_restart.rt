//! An agent that restarts, of a platform without its history.
ghost use Rattle.std.specs.Prelude.{◌≡◌, ◌↔◌, length, OnOk, OnErr, IfErr, Err};
ghost use Rattle.scmi_plan.specs.Agent.{IsAgent, IsNoAgent};
ghost use Rattle.scmi_plan.specs.Plan.{IsValid};
ghost use Rattle.scmi_core.specs.Standing.{MovesOn};
ghost use Rattle.scmi_core.specs.declared.event.Event.TheVariants.{Restarted};

use crate::core_error::CoreError;
use crate::platform::Platform;

impl Platform {
    /// Ends what an agent asked for that restarted without the platform: its requests for
    /// notifications, the messages in its outbox, and its wish for delayed responses to its pending
    /// sets. Permissions, values and the pending sets themselves stay (own). `NoAgent` if the board
    /// lacks the agent, the only refusal; then nothing changed.
    pub fn restart(&mut self, agent: u32) -> Result<(), CoreError>
        ensures event { OnOk result (MovesOn self.old (Restarted agent) self.new) }
        ensures board { self.new.board ≡ self.old.board }
        ensures no_agent { (result ≡ Err CoreError.NoAgent)
            ↔ IsNoAgent (length self.old.board.agents) agent }
        ensures errors { IfErr result (λ e. e ≡ CoreError.NoAgent) }
        ensures err { OnErr result (self.new ≡ self.old) }
    {
        self.check_agent(agent)?;
        self.forget(agent);
        Ok(())
    }

    /// As `restart`, for an agent of the board.
    pub(crate) fn forget(&mut self, agent: u32)
        requires agent { IsAgent (length self.now.board.agents) agent }
        ensures valid { IsValid self.old.board }
        ensures event { MovesOn self.old (Restarted agent) self.new }
        ensures board { self.new.board ≡ self.old.board }
    {
        let _agents = self.plan.agents();
        self.tables.restart(agent);
    }
}
