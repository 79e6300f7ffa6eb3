//! An agent that restarts, of a platform that keeps its history.
ghost use Rattle.std.specs.Prelude.{◌≡◌, ◌⊎◌, ◌≢◌, ◌<◌, ◌++◌, ◌∷◌, [], ◌↔◌, length, OnOk, OnErr, Err, IfErr};
ghost use Rattle.scmi_plan.specs.Agent.{IsAgent, IsNoAgent};
ghost use Rattle.scmi_core.specs.Legal.{IsLegal};
ghost use Rattle.scmi_core.specs.declared.event.Event.TheVariants.{Restarted};

use crate::core_error::CoreError;
use crate::platform_core::Core;

impl Core {
    /// Ends what an agent asked for that restarted without the platform, and adds that to the
    /// history: its requests for notifications, the messages in its outbox, and its wish for
    /// delayed responses to its pending sets. Permissions, values and the pending sets themselves
    /// stay (own). `NoAgent` if the board lacks the agent, and `Memory` if the trace could not
    /// grow; then nothing changed.
    pub fn restart(&mut self, agent: u32) -> Result<(), CoreError>
        ensures event { OnOk result
            (self.new.history ≡ self.old.history ++ Restarted agent ∷ []) }
        ensures board { self.new.board ≡ self.old.board }
        ensures legal { IsLegal self.new.board self.new.history }
        ensures no_agent { (result ≡ Err CoreError.NoAgent)
            ↔ IsNoAgent (length self.old.board.agents) agent }
        ensures memory { 0 < self.old.room → result ≢ Err CoreError.Memory }
        ensures not_nothing { result ≢ Err CoreError.Nothing }
        ensures errors { IfErr result (λ e.
            (e ≡ CoreError.NoAgent) ⊎ (e ≡ CoreError.Memory)) }
        ensures err { OnErr result (self.new ≡ self.old) }
    {
        self.platform.check_agent(agent)?;
        self.trace.reserve()?;
        self.forget(agent);
        Ok(())
    }

    /// As `restart`, for an agent of the board and with room in the trace.
    fn forget(&mut self, agent: u32)
        requires agent { IsAgent (length self.old.board.agents) agent }
        requires room { 0 < self.old.room }
        ensures event { self.new.history ≡ self.old.history ++ Restarted agent ∷ [] }
        ensures board { self.new.board ≡ self.old.board }
        ensures legal { IsLegal self.new.board self.new.history }
    {
        self.platform.forget(agent);
        self.trace.push_restarted(agent);
    }
}
