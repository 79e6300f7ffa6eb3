//! An agent that restarts.
ghost use Rattle.std.specs.Prelude.{◌≡◌, ◌++◌, ◌∷◌, ◌↔◌, [], length, Err, OnOk, OnErr};
ghost use Rattle.scmi_plan.specs.Agent.{IsNoAgent};
ghost use Rattle.scmi_core.specs.Driven.{asks};
ghost use Rattle.scmi_core.specs.declared.event.Event.TheVariants.{Restarted};

use crate::controller::Controller;
use crate::serve_error::ServeError;
use scmi_core::CoreError;
use scmi_link::Channel;

impl<C: Channel> Controller<C> {
    ghost use Rattle.scmi_ends.specs.Agreement.{IsInStep};

    /// Ends what an agent asked for that restarted without the platform, and adds that to the
    /// history: its requests for notifications, the messages in its outbox, and its wish for
    /// delayed responses to its pending sets (own). What its channels contain stays, a command that
    /// is not served and a message that it did not take; so do permissions, values and the pending
    /// sets.
    ///
    /// `NoAgent`, checked first, if the board lacks the agent; `Memory` if the trace could not
    /// grow. After either nothing changed.
    pub fn restart(&mut self, agent: u32) -> Result<(), ServeError>
        ensures agrees { IsInStep self.new }
        ensures board { self.new.board ≡ self.old.board }
        ensures event { OnOk result (self.new ≡ record self.old {
          history = self.old.history ++ Restarted agent ∷ [];
          room = self.new.room;
        }) }
        ensures made { asks self.new.board self.new.history
            ≡ asks self.old.board self.old.history }
        ensures memory { result ≡ Err ServeError.Memory → self.old.room ≡ 0 }
        ensures no_agent { (result ≡ Err ServeError.NoAgent) ↔
            IsNoAgent (length self.old.board.agents) agent }
        ensures err { OnErr result (self.new ≡ self.old) }
    {
        match self.core.restart(agent) {
            Ok(()) => Ok(()),
            Err(CoreError::NoAgent) => Err(ServeError::NoAgent),
            Err(_) => Err(ServeError::Memory),
        }
    }
}
