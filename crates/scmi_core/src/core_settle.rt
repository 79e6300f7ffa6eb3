//! The rate that a pending set gives a free clock, of a platform that keeps its history.
ghost use Rattle.std.specs.Prelude.{◌≡◌, ◌↔◌, ◌≤◌, ◌+◌, ◌++◌, ◌∷◌, [], true, false, IfOk, OnOk, OnErr, IfErr};
ghost use Rattle.scmi_core.specs.History.{CanSettle};
ghost use Rattle.scmi_core.specs.Legal.{IsLegal};
ghost use Rattle.scmi_core.specs.declared.event.Event.TheVariants.{Settled};

use crate::core_error::CoreError;
use crate::platform_core::Core;

impl Core {
    /// Gives the pending set of a free clock this rate in Hz, and adds that to the history, so that
    /// the clock has it once the set completes, and the delayed response gives it: the hardware
    /// makes this rate, and not quite the one that was asked for (own). `Ok(false)` if the board
    /// lacks the clock, the clock is not free or has no pending set, and then nothing changed.
    /// `Memory` if it is and has one, and the trace could not grow, the only refusal; then nothing
    /// changed either.
    pub fn settle(&mut self, clock: u32, rate: u64) -> Result<bool, CoreError>
        ensures pending { IfOk result (λ did.
            (did ≡ true) ↔ CanSettle self.old.board self.old.history clock) }
        ensures event { IfOk result (λ did.
            did ≡ true → self.new.history ≡ self.old.history ++ Settled clock rate ∷ []) }
        ensures same { IfOk result (λ did. did ≡ false → self.new ≡ self.old) }
        ensures board { self.new.board ≡ self.old.board }
        ensures legal { IsLegal self.new.board self.new.history }
        ensures memory { IfErr result (λ e.
            (e ≡ CoreError.Memory) × (self.old.room ≡ 0)
            × CanSettle self.old.board self.old.history clock) }
        ensures room { OnOk result (self.old.room ≤ self.new.room + 1) }
        ensures err { OnErr result (self.new ≡ self.old) }
    {
        if !self.platform.can_settle(clock) {
            return Ok(false);
        }
        self.trace.reserve()?;
        self.platform.give_rate(clock, rate);
        self.trace.push_settled(clock, rate);
        Ok(true)
    }
}
