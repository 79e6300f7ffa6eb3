//! A pending set that goes before the others, of a platform that keeps its history.
ghost use Rattle.std.specs.Prelude.{◌≡◌, ◌↔◌, ◌≤◌, ◌+◌, ◌++◌, ◌∷◌, [], true, false, IfOk, OnOk, OnErr, IfErr};
ghost use Rattle.scmi_core.specs.History.{HasPendingAt};
ghost use Rattle.scmi_core.specs.Legal.{IsLegal};
ghost use Rattle.scmi_core.specs.declared.event.Event.TheVariants.{Promoted};

use crate::core_error::CoreError;
use crate::platform_core::Core;

impl Core {
    /// Puts the pending set at a place before the others, which stay in order, so that it is the
    /// next to end, and adds that to the history: the hardware finished it before them (own).
    /// Places are counted from 0, the first. `Ok(false)` if no set is pending at that place, and
    /// then nothing changed. `Memory` if one is and the trace could not grow, the only refusal;
    /// then nothing changed either.
    pub fn promote(&mut self, place: usize) -> Result<bool, CoreError>
        ensures pending { IfOk result (λ did.
            (did ≡ true) ↔ HasPendingAt self.old.board self.old.history place) }
        ensures event { IfOk result (λ did.
            did ≡ true → self.new.history ≡ self.old.history ++ Promoted place ∷ []) }
        ensures same { IfOk result (λ did. did ≡ false → self.new ≡ self.old) }
        ensures board { self.new.board ≡ self.old.board }
        ensures legal { IsLegal self.new.board self.new.history }
        ensures memory { IfErr result (λ e.
            (e ≡ CoreError.Memory) × (self.old.room ≡ 0)
            × HasPendingAt self.old.board self.old.history place) }
        ensures room { OnOk result (self.old.room ≤ self.new.room + 1) }
        ensures err { OnErr result (self.new ≡ self.old) }
    {
        if !self.platform.has_pending_at(place) {
            return Ok(false);
        }
        self.trace.reserve()?;
        self.platform.put_first(place);
        self.trace.push_promoted(place as u32);
        Ok(true)
    }
}
