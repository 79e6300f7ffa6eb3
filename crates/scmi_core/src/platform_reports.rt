//! Changes that the hardware made by itself, of a platform without its history.
ghost use Rattle.std.specs.Prelude.{◌≡◌, ◌<◌, ◌≤◌, ◌⊎◌, ◌↔◌, length, OnOk, OnErr, IfErr, Err};
ghost use Rattle.scmi_plan.specs.Plan.{IsValid};
ghost use Rattle.scmi_power.specs.PowerReply.{is_state};
ghost use Rattle.scmi_core.specs.Standing.{MovesOn};
ghost use Rattle.scmi_core.specs.Value.{HasNoResource, HasNoState, IsReportable};
ghost use Rattle.scmi_plan.specs.declared.effect.Effect.TheVariants.{State};
ghost use Rattle.scmi_core.specs.declared.event.Event.TheVariants.{Reported};

use crate::core_error::CoreError;
use crate::platform::Platform;
use scmi_plan::Effect;

// The states of a domain: ON and OFF.
const ON: u32 = 0x0000_0000;

const OFF: u32 = 0x4000_0000;

impl Platform {
    /// Takes over a change that the hardware made by itself, and that no command asked for: reads
    /// give the new value from now on, and the subscribers of a domain whose state is another than
    /// before are notified, with the platform, 0, as causer. Pending sets stay pending, and
    /// permissions and requests stay (own). `NoResource` if the board lacks the domain or clock,
    /// and `NoState` if a domain's state is neither ON nor OFF; then nothing changed. A clock may
    /// have any rate, and a domain or clock that the board keeps on may be off.
    pub fn report(&mut self, effect: Effect) -> Result<(), CoreError>
        ensures event { OnOk result (MovesOn self.old (Reported effect) self.new) }
        ensures board { self.new.board ≡ self.old.board }
        ensures no_resource { (result ≡ Err CoreError.NoResource)
            ↔ HasNoResource self.old.board effect }
        ensures no_state { (result ≡ Err CoreError.NoState) ↔ HasNoState self.old.board effect }
        ensures errors { IfErr result (λ e.
            (e ≡ CoreError.NoResource) ⊎ (e ≡ CoreError.NoState)) }
        ensures err { OnErr result (self.new ≡ self.old) }
    {
        self.check_effect(effect)?;
        self.take_over(effect);
        Ok(())
    }

    /// As `report`, for what the hardware may report.
    pub(crate) fn take_over(&mut self, effect: Effect)
        requires reportable { IsReportable self.now.board effect }
        ensures valid { IsValid self.old.board }
        ensures event { MovesOn self.old (Reported effect) self.new }
        ensures board { self.new.board ≡ self.old.board }
    {
        self.tables.report(&self.plan, effect);
    }

    /// Refuses a report of what the board lacks, or of a state that is none.
    pub(crate) fn check_effect(&self, effect: Effect) -> Result<(), CoreError>
        ensures ok { OnOk result (IsReportable self.now.board effect) }
        ensures no_resource { (result ≡ Err CoreError.NoResource)
            ↔ HasNoResource self.now.board effect }
        ensures no_state { (result ≡ Err CoreError.NoState) ↔ HasNoState self.now.board effect }
        ensures errors { IfErr result (λ e.
            (e ≡ CoreError.NoResource) ⊎ (e ≡ CoreError.NoState)) }
    {
        match effect {
            Effect::State { domain, state } => self.check_state(domain, state),
            Effect::Rate { clock, .. } => self.check_clock(clock),
            Effect::Enabled { clock, .. } => self.check_clock(clock),
        }
    }

    /// Refuses a number that is no domain's, and a word that is no state.
    fn check_state(&self, domain: u32, state: u32) -> Result<(), CoreError>
        ensures ok { OnOk result (IsReportable self.now.board (State domain state)) }
        ensures no_resource { (result ≡ Err CoreError.NoResource)
            ↔ HasNoResource self.now.board (State domain state) }
        ensures no_state { (result ≡ Err CoreError.NoState)
            ↔ HasNoState self.now.board (State domain state) }
        ensures errors { IfErr result (λ e.
            (e ≡ CoreError.NoResource) ⊎ (e ≡ CoreError.NoState)) }
    {
        if domain >= self.plan.domains() {
            return Err(CoreError::NoResource);
        }
        if is_state(state) {
            Ok(())
        } else {
            Err(CoreError::NoState)
        }
    }

    /// Refuses a number that is no clock's.
    fn check_clock(&self, clock: u32) -> Result<(), CoreError>
        ensures ok { OnOk result (clock < length self.now.board.clocks) }
        ensures no_resource { OnErr result (length self.now.board.clocks ≤ clock) }
        ensures errors { IfErr result (λ e. e ≡ CoreError.NoResource) }
    {
        if clock < self.plan.clocks() {
            Ok(())
        } else {
            Err(CoreError::NoResource)
        }
    }
}

/// Whether a word is a state of a domain.
fn is_state(state: u32) -> bool
    ensures { result ≡ is_state state }
{
    state == ON || state == OFF
}
