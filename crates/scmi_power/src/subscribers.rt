//! Who is notified of a domain's changes: bit a - 1 of a mask is for agent a.
ghost use Rattle.std.specs.Prelude.{◌≡◌, ◌≤◌, ◌-◌, ◌==◌, ℕ, if◌then◌else◌};
ghost use Rattle.std.specs.Int.{bit_at};
ghost use Rattle.scmi_plan.specs.Agent.{IsAgent};
ghost use Rattle.scmi_plan.specs.declared.limits.TheConstants.{AGENTS};

/// The mask with one agent notified, or no longer notified, and every other agent as it was.
pub(crate) fn with_subscriber(mask: u8, agent: u32, is_told: bool) -> u8
    requires agent { IsAgent AGENTS agent }
    ensures { (a : ℕ) → 1 ≤ a → a ≤ AGENTS → (bit_at result (a - 1) == 1)
        ≡ (if agent == a then is_told else (bit_at mask (a - 1) == 1)) }
{
    let bit = 1u8 << (agent - 1);
    if is_told { mask | bit } else { mask & !bit }
}
