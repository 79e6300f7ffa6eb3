//! Commands whose hardware is slow: they are set aside, and taken up again.
ghost use Rattle.std.specs.Prelude.{◌≡◌, ◌≢◌, ◌↔◌, ◌⊎◌, None, IsSomeAnd};
ghost use Rattle.scmi_c.specs.Aside.{IsSetAside, IsTakenUp};
ghost use Rattle.scmi_c.specs.Kept.{BeforeAfter, IsAsked, IsUnasked, aside_of};
ghost use Rattle.scmi_c.specs.declared.code.TheConstants.{ASKED, DONE, NOTHING, NO_PLATFORM};

use crate::code::{NO_PLATFORM, code};
use crate::handle::Handle;
use std::alloc::Global;

/// Sets the command that `scmi_ask` gave a change of aside, while its hardware settles, so that
/// other agents are served: one command for each agent. `DONE`; `NO_PLATFORM`; `NOTHING` if no
/// command was asked about. After another number than `DONE` nothing changed.
#[unsafe(no_mangle)]
pub extern "C" fn scmi_set_aside(alloc: Global, platform: &mut Handle) -> u32
    ensures done { result ≡ DONE →
        BeforeAfter platform.old.value platform.new.value (λ p k.
        IsSomeAnd p.asked (λ command. IsSetAside command p k)) }
    ensures no_platform { (result ≡ NO_PLATFORM) ↔ (platform.old.value ≡ None) }
    ensures nothing { (result ≡ NOTHING) ↔ IsSomeAnd platform.old.value IsUnasked }
    ensures errors { (result ≡ DONE) ⊎ (result ≡ NO_PLATFORM) ⊎ (result ≡ NOTHING) }
    ensures kept { result ≢ DONE → platform.new.value ≡ platform.old.value }
{
    let Some(mut desk) = platform.take(alloc) else {
        return NO_PLATFORM;
    };
    let given = desk.set_aside();
    platform.put(desk);
    code(given)
}

/// Takes an agent's command up again that was set aside: it waits as one that was asked about, and
/// is answered as one. `DONE`; `NO_PLATFORM`; `ASKED` if another command waits; `NOTHING` if the
/// agent has none set aside. After another number than `DONE` nothing changed.
#[unsafe(no_mangle)]
pub extern "C" fn scmi_take_up(alloc: Global, platform: &mut Handle, agent: u32) -> u32
    ensures done { result ≡ DONE →
        BeforeAfter platform.old.value platform.new.value (λ p k.
        IsSomeAnd (aside_of p agent) (λ command. IsTakenUp agent command p k)) }
    ensures no_platform { (result ≡ NO_PLATFORM) ↔ (platform.old.value ≡ None) }
    ensures asked { (result ≡ ASKED) ↔ IsSomeAnd platform.old.value IsAsked }
    ensures nothing { (result ≡ NOTHING) ↔ IsSomeAnd platform.old.value (λ p.
        IsUnasked p × (aside_of p agent ≡ None)) }
    ensures errors { (result ≡ DONE) ⊎ (result ≡ NO_PLATFORM) ⊎ (result ≡ NOTHING)
        ⊎ (result ≡ ASKED) }
    ensures kept { result ≢ DONE → platform.new.value ≡ platform.old.value }
{
    let Some(mut desk) = platform.take(alloc) else {
        return NO_PLATFORM;
    };
    let given = desk.take_up(agent);
    platform.put(desk);
    code(given)
}
