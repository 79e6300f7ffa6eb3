//! An agent that restarts.
ghost use Rattle.std.specs.Prelude.{◌⊎◌, ◌≡◌, ◌≢◌, ◌↔◌, None, IsSomeAnd};
ghost use Rattle.scmi_core.specs.declared.event.Event.TheVariants.{Restarted};
ghost use Rattle.scmi_c.specs.Standing.{LacksAgent};
ghost use Rattle.scmi_c.specs.Calls.{HasHappened};
ghost use Rattle.scmi_c.specs.Driven.{Drives};
ghost use Rattle.scmi_c.specs.Kept.{BeforeAfter, HasSameAside, IsBusy, IsFree, IsUnasked};
ghost use Rattle.scmi_c.specs.declared.code.TheConstants.{ASKED, DONE, NO_AGENT, NO_PLATFORM};

use crate::code::code;
use crate::handle::Handle;
use std::alloc::Global;

/// Ends what an agent asked for that restarted without the platform: its requests for
/// notifications, the messages in its outbox, and its wish for delayed responses to its pending
/// sets. Permissions, values and the pending sets themselves stay (own). `DONE`; `NO_PLATFORM`;
/// `NO_AGENT`; `ASKED` if a command waits to be committed or to fail, or is set aside: it is
/// answered first. After another number than `DONE` nothing changed.
#[unsafe(no_mangle)]
pub extern "C" fn scmi_restart(alloc: Global, platform: &mut Handle, agent: u32) -> u32
    ensures done { result ≡ DONE →
        BeforeAfter platform.old.value platform.new.value (λ p k.
        IsUnasked k × HasHappened p.held k.held (Restarted agent)) }
    ensures driven { result ≡ DONE →
        BeforeAfter platform.old.value platform.new.value (λ p k.
        Drives p.held k.held (Restarted agent)) }
    ensures no_agent { (result ≡ NO_AGENT) ↔
        IsSomeAnd platform.old.value (λ p. IsFree p × LacksAgent agent p.held) }
    ensures asked { (result ≡ ASKED) ↔ IsSomeAnd platform.old.value IsBusy }
    ensures aside { HasSameAside platform.old.value platform.new.value }
    ensures no_platform { (result ≡ NO_PLATFORM) ↔ (platform.old.value ≡ None) }
    ensures errors { (result ≡ DONE) ⊎ (result ≡ NO_AGENT) ⊎
        (result ≡ NO_PLATFORM) ⊎ (result ≡ ASKED) }
    ensures kept { result ≢ DONE → platform.new.value ≡ platform.old.value }
{
    let mut desk = match platform.take_free(alloc) {
        Ok(desk) => desk,
        Err(number) => return number,
    };
    let given = desk.held.restart(agent);
    platform.put(desk);
    code(given)
}
