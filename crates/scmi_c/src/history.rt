//! The length of a history.
ghost use Rattle.std.specs.Prelude.{◌⊎◌, ◌≡◌, ◌≢◌, ◌↔◌, ◌-◌, ◌^◌, None, IsSomeAnd, List, length, min};
ghost use Rattle.scmi_core.specs.declared.event.Event.{Event};
ghost use Rattle.scmi_c.specs.Standing.{IsCounted, StandsAt};
ghost use Rattle.scmi_c.specs.declared.code.TheConstants.{DONE, NO_PLATFORM, NO_HISTORY};

use crate::code::{DONE, NO_HISTORY, NO_PLATFORM};
use crate::handle::Handle;
use std::alloc::Global;

/// Gives the number of events of the history, or 2^64 - 1 if they are more. `DONE`; `NO_PLATFORM`;
/// `NO_HISTORY` of a platform whose events are not counted. After another number than `DONE` nothing
/// changed.
#[unsafe(no_mangle)]
pub extern "C" fn scmi_history_length(alloc: Global, platform: &mut Handle, events: &mut u64) -> u32
    ensures done { result ≡ DONE →
        IsSomeAnd platform.old.value (λ p.
        (h : List Event) → StandsAt p.held h → events.new ≡ min (length h) (2 ^ 64 - 1)) }
    ensures platform { platform.new.value ≡ platform.old.value }
    ensures no_platform { (result ≡ NO_PLATFORM) ↔ (platform.old.value ≡ None) }
    ensures no_history { (result ≡ NO_HISTORY) ↔
        IsSomeAnd platform.old.value (λ p. ¬ (IsCounted p.held)) }
    ensures errors { (result ≡ DONE) ⊎ (result ≡ NO_PLATFORM) ⊎ (result ≡ NO_HISTORY) }
    ensures kept { result ≢ DONE → events.new ≡ events.old }
{
    let Some(desk) = platform.take(alloc) else {
        return NO_PLATFORM;
    };
    let given = desk.held.events;
    platform.put(desk);
    match given {
        Some(count) => {
            *events = count;
            DONE
        }
        None => NO_HISTORY,
    }
}
