//! What waits in a platform: pending sets and messages.
ghost use Rattle.std.specs.Prelude.{◌≡◌, ◌≢◌, ◌↔◌, ◌⊎◌, ◌≤◌, None, IsSomeAnd, IfSome, List, length, slice_get};
ghost use Rattle.scmi_core.specs.Commands.{setting_effect};
ghost use Rattle.scmi_core.specs.History.{deeds, outbox};
ghost use Rattle.scmi_core.specs.Pending.{pending_sets};
ghost use Rattle.scmi_core.specs.Standing.{StandsAfter};
ghost use Rattle.scmi_core.specs.declared.event.Event.{Event};
ghost use Rattle.scmi_c.specs.Effect.{numbers_of};
ghost use Rattle.scmi_c.specs.Standing.{LacksAgent, StandsAt, board_of};
ghost use Rattle.scmi_c.specs.declared.code.TheConstants.{DONE, NOTHING, NO_AGENT, NO_PLATFORM};

use crate::code::{DONE, NO_AGENT, NO_PLATFORM, NOTHING};
use crate::effect::{EffectNumbers, put_numbers};
use crate::handle::Handle;
use scmi_core::{PendingSet, Platform};
use std::alloc::Global;

/// Gives the pending set at a place, 0 that of the first, in the order in which they complete: its
/// agent, and what it is to change of the hardware. `DONE`; `NO_PLATFORM`; `NOTHING` if no more are
/// pending. The platform is as it was.
#[unsafe(no_mangle)]
pub extern "C" fn scmi_pending(
    alloc: Global,
    platform: &mut Handle,
    place: u32,
    agent: &mut u32,
    effect: &mut EffectNumbers,
) -> u32
    ensures done { result ≡ DONE →
        IsSomeAnd platform.old.value (λ p.
        (h : List Event) → StandsAt p.held h →
        IsSomeAnd
        (slice_get (pending_sets (board_of p.held) (deeds (board_of p.held) h)) place) (λ set.
        (agent.new ≡ set.agent) × (effect.new ≡ numbers_of (setting_effect set.setting)))) }
    ensures nothing { IfSome platform.old.value (λ p.
        (h : List Event) → StandsAt p.held h →
        (result ≡ NOTHING) ↔
        (slice_get (pending_sets (board_of p.held) (deeds (board_of p.held) h)) place ≡ None)) }
    ensures platform { platform.new.value ≡ platform.old.value }
    ensures no_platform { (result ≡ NO_PLATFORM) ↔ (platform.old.value ≡ None) }
    ensures errors { (result ≤ NOTHING) ⊎ (result ≡ NO_PLATFORM) }
    ensures kept { result ≢ DONE → (agent.new ≡ agent.old) × (effect.new ≡ effect.old) }
{
    let Some(desk) = platform.take(alloc) else {
        return NO_PLATFORM;
    };
    let given = pending_set(&desk.held.platform, place);
    platform.put(desk);
    match given {
        Some(set) => {
            *agent = set.agent;
            put_numbers(set.effect(), effect);
            DONE
        }
        None => NOTHING,
    }
}

/// The pending set at a place, 0 that of the first, in the order in which they complete.
fn pending_set(platform: &Platform, place: u32) -> Option<PendingSet>
    ensures { (h : List Event) → StandsAfter platform.now h →
        result ≡ slice_get (pending_sets platform.now.board (deeds platform.now.board h)) place }
{
    platform.pending_sets().get(place as usize).copied()
}

/// Gives how many messages wait in an agent's outbox. `DONE`; `NO_PLATFORM`; `NO_AGENT`. The platform is
/// as it was.
#[unsafe(no_mangle)]
pub extern "C" fn scmi_outbox_length(
    alloc: Global,
    platform: &mut Handle,
    agent: u32,
    messages: &mut u64,
) -> u32
    ensures done { result ≡ DONE →
        IsSomeAnd platform.old.value (λ p.
        (h : List Event) → StandsAt p.held h →
        messages.new ≡ length (outbox (board_of p.held) agent h)) }
    ensures platform { platform.new.value ≡ platform.old.value }
    ensures no_platform { (result ≡ NO_PLATFORM) ↔ (platform.old.value ≡ None) }
    ensures no_agent { (result ≡ NO_AGENT)
        ↔ IsSomeAnd platform.old.value (λ p. LacksAgent agent p.held) }
    ensures errors { (result ≡ DONE) ⊎ (result ≡ NO_AGENT) ⊎ (result ≡ NO_PLATFORM) }
    ensures kept { result ≢ DONE → messages.new ≡ messages.old }
{
    let Some(desk) = platform.take(alloc) else {
        return NO_PLATFORM;
    };
    let given = desk.held.platform.waiting(agent);
    platform.put(desk);
    match given {
        Some(count) => {
            *messages = count as u64;
            DONE
        }
        None => NO_AGENT,
    }
}
