//! Changes that the hardware made by itself.
ghost use Rattle.std.specs.Prelude.{◌⊎◌, ◌≡◌, ◌≢◌, ◌↔◌, None, IsSomeAnd};
ghost use Rattle.scmi_codec.specs.Rate.{rate_of};
ghost use Rattle.scmi_plan.specs.declared.effect.Effect.TheVariants.{Enabled, Rate, State};
ghost use Rattle.scmi_core.specs.Value.{HasNoResource, HasNoState};
ghost use Rattle.scmi_core.specs.declared.event.Event.TheVariants.{Reported};
ghost use Rattle.scmi_c.specs.Calls.{HasHappened};
ghost use Rattle.scmi_c.specs.Driven.{Drives, HappenInTurn};
ghost use Rattle.scmi_c.specs.Kept.{BeforeAfter, HasSameAside, IsAsked, IsUnasked};
ghost use Rattle.scmi_c.specs.Standing.{board_of};
ghost use Rattle.scmi_c.specs.Tables.{is_set};
ghost use Rattle.scmi_c.specs.declared.code.TheConstants.{ASKED, DONE, NO_PLATFORM, NO_RESOURCE, NO_STATE};

use crate::code::code;
use crate::handle::Handle;
use scmi_codec::rate_of;
use scmi_core::Effect;
use std::alloc::Global;

/// The hardware changed a domain by itself, to the state ON (0) or OFF (0x40000000): a rail failed,
/// or the machine was suspended. Agents read this state from now on, and the subscribers of the
/// domain are notified if it was another before. Pending sets stay pending (own). `DONE`;
/// `NO_PLATFORM`; `ASKED` if a command waits to be committed or to fail; `NO_RESOURCE`; `NO_STATE`
/// of another state. After another number than `DONE` nothing changed.
#[unsafe(no_mangle)]
pub extern "C" fn scmi_domain_is(
    alloc: Global,
    platform: &mut Handle,
    domain: u32,
    state: u32,
) -> u32
    ensures done { result ≡ DONE →
        BeforeAfter platform.old.value platform.new.value (λ p k.
        IsUnasked k × HasHappened p.held k.held (Reported (State domain state))) }
    ensures driven { result ≡ DONE →
        BeforeAfter platform.old.value platform.new.value (λ p k.
        Drives p.held k.held (Reported (State domain state))) }
    ensures no_resource { (result ≡ NO_RESOURCE) ↔ IsSomeAnd platform.old.value (λ p.
        IsUnasked p × HasNoResource (board_of p.held) (State domain state)) }
    ensures no_state { (result ≡ NO_STATE) ↔ IsSomeAnd platform.old.value (λ p.
        IsUnasked p × HasNoState (board_of p.held) (State domain state)) }
    ensures asked { (result ≡ ASKED) ↔ IsSomeAnd platform.old.value IsAsked }
    ensures aside { HasSameAside platform.old.value platform.new.value }
    ensures no_platform { (result ≡ NO_PLATFORM) ↔ (platform.old.value ≡ None) }
    ensures errors { (result ≡ DONE) ⊎ (result ≡ NO_PLATFORM) ⊎ (result ≡ ASKED) ⊎
        (result ≡ NO_RESOURCE) ⊎ (result ≡ NO_STATE) }
    ensures kept { result ≢ DONE → platform.new.value ≡ platform.old.value }
{
    let mut desk = match platform.take_unasked(alloc) {
        Ok(desk) => desk,
        Err(number) => return number,
    };
    let given = desk.held.report(Effect::State { domain, state });
    platform.put(desk);
    code(given)
}

/// A clock has this rate in Hz by itself, of which `low` and `high` are the words, whatever rates
/// the board has for it, and it is enabled if `enabled` is not 0. Agents read this from now on, and
/// pending sets stay pending (own). These are two events, the rate first. `DONE`; `NO_PLATFORM`;
/// `ASKED` if a command waits to be committed or to fail; `NO_RESOURCE`. After another number than
/// `DONE` nothing changed.
#[unsafe(no_mangle)]
pub extern "C" fn scmi_clock_is(
    alloc: Global,
    platform: &mut Handle,
    clock: u32,
    low: u32,
    high: u32,
    enabled: u32,
) -> u32
    ensures done { result ≡ DONE →
        BeforeAfter platform.old.value platform.new.value (λ p k.
        IsUnasked k × HappenInTurn p.held k.held
        (Reported (Rate clock (rate_of low high)))
        (Reported (Enabled clock (is_set enabled)))) }
    ensures no_resource { (result ≡ NO_RESOURCE) ↔ IsSomeAnd platform.old.value (λ p.
        IsUnasked p × HasNoResource (board_of p.held) (Rate clock (rate_of low high))) }
    ensures asked { (result ≡ ASKED) ↔ IsSomeAnd platform.old.value IsAsked }
    ensures aside { HasSameAside platform.old.value platform.new.value }
    ensures no_platform { (result ≡ NO_PLATFORM) ↔ (platform.old.value ≡ None) }
    ensures errors { (result ≡ DONE) ⊎ (result ≡ NO_PLATFORM) ⊎ (result ≡ ASKED) ⊎
        (result ≡ NO_RESOURCE) }
    ensures kept { result ≢ DONE → platform.new.value ≡ platform.old.value }
{
    let mut desk = match platform.take_unasked(alloc) {
        Ok(desk) => desk,
        Err(number) => return number,
    };
    let given = desk
        .held
        .report_clock(clock, rate_of(low, high), enabled != 0);
    platform.put(desk);
    code(given)
}
