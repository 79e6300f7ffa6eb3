//! Values of domains and clocks.
ghost use Rattle.std.specs.Prelude.{◌≡◌, ◌≢◌, ◌↔◌, ◌⊎◌, ◌≤◌, ◌/◌, ◌%◌, ◌^◌, None, IsSomeAnd, List, length};
ghost use Rattle.scmi_core.specs.History.{value_after};
ghost use Rattle.scmi_core.specs.Value.{State, Rate, Enabled};
ghost use Rattle.scmi_core.specs.declared.event.Event.{Event};
ghost use Rattle.scmi_c.specs.Standing.{StandsAt, board_of};
ghost use Rattle.scmi_c.specs.declared.code.TheConstants.{DONE, NO_PLATFORM, NO_RESOURCE};

use crate::code::{DONE, NO_PLATFORM, NO_RESOURCE};
use crate::handle::Handle;
use scmi_codec::rate_words;
use std::alloc::Global;

/// Gives the state of a power domain, as the word that a reply has. `DONE`; `NO_PLATFORM`; `NO_RESOURCE`
/// if the board lacks the domain. The platform is as it was.
#[unsafe(no_mangle)]
pub extern "C" fn scmi_domain_state(
    alloc: Global,
    platform: &mut Handle,
    domain: u32,
    state: &mut u32,
) -> u32
    ensures done { result ≡ DONE →
        IsSomeAnd platform.old.value (λ p.
        (h : List Event) → StandsAt p.held h →
        state.new ≡ value_after (board_of p.held) (State domain) h) }
    ensures platform { platform.new.value ≡ platform.old.value }
    ensures no_platform { (result ≡ NO_PLATFORM) ↔ (platform.old.value ≡ None) }
    ensures no_resource { (result ≡ NO_RESOURCE) ↔
        IsSomeAnd platform.old.value (λ p. length (board_of p.held).domains ≤ domain) }
    ensures errors { (result ≡ DONE) ⊎ (result ≡ NO_PLATFORM) ⊎ (result ≡ NO_RESOURCE) }
    ensures kept { result ≢ DONE → state.new ≡ state.old }
{
    let Some(desk) = platform.take(alloc) else {
        return NO_PLATFORM;
    };
    let given = desk.held.platform.power_state(domain);
    platform.put(desk);
    match given {
        Some(value) => {
            *state = value;
            DONE
        }
        None => NO_RESOURCE,
    }
}

/// Gives the rate of a clock in Hz, as its lower and its upper word. `DONE`; `NO_PLATFORM`; `NO_RESOURCE`
/// if the board lacks the clock. The platform is as it was.
#[unsafe(no_mangle)]
pub extern "C" fn scmi_clock_rate(
    alloc: Global,
    platform: &mut Handle,
    clock: u32,
    low: &mut u32,
    high: &mut u32,
) -> u32
    ensures done { result ≡ DONE →
        IsSomeAnd platform.old.value (λ p.
        (h : List Event) → StandsAt p.held h →
        (low.new ≡ value_after (board_of p.held) (Rate clock) h % 2 ^ 32)
        × (high.new ≡ value_after (board_of p.held) (Rate clock) h / 2 ^ 32)) }
    ensures platform { platform.new.value ≡ platform.old.value }
    ensures no_platform { (result ≡ NO_PLATFORM) ↔ (platform.old.value ≡ None) }
    ensures no_resource { (result ≡ NO_RESOURCE) ↔
        IsSomeAnd platform.old.value (λ p. length (board_of p.held).clocks ≤ clock) }
    ensures errors { (result ≡ DONE) ⊎ (result ≡ NO_PLATFORM) ⊎ (result ≡ NO_RESOURCE) }
    ensures kept { result ≢ DONE → (low.new ≡ low.old) × (high.new ≡ high.old) }
{
    let Some(desk) = platform.take(alloc) else {
        return NO_PLATFORM;
    };
    let given = desk.held.platform.clock_rate(clock);
    platform.put(desk);
    match given {
        Some(rate) => {
            [*low, *high] = rate_words(rate);
            DONE
        }
        None => NO_RESOURCE,
    }
}

/// Gives 1 if a clock is enabled, else 0. `DONE`; `NO_PLATFORM`; `NO_RESOURCE` if the board lacks
/// the clock. The platform is as it was.
#[unsafe(no_mangle)]
pub extern "C" fn scmi_clock_enabled(
    alloc: Global,
    platform: &mut Handle,
    clock: u32,
    enabled: &mut u32,
) -> u32
    ensures done { result ≡ DONE →
        IsSomeAnd platform.old.value (λ p.
        (h : List Event) → StandsAt p.held h →
        enabled.new ≡ value_after (board_of p.held) (Enabled clock) h) }
    ensures platform { platform.new.value ≡ platform.old.value }
    ensures no_platform { (result ≡ NO_PLATFORM) ↔ (platform.old.value ≡ None) }
    ensures no_resource { (result ≡ NO_RESOURCE) ↔
        IsSomeAnd platform.old.value (λ p. length (board_of p.held).clocks ≤ clock) }
    ensures errors { (result ≡ DONE) ⊎ (result ≡ NO_PLATFORM) ⊎ (result ≡ NO_RESOURCE) }
    ensures kept { result ≢ DONE → enabled.new ≡ enabled.old }
{
    let Some(desk) = platform.take(alloc) else {
        return NO_PLATFORM;
    };
    let given = desk.held.platform.is_clock_enabled(clock);
    platform.put(desk);
    match given {
        Some(is_enabled) => {
            *enabled = u32::from(is_enabled);
            DONE
        }
        None => NO_RESOURCE,
    }
}
