//! Changes of hardware, as numbers for C.
ghost use Rattle.std.specs.Prelude.{◌≡◌};
ghost use Rattle.scmi_plan.specs.declared.effect.Effect.{Effect};
ghost use Rattle.scmi_c.specs.Effect.{numbers_of};

use scmi_codec::{rate_of, rate_words};
use scmi_core::Effect;

/// A change of a domain's state.
pub const STATE: u32 = 1;

/// A change of a clock's rate.
pub const RATE: u32 = 2;

/// A clock is enabled or disabled.
pub const ENABLED: u32 = 3;

/// A change of hardware: its kind, its domain or clock, and the new value, the lower word first.
#[repr(C)]
#[derive(Clone, Copy)]
pub struct EffectNumbers {
    pub kind: u32,
    pub id: u32,
    pub low: u32,
    pub high: u32,
}

/// Writes the numbers of a change, each by itself, since a copy of them all goes byte by byte.
#[inline(always)]
pub fn put_numbers(effect: Effect, numbers: &mut EffectNumbers)
    ensures { numbers.new ≡ numbers_of effect }
{
    let [low, high] = match effect {
        Effect::State { domain, state } => {
            numbers.kind = STATE;
            numbers.id = domain;
            [state, 0]
        }
        Effect::Rate { clock, rate } => {
            numbers.kind = RATE;
            numbers.id = clock;
            rate_words(rate)
        }
        Effect::Enabled { clock, enabled } => {
            numbers.kind = ENABLED;
            numbers.id = clock;
            [u32::from(enabled), 0]
        }
    };
    numbers.low = low;
    numbers.high = high;
}

/// The change of which these are the numbers.
#[inline(always)]
pub fn effect_of(numbers: &EffectNumbers) -> Effect
    ensures { (effect : Effect) → numbers_of effect ≡ numbers.now → result ≡ effect }
{
    match numbers.kind {
        STATE => Effect::State {
            domain: numbers.id,
            state: numbers.low,
        },
        RATE => Effect::Rate {
            clock: numbers.id,
            rate: rate_of(numbers.low, numbers.high),
        },
        _ => Effect::Enabled {
            clock: numbers.id,
            enabled: numbers.low == 1,
        },
    }
}
