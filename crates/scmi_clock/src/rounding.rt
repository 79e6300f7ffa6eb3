//! Rounding to a supported rate.
ghost use Rattle.std.specs.Prelude.{◌≡◌, ◌≤◌, ◌↔◌, IfSome, IsNone};
ghost use Rattle.scmi_plan.specs.Rates.{HasValidRates, rates_of};
ghost use Rattle.scmi_plan.specs.Rates as supported;
ghost use Rattle.scmi_clock.specs.Rounding.{IsRounded, HasNoRate, rate_below, rate_above, round_to, nearer};

use scmi_plan::Rates;

/// Which supported rate is chosen for a requested one (DEN0056B, clock management protocol).
#[derive(Clone, Copy, PartialEq, Eq, Debug)]
pub enum Rounding {
    /// The greatest rate that is at most the requested one.
    Down,
    /// The least rate that is at least the requested one.
    Up,
    /// The rate that is closest to the requested one, and of two that are equally close the lower
    /// (own).
    Nearest,
}

/// The supported rate in Hz that is chosen for a requested one, from 0 to 2^64 - 1 Hz. `None` if
/// every supported rate is above it, rounding down, or below it, rounding up; there is always a
/// nearest rate.
#[tactic(auto, using(crate::proofs::Rounds::rounded_is, crate::proofs::Rounds::rounded_none))]
#[inline(always)]
pub fn round(rates: &Rates, asked: u64, rounding: Rounding) -> Option<u64>
    requires { HasValidRates (rates_of rates.now) }
    ensures rounded { IfSome result (λ rate. IsRounded rounding (rates_of rates.now) asked rate) }
    ensures none { IsNone result ↔ HasNoRate rounding (rates_of rates.now) asked }
    ensures computed { result ≡ round_to rounding (rates_of rates.now) asked }
{
    match rounding {
        Rounding::Down => below(rates, asked),
        Rounding::Up => above(rates, asked),
        Rounding::Nearest => nearest(rates, asked),
    }
}

fn below(rates: &Rates, asked: u64) -> Option<u64>
    requires { HasValidRates (rates_of rates.now) }
    ensures { result ≡ rate_below (rates_of rates.now) asked }
{
    match rates {
        Rates::List(list) => list_below(list.as_slice(), asked),
        Rates::Steps { low, high, step } => step_below(*low, *high, *step, asked),
    }
}

fn above(rates: &Rates, asked: u64) -> Option<u64>
    requires { HasValidRates (rates_of rates.now) }
    ensures { result ≡ rate_above (rates_of rates.now) asked }
{
    match rates {
        Rates::List(list) => list_above(list.as_slice(), asked),
        Rates::Steps { low, high, step } => step_above(*low, *high, *step, asked),
    }
}

#[tactic(auto, using(crate::proofs::Rounds::below_low, crate::proofs::Rounds::above_high))]
#[inline(always)]
fn nearest(rates: &Rates, asked: u64) -> Option<u64>
    requires { HasValidRates (rates_of rates.now) }
    ensures { result ≡ nearer asked (rate_below (rates_of rates.now) asked)
        (rate_above (rates_of rates.now) asked) }
{
    match (below(rates, asked), above(rates, asked)) {
        (None, up) => up,
        (Some(down), None) => Some(down),
        (Some(down), Some(up)) => Some(nearer(asked, down, up)),
    }
}

/// The nearer of a rate at most the requested one and of one at least it, the lower on a tie (own).
fn nearer(asked: u64, down: u64, up: u64) -> u64
    requires down { down ≤ asked }
    requires up { asked ≤ up }
    ensures { Some result ≡ nearer asked (Some down) (Some up) }
{
    if asked - down <= up - asked { down } else { up }
}

fn list_below(list: &[u64], asked: u64) -> Option<u64>
    requires { HasValidRates (supported.list list.now) }
    ensures { result ≡ rate_below (supported.list list.now) asked }
{
    match list.partition_point(|rate| *rate <= asked) {
        0 => None,
        count => Some(list[count - 1]),
    }
}

fn list_above(list: &[u64], asked: u64) -> Option<u64>
    requires { HasValidRates (supported.list list.now) }
    ensures { result ≡ rate_above (supported.list list.now) asked }
{
    let count = list.partition_point(|rate| *rate < asked);
    list.get(count).copied()
}

#[tactic(auto, using(crate::proofs::StepRates::below_none, crate::proofs::StepRates::below_high, crate::proofs::StepRates::below_between))]
fn step_below(low: u64, high: u64, step: u64, asked: u64) -> Option<u64>
    requires { HasValidRates (supported.steps low high step) }
    ensures { result ≡ rate_below (supported.steps low high step) asked }
{
    if asked < low {
        return None;
    }
    if asked >= high {
        return Some(high);
    }
    Some(asked - (asked - low) % step)
}

#[tactic(auto, using(crate::proofs::StepRates::above_none, crate::proofs::StepRates::above_low, crate::proofs::StepRates::above_exact, crate::proofs::StepRates::above_next))]
fn step_above(low: u64, high: u64, step: u64, asked: u64) -> Option<u64>
    requires { HasValidRates (supported.steps low high step) }
    ensures { result ≡ rate_above (supported.steps low high step) asked }
{
    if asked > high {
        return None;
    }
    if asked <= low {
        return Some(low);
    }
    match (asked - low) % step {
        0 => Some(asked),
        past => Some(asked - past + step),
    }
}
