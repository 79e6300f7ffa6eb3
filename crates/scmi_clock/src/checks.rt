//! The checks of commands, in the order of the profile (own).
ghost use Rattle.std.specs.Prelude.{◌≡◌, ◌<◌, ◌&&◌, ◌||◌, not, true, false, if◌then◌else◌, length, is_none, Some, Ok, Err, IfOk, IfErr, OnOk, OnErr};
ghost use Rattle.scmi_codec.specs.Reply.{bit_0, AreDecided};
ghost use Rattle.scmi_codec.specs.declared.status.Status.TheVariants.{NotFound, InvalidParameters, NotSupported, Denied, Busy, OutOfRange};
ghost use Rattle.scmi_plan.specs.Agent.{IsAgent};
ghost use Rattle.scmi_plan.specs.Board.{channel_of, is_kept};
ghost use Rattle.scmi_plan.specs.declared.resource.Resource.TheVariants as resource;
ghost use Rattle.scmi_plan.specs.Rates.{rates_of};
ghost use Rattle.scmi_plan.specs.declared.limits.TheConstants.{CLOCKS};
ghost use Rattle.scmi_clock.specs.ClockReply.{no_clock, past_end, rate_for};
ghost use Rattle.scmi_clock.specs.ClockTable.{set_rate, may_change, is_pending, set_words, config_words};
ghost use Rattle.scmi_clock.specs.SetFlags.{has_unknown_flags, is_asynchronous, is_response_wanted};

use crate::rounding::round;
use crate::set_flags::SetFlags;
use scmi_base::BaseState;
use scmi_codec::{Status, single_flag};
use scmi_plan::{Load, Plan, Rates, Resource};

/// A rate set that passed its checks: the rate in Hz, whether it is asynchronous, and whether it
/// then wants a delayed response.
#[derive(Clone, Copy)]
pub(crate) struct RateSet {
    pub rate: u64,
    pub asynchronous: bool,
    pub response_wanted: bool,
}

/// The checks of 0x5 (DEN0056B, clock management protocol): clock, flags and rate, a delayed response
/// that could not be sent, permission, pending sets.
// It has two callers, and costs each no more than one that is alone.
#[inline(always)]
pub(crate) fn check_set(
    plan: &Plan,
    base: &BaseState,
    caller: u32,
    flags: u32,
    clock: u32,
    rate: u64,
    load: Load,
) -> Result<RateSet, Status>
    requires caller { IsAgent (length plan.now.agents) caller }
    ensures decided { AreDecided (set_words plan.now base.now caller load flags clock rate) result }
    ensures rate { IfOk result (λ set. set.rate ≡ set_rate plan.now flags clock rate) }
    ensures asynchronous { IfOk result (λ set. set.asynchronous ≡ is_asynchronous flags) }
    ensures response_wanted { IfOk result (λ set. set.response_wanted ≡ is_response_wanted flags) }
    ensures clock { IfOk result (λ set. (clock < length plan.now.clocks) × (clock < CLOCKS)) }
    ensures room { IfOk result (λ set. is_asynchronous flags ≡ true → load.room ≡ true) }
{
    check_clock(plan, clock)?;
    let set = read_set(plan, clock, flags, rate)?;
    check_answerable(plan, caller, set.asynchronous)?;
    check_permitted(plan, base, caller, clock)?;
    check_pending(load, clock, set.asynchronous)?;
    Ok(set)
}

/// What flags and a rate ask for; INVALID_PARAMETERS for unknown flags, and if no supported rate
/// lies in the requested direction, unless the clock is free.
#[inline(always)]
fn read_set(plan: &Plan, clock: u32, flags: u32, rate: u64) -> Result<RateSet, Status>
    requires { clock < length plan.now.clocks }
    ensures rate { IfOk result (λ set. rate_for plan.now clock flags rate ≡ Some set.rate) }
    ensures asynchronous { IfOk result (λ set. set.asynchronous ≡ is_asynchronous flags) }
    ensures response_wanted { IfOk result (λ set. set.response_wanted ≡ is_response_wanted flags) }
    ensures accepted { OnOk result
        ((has_unknown_flags flags || is_none (rate_for plan.now clock flags rate)) ≡ false) }
    ensures status { IfErr result (λ status. status ≡ InvalidParameters) }
    ensures refused { IfErr result (λ status.
        (has_unknown_flags flags || is_none (rate_for plan.now clock flags rate)) ≡ true) }
{
    let flags = SetFlags::read(flags)?;
    let rate = if plan.is_free(clock) {
        rate
    } else {
        let rates = &plan.clock(clock).rates;
        round(rates, rate, flags.rounding).ok_or(Status::InvalidParameters)?
    };
    Ok(RateSet {
        rate,
        asynchronous: flags.asynchronous,
        response_wanted: flags.response_wanted,
    })
}

/// The checks of 0x7 (DEN0056B, clock management protocol): clock, attributes, permission. Returns
/// whether the clock is to be enabled.
pub(crate) fn check_config(
    plan: &Plan,
    base: &BaseState,
    caller: u32,
    clock: u32,
    attributes: u32,
) -> Result<bool, Status>
    requires caller { IsAgent (length plan.now.agents) caller }
    ensures decided { AreDecided (config_words plan.now base.now caller clock attributes) result }
    ensures enable { IfOk result (λ enable. enable ≡ bit_0 attributes) }
    ensures clock { IfOk result (λ enable. (clock < length plan.now.clocks) × (clock < CLOCKS)) }
{
    check_clock(plan, clock)?;
    let enable = single_flag(attributes)?;
    check_may_configure(plan, base, caller, clock, enable)?;
    Ok(enable)
}

/// DENIED if the caller may not change a clock, or would disable one that the board keeps (own).
fn check_may_configure(
    plan: &Plan,
    base: &BaseState,
    caller: u32,
    clock: u32,
    enable: bool,
) -> Result<(), Status>
    requires caller { IsAgent (length plan.now.agents) caller }
    requires clock { clock < length plan.now.clocks }
    ensures { result ≡ (if may_change plan.now base.now caller clock
        && not (is_kept plan.now (resource.Clock clock) && not enable)
        then Ok tt else Err Denied) }
{
    check_permitted(plan, base, caller, clock)?;
    if !enable && plan.is_kept(Resource::Clock(clock)) {
        return Err(Status::Denied);
    }
    Ok(())
}

/// NOT_FOUND if the board has no such clock, or it is not there (own).
pub(crate) fn check_clock(plan: &Plan, clock: u32) -> Result<(), Status>
    ensures first { result ≡ (if no_clock plan.now clock then Err NotFound else Ok tt) }
    ensures clock { IfOk result (λ u. (clock < length plan.now.clocks) × (clock < CLOCKS)) }
{
    if clock >= plan.clocks() || plan.is_absent(Resource::Clock(clock)) {
        return Err(Status::NotFound);
    }
    Ok(())
}

/// OUT_OF_RANGE if an index is past the end of a list of rates.
pub(crate) fn check_index(rates: &Rates, index: u32) -> Result<(), Status>
    ensures { result ≡ (if past_end (rates_of rates.now) index then Err OutOfRange else Ok tt) }
{
    match rates {
        Rates::List(list) if index as usize >= list.len() => Err(Status::OutOfRange),
        _ => Ok(()),
    }
}

/// NOT_SUPPORTED if the platform could not notify the caller of the result of an asynchronous set
/// (own).
fn check_answerable(plan: &Plan, caller: u32, asynchronous: bool) -> Result<(), Status>
    requires caller { IsAgent (length plan.now.agents) caller }
    ensures { result ≡ (if (channel_of plan.now caller).one_way && asynchronous
        then Err NotSupported else Ok tt) }
{
    if asynchronous && plan.channel(caller).one_way {
        return Err(Status::NotSupported);
    }
    Ok(())
}

/// DENIED if the caller may not change the clock.
fn check_permitted(plan: &Plan, base: &BaseState, caller: u32, clock: u32) -> Result<(), Status>
    requires caller { IsAgent (length plan.now.agents) caller }
    requires clock { clock < length plan.now.clocks }
    ensures ok { OnOk result (may_change plan.now base.now caller clock ≡ true) }
    ensures denied { OnErr result (may_change plan.now base.now caller clock ≡ false) }
    ensures status { IfErr result (λ status. status ≡ Denied) }
{
    if !base.may_change(plan, caller, Resource::Clock(clock)) {
        return Err(Status::Denied);
    }
    Ok(())
}

/// BUSY if the clock has a pending set, or if an asynchronous set has no room.
fn check_pending(load: Load, clock: u32, asynchronous: bool) -> Result<(), Status>
    requires { clock < CLOCKS }
    ensures { result
        ≡ (if is_pending load clock || (asynchronous && not load.room) then Err Busy else Ok tt) }
{
    if (load.busy >> clock) & 1 == 1 || (asynchronous && !load.room) {
        return Err(Status::Busy);
    }
    Ok(())
}
