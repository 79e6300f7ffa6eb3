//! The rules that a board has to keep, in the order of their numbers. None takes memory.
ghost use Rattle.std.specs.Prelude.{◌≡◌, ◌≢◌, ◌^◌, ◌&&◌, ◌||◌, nat_le, nat_lt, IfSome, length, true, map, string_bytes};
ghost use Rattle.std.specs.List.{list_all};
ghost use Rattle.scmi_plan.specs.Board.{Board};
ghost use Rattle.scmi_plan.specs.Rates.{rates_of};
ghost use Rattle.scmi_plan.specs.RawPlan.{asked_board, asked_domain, asked_clock};
ghost use Rattle.scmi_plan.specs.PlanError.{first_fault, has_valid_counts, has_valid_names, has_valid_clocks, is_name, is_valid, is_valid_list, supports, rises};
ghost use Rattle.scmi_plan.specs.declared.plan_error.PlanError.TheVariants.{Memory};

use crate::clock::Clock;
use crate::device::Device;
use crate::limits::{AGENTS, CLOCKS, DEVICES, DOMAINS, RATES};
use crate::plan_error::PlanError;
use crate::rates::Rates;
use crate::raw_plan::{RawClock, RawDomain, RawPlan};
use scmi_codec::Name;

/// The first rule that a board breaks.
#[inline(never)]
pub(crate) fn first_fault(raw: &RawPlan) -> Option<PlanError>
    ensures fault { result ≡ first_fault (asked_board raw.now) }
    ensures rule { IfSome result (λ fault. fault ≢ Memory) }
{
    if !has_valid_counts(raw) {
        Some(PlanError::Count)
    } else if !has_valid_names(raw) {
        Some(PlanError::Name)
    } else if !has_valid_clocks(raw) {
        Some(PlanError::Rates)
    } else if !are_valid_devices(&raw.devices, raw.domains.len(), raw.clocks.len()) {
        Some(PlanError::Device)
    } else if !is_trusted_agent(raw.trusted, raw.agents.len()) {
        Some(PlanError::Trusted)
    } else {
        None
    }
}

fn has_valid_counts(raw: &RawPlan) -> bool
    ensures { result ≡ has_valid_counts (asked_board raw.now) }
{
    are_valid_counts(
        raw.agents.len(),
        raw.domains.len(),
        raw.clocks.len(),
        raw.devices.len(),
    )
}

/// Whether a board may have so many agents, domains, clocks and devices.
pub fn are_valid_counts(agents: usize, domains: usize, clocks: usize, devices: usize) -> bool
    ensures { (board : Board) → length board.agents ≡ agents → length board.domains ≡ domains
        → length board.clocks ≡ clocks → length board.devices ≡ devices
        → result ≡ has_valid_counts board }
{
    1 <= agents && agents <= AGENTS && domains <= DOMAINS && clocks <= CLOCKS && devices <= DEVICES
}

fn has_valid_names(raw: &RawPlan) -> bool
    ensures { result ≡ has_valid_names (asked_board raw.now) }
{
    is_name(&raw.vendor)
        && is_name(&raw.sub_vendor)
        && are_agents_named(&raw.agents)
        && are_domains_named(&raw.domains)
        && are_clocks_named(&raw.clocks)
}

fn are_agents_named(agents: &[String]) -> bool
    ensures { result ≡ list_all is_name (map string_bytes agents.now) }
{
    agents.iter().all(|agent| is_name(agent))
}

fn are_domains_named(domains: &[RawDomain]) -> bool
    ensures { result ≡ list_all (λ domain. is_name domain.name) (map asked_domain domains.now) }
{
    domains.iter().all(|domain| is_name(&domain.name))
}

fn are_clocks_named(clocks: &[RawClock]) -> bool
    ensures { result ≡ list_all (λ clock. is_name clock.name) (map asked_clock clocks.now) }
{
    clocks.iter().all(|clock| is_name(&clock.name))
}

// It is called at five places.
#[inline(never)]
fn is_name(text: &str) -> bool
    ensures { result ≡ is_name text.now }
{
    Name::new(text).is_some()
}

fn has_valid_clocks(raw: &RawPlan) -> bool
    ensures { result ≡ has_valid_clocks (asked_board raw.now) }
{
    raw.clocks
        .iter()
        .all(|clock| is_valid_start(&clock.rates, clock.rate, false))
}

/// Whether each clock has valid rates, and starts at one of them, unless the board is loose.
pub(crate) fn are_valid_clocks(clocks: &[Clock], loose: bool) -> bool
    ensures { result ≡ list_all (λ clock. is_valid clock.rates
        && (loose || supports clock.rates clock.rate)) clocks.now }
{
    clocks
        .iter()
        .all(|clock| is_valid_start(&clock.rates, clock.rate, loose))
}

/// Whether rates are valid, and this is one of them, unless the board is loose.
fn is_valid_start(rates: &Rates, rate: u64, loose: bool) -> bool
    ensures { result ≡ (is_valid (rates_of rates.now)
        && (loose || supports (rates_of rates.now) rate)) }
{
    is_valid(rates) && (loose || supports(rates, rate))
}

fn is_valid(rates: &Rates) -> bool
    ensures { result ≡ is_valid (rates_of rates.now) }
{
    match rates {
        Rates::List(list) => is_valid_list(list.as_slice()),
        Rates::Steps { low, high, step } => {
            *step != 0 && low <= high && (*high - *low) % *step == 0
        }
    }
}

fn is_valid_list(rates: &[u64]) -> bool
    ensures { result ≡ is_valid_list rates.now }
{
    1 <= rates.len() && rates.len() <= RATES && rises(rates)
}

fn rises(rates: &[u64]) -> bool
    ensures { result ≡ rises rates.now }
{
    rates.is_sorted_by(|rate, next| *rate < *next)
}

fn supports(rates: &Rates, rate: u64) -> bool
    requires { is_valid (rates_of rates.now) ≡ true }
    ensures { result ≡ supports (rates_of rates.now) rate }
{
    match rates {
        Rates::List(list) => list.as_slice().contains(&rate),
        Rates::Steps { low, high, step } => {
            *low <= rate && rate <= *high && (rate - *low) % *step == 0
        }
    }
}

/// Whether each device holds only domains and clocks of which there are so many.
pub(crate) fn are_valid_devices(devices: &[Device], domains: usize, clocks: usize) -> bool
    ensures { result ≡ list_all (λ device. nat_lt device.domains (2 ^ domains)
        && nat_lt device.clocks (2 ^ clocks)) devices.now }
{
    devices.iter().all(|device| is_within(device.domains, domains)
        && is_within(device.clocks, clocks))
}

/// Whether a set has only members below a count.
pub(crate) fn is_within(set: u32, count: usize) -> bool
    ensures { result ≡ nat_lt set (2 ^ count) }
{
    count >= 32 || set >> count == 0
}

/// Whether an agent is one of so many.
pub(crate) fn is_trusted_agent(trusted: u32, agents: usize) -> bool
    ensures { result ≡ (nat_le 1 trusted && nat_le trusted agents) }
{
    1 <= trusted && trusted as usize <= agents
}
