//! The surface of `scmi_plan`.
ghost use Rattle.std.specs.Prelude.{◌≡◌, true};

use scmi_codec::Name;
use scmi_plan::{
    Clock, Device, Domain, Effect, Load, Plan, PlanError, Rates, RawClock, RawDomain, RawPlan,
    Report, Resource,
};
use std::alloc::Global;

/// Rows of a board, by all their fields: a domain, a clock with a list, and one with steps.
fn rows(alloc: Global) -> (RawDomain, RawClock, RawClock) {
    let domain = RawDomain {
        name: String::new(alloc),
        on: false,
        synchronous: true,
        asynchronous: true,
        notify: true,
    };
    let core = RawClock {
        name: String::new(alloc),
        enabled: true,
        rate: 100,
        rates: Rates::List(Vec::new(alloc)),
    };
    let bus = RawClock {
        name: String::new(alloc),
        enabled: false,
        rate: 1000,
        rates: Rates::Steps {
            low: 1000,
            high: 4000,
            step: 500,
        },
    };
    (domain, core, bus)
}

/// A board of no agent, by all its fields.
fn empty(alloc: Global) -> RawPlan {
    RawPlan {
        vendor: String::new(alloc),
        sub_vendor: String::new(alloc),
        version: 0x0001_0000,
        trusted: 1,
        agents: Vec::new(alloc),
        domains: Vec::new(alloc),
        clocks: Vec::new(alloc),
        devices: Vec::new(alloc),
    }
}

fn name_the_calls() {
    let _: fn(Global, &RawPlan) -> Result<Plan, PlanError> = Plan::check;
    let _: fn(&Plan) -> u32 = Plan::version;
    let _: fn(&Plan) -> u32 = Plan::trusted;
    let _: fn(&Plan) -> u32 = Plan::agents;
    let _: fn(&Plan) -> u32 = Plan::domains;
    let _: fn(&Plan) -> u32 = Plan::clocks;
    let _: fn(&Plan) -> u32 = Plan::devices;
    let _: fn(&Plan, u32) -> Device = Plan::device;
    let _: fn(&Plan, u32, Resource) -> bool = Plan::holds;
}

/// The first row of each kind.
fn first_rows(plan: &Plan) -> Option<(&Domain, &Clock)> {
    if plan.domains() == 0 || plan.clocks() == 0 {
        return None;
    }
    Some((plan.domain(0), plan.clock(0)))
}

fn names(plan: &Plan) -> [&Name; 3] {
    let _agents = plan.agents();
    [plan.vendor(), plan.sub_vendor(), plan.agent(1)]
}

/// What a board has, by all its fields.
fn fields(board: RawPlan) -> (String, String, [u32; 2], Vec<String>, Rows) {
    let RawPlan {
        vendor,
        sub_vendor,
        version,
        trusted,
        agents,
        domains,
        clocks,
        devices,
    } = board;
    let rows = (domains, clocks, devices);
    (vendor, sub_vendor, [version, trusted], agents, rows)
}

type Rows = (Vec<RawDomain>, Vec<RawClock>, Vec<Device>);

fn fields_of_rows(domain: RawDomain, clock: RawClock) -> (String, [bool; 5], String, u64, Rates) {
    let RawDomain {
        name: domain,
        on,
        synchronous,
        asynchronous,
        notify,
    } = domain;
    let RawClock {
        name: clock,
        enabled,
        rate,
        rates,
    } = clock;
    let bits = [on, synchronous, asynchronous, notify, enabled];
    (domain, bits, clock, rate, rates)
}

/// A device and a load again, by all their fields.
fn rebuilt(device: Device, load: Load) -> (Device, Load) {
    let Device { domains, clocks } = device;
    let Load { busy, room } = load;
    (Device { domains, clocks }, Load { busy, room })
}

fn rates_of(rates: &Rates) -> (usize, [u64; 3]) {
    match rates {
        Rates::List(list) => (list.as_slice().len(), [0; 3]),
        Rates::Steps { low, high, step } => (0, [*low, *high, *step]),
    }
}

fn number_of(resource: Resource) -> u32 {
    match resource {
        Resource::Domain(domain) => domain,
        Resource::Clock(clock) => clock,
    }
}

/// What hardware reports is one of these, by its fields.
fn fields_of_report(report: Report) -> (Option<Effect>, u32, u64) {
    match report {
        Report::Changed(effect) => (Some(effect), 0, 0),
        Report::First(place) => (None, place, 0),
        Report::Settled { clock, rate } => (None, clock, rate),
    }
}

/// Errors have the numbers of their order.
fn is_numbered(error: PlanError) -> bool
    ensures { result ≡ true }
{
    let number = match error {
        PlanError::Count => 1,
        PlanError::Name => 2,
        PlanError::Rates => 3,
        PlanError::Device => 4,
        PlanError::Trusted => 5,
        PlanError::Memory => 6,
    };
    error as u8 == number
}
