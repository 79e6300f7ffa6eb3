//! Builds the rows of a valid board. The only error is out of memory.
//!
//! Each list is built out of line: inlined, the code for names, room and errors would be many times
//! in an image for firmware.
ghost use Rattle.std.specs.Prelude.{◌≡◌, ◌∷◌, ◌++◌, [], map, IfOk, OnOk, All, string_bytes};
ghost use Rattle.scmi_codec.specs.Name.{IsName};
ghost use Rattle.scmi_plan.specs.Plan.{IsValid};
ghost use Rattle.scmi_plan.specs.RawPlan.{asked_board, asked_domain, asked_clock};

use crate::board_rows::BoardRows;
use crate::clock::Clock;
use crate::device::Device;
use crate::domain::Domain;
use crate::raw_plan::{RawClock, RawDomain, RawPlan};
use scmi_codec::Name;
use std::alloc::{AllocError, Global};

/// The rows of a board that was written down.
pub(crate) fn build_rows(alloc: Global, raw: &RawPlan) -> Result<BoardRows, AllocError>
    requires { IsValid (asked_board raw.now) }
    ensures { IfOk result (λ rows. rows ≡ asked_board raw.now) }
{
    Ok(BoardRows {
        vendor: build_name(&raw.vendor),
        sub_vendor: build_name(&raw.sub_vendor),
        version: raw.version,
        trusted: raw.trusted,
        agents: build_agents(alloc, &raw.agents)?,
        domains: build_domains(alloc, &raw.domains)?,
        devices: build_devices(alloc, &raw.devices)?,
        // Last of those that take memory: no error drops the clocks and their rates.
        clocks: build_clocks(alloc, &raw.clocks)?,
        loose: false,
    })
}

#[inline(never)]
fn build_name(text: &str) -> Name
    requires { IsName text.now }
    ensures { result ≡ text.now }
{
    Name::new(text).unwrap()
}

#[inline(never)]
fn build_agents(alloc: Global, raw: &[String]) -> Result<Vec<Name>, AllocError>
    requires { All (λ agent. IsName (string_bytes agent)) raw.now }
    ensures { IfOk result (λ agents. agents.items ≡ map string_bytes raw.now) }
{
    let mut agents = Vec::with_capacity(alloc, raw.len())?;
    for agent in raw {
        agents.push(build_name(agent))?;
    }
    Ok(agents)
}

#[inline(never)]
fn build_domains(alloc: Global, raw: &[RawDomain]) -> Result<Vec<Domain>, AllocError>
    requires { All (λ domain. IsName (string_bytes domain.name)) raw.now }
    ensures { IfOk result (λ domains. domains.items ≡ map asked_domain raw.now) }
{
    let mut domains = Vec::with_capacity(alloc, raw.len())?;
    for domain in raw {
        domains.push(build_domain(domain))?;
    }
    Ok(domains)
}

fn build_domain(raw: &RawDomain) -> Domain
    requires { IsName (string_bytes raw.now.name) }
    ensures { result ≡ asked_domain raw.now }
{
    Domain {
        name: build_name(&raw.name),
        on: raw.on,
        synchronous: raw.synchronous,
        asynchronous: raw.asynchronous,
        notify: raw.notify,
    }
}

#[inline(never)]
fn build_clocks(alloc: Global, raw: &[RawClock]) -> Result<Vec<Clock>, AllocError>
    requires { All (λ clock. IsName (string_bytes clock.name)) raw.now }
    ensures { IfOk result (λ clocks. clocks.items ≡ map asked_clock raw.now) }
{
    let mut clocks = Vec::with_capacity(alloc, raw.len())?;
    for clock in raw {
        push_clock(&mut clocks, clock)?;
    }
    Ok(clocks)
}

// The clocks are dropped at one place: here they are only lent.
#[inline(never)]
fn push_clock(clocks: &mut Vec<Clock>, raw: &RawClock) -> Result<(), AllocError>
    requires { IsName (string_bytes raw.now.name) }
    ensures { OnOk result (clocks.new.items ≡ clocks.old.items ++ asked_clock raw.now ∷ []) }
{
    clocks.push(build_clock(raw)?)?;
    Ok(())
}

fn build_clock(raw: &RawClock) -> Result<Clock, AllocError>
    requires { IsName (string_bytes raw.now.name) }
    ensures { IfOk result (λ clock. clock ≡ asked_clock raw.now) }
{
    Ok(Clock {
        name: build_name(&raw.name),
        enabled: raw.enabled,
        rate: raw.rate,
        rates: raw.rates.clone()?,
    })
}

#[inline(never)]
fn build_devices(alloc: Global, raw: &[Device]) -> Result<Vec<Device>, AllocError>
    ensures { IfOk result (λ devices. devices.items ≡ raw.now) }
{
    Vec::from_slice(alloc, raw)
}
