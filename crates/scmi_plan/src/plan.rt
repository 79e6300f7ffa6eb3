//! A valid board.
ghost use Rattle.std.specs.Prelude.{◌≡◌, ◌≢◌, ◌↔◌, ◌<◌, ◌-◌, length, get_or, [], None, Some, Ok, Err, IfOk, IfErr, OnOk, IsOkUnless, IsErrOf};
ghost use Rattle.scmi_plan.specs.Agent.{IsAgent};
ghost use Rattle.scmi_plan.specs.declared.limits.TheConstants.{PROTOCOLS};
ghost use Rattle.scmi_plan.specs.Board.{AreHolders, holds, IsOnBoard, domain_at, clock_at, device_at};
ghost use Rattle.scmi_plan.specs.Plan.{IsValid};
ghost use Rattle.scmi_plan.specs.PlanError.{first_fault};
ghost use Rattle.scmi_plan.specs.RawPlan.{asked_board};
ghost use Rattle.scmi_plan.specs.Rates.{HasValidRates};
ghost use Rattle.scmi_plan.specs.declared.plan_error.PlanError.TheVariants.{Memory};

use crate::agent_channel::{AgentChannel, WHOLE_CHANNEL};
use crate::board_rows::BoardRows;
use crate::build::build_rows;
use crate::clock::Clock;
use crate::denied::Denied;
use crate::device::Device;
use crate::domain::Domain;
use crate::fault::first_fault;
use crate::holders::{fill_clock_holders, fill_domain_holders};
use crate::limits::{AGENTS, CLOCKS, DOMAINS, PROTOCOLS};
use crate::own_protocols::OwnProtocols;
use crate::plan_error::PlanError;
use crate::raw_plan::RawPlan;
use crate::resource::Resource;
use arrayvec::ArrayVec;
use scmi_codec::{CLOCK_PROTOCOL, Name, POWER_PROTOCOL};
use std::alloc::Global;
use std::marker::Model;

/// The protocols of a board of which nothing else is said: power domains and clocks.
const OWN_PROTOCOLS: [u8; 2] = [POWER_PROTOCOL, CLOCK_PROTOCOL];

/// A board that keeps the limits and rules of the profile. Bit d of a mask of holders is for device d.
#[derive(Debug, Drop)]
pub struct Plan {
    pub(crate) vendor: Name,
    pub(crate) sub_vendor: Name,
    pub(crate) version: u32,
    pub(crate) trusted: u32,
    pub(crate) agents: Vec<Name>,
    pub(crate) domains: Vec<Domain>,
    pub(crate) clocks: Vec<Clock>,
    pub(crate) devices: Vec<Device>,
    pub(crate) channels: [AgentChannel; AGENTS],
    pub(crate) kept: Device,
    pub(crate) denied: Denied,
    pub(crate) absent: Device,
    pub(crate) free: u32,
    pub(crate) protocols: ArrayVec<u8, PROTOCOLS>,
    pub(crate) loose: bool,
    pub(crate) own: OwnProtocols,
    pub(crate) domain_holders: [u32; DOMAINS],
    pub(crate) clock_holders: [u32; CLOCKS],
}

impl Model for Plan {
    ghost use Rattle.scmi_plan.specs.Board.{Board};

    ghost Value = { Board };

    ghost use Rattle.scmi_plan.specs.Plan.{board_of, IsPlan};

    ghost view = { board_of };

    ghost invariant = { IsPlan };
}

impl Plan {
    /// The plan of a board that was written down. If the board breaks rules of the profile, the
    /// error is the first of them in the order of the numbers of `PlanError` (own). `Memory` comes
    /// only if the board keeps every rule and memory ran out. The board stays with the caller.
    pub fn check(alloc: Global, raw: &RawPlan) -> Result<Plan, PlanError>
        ensures ok { IfOk result (λ plan. plan ≡ asked_board raw.now) }
        ensures no_fault { OnOk result (first_fault (asked_board raw.now) ≡ None) }
        ensures fault { IfErr result (λ e. e ≢ Memory
            → first_fault (asked_board raw.now) ≡ Some e) }
        ensures memory { IsErrOf result Memory → first_fault (asked_board raw.now) ≡ None }
        ensures accepted { IsValid (asked_board raw.now) → IsOkUnless result Memory }
        // The rules and a valid board are one thing.
        ensures rules { (first_fault (asked_board raw.now) ≡ None)
            ↔ IsValid (asked_board raw.now) }
    {
        match first_fault(raw) {
            Some(fault) => Err(fault),
            None => Plan::build(alloc, raw),
        }
    }

    // The error is that of `check`, so that no plan is copied from one result into another.
    fn build(alloc: Global, raw: &RawPlan) -> Result<Plan, PlanError>
        requires { IsValid (asked_board raw.now) }
        ensures ok { IfOk result (λ plan. plan ≡ asked_board raw.now) }
        ensures memory { IfErr result (λ e. e ≡ Memory) }
    {
        Ok(Plan::filled(build_rows(alloc, raw)?))
    }

    /// The plan of a board's rows. If the board breaks rules of the profile, the error is the first
    /// of them in the order of the numbers of `PlanError` (own). It takes no memory.
    pub fn of_rows(rows: BoardRows) -> Result<Plan, PlanError>
        ensures ok { IfOk result (λ plan. plan ≡ rows) }
        ensures no_fault { OnOk result (first_fault rows ≡ None) }
        ensures fault { IfErr result (λ e. first_fault rows ≡ Some e) }
    {
        if let Some(fault) = rows.fault() {
            return Err(fault);
        }
        Ok(Plan::filled(rows))
    }

    fn filled(rows: BoardRows) -> Plan
        requires { IsValid rows }
        ensures { result ≡ rows }
    {
        let mut domain_holders = [0; DOMAINS];
        fill_domain_holders(&mut domain_holders, &rows.devices);
        let mut clock_holders = [0; CLOCKS];
        fill_clock_holders(&mut clock_holders, &rows.devices);
        let mut protocols = ArrayVec::new();
        let _ = protocols.try_extend_from_slice(&OWN_PROTOCOLS);
        Plan {
            vendor: rows.vendor,
            sub_vendor: rows.sub_vendor,
            version: rows.version,
            trusted: rows.trusted,
            agents: rows.agents,
            domains: rows.domains,
            clocks: rows.clocks,
            devices: rows.devices,
            channels: [WHOLE_CHANNEL; AGENTS],
            kept: Device::nothing(),
            denied: Denied::nothing(),
            absent: Device::nothing(),
            free: 0,
            protocols,
            loose: rows.loose,
            own: OwnProtocols::of(&OWN_PROTOCOLS),
            domain_holders,
            clock_holders,
        }
    }

    /// The vendor's name.
    pub fn vendor(&self) -> &Name
        ensures { result.now ≡ self.now.vendor }
    {
        &self.vendor
    }

    /// The sub-vendor's name.
    pub fn sub_vendor(&self) -> &Name
        ensures { result.now ≡ self.now.sub_vendor }
    {
        &self.sub_vendor
    }

    /// The version of the board's firmware.
    pub fn version(&self) -> u32
        ensures { result ≡ self.now.version }
    {
        self.version
    }

    /// The number of the trusted agent.
    pub fn trusted(&self) -> u32
        ensures { result ≡ self.now.trusted }
    {
        self.trusted
    }

    /// The number of agents, 1 to 8. They are numbered from 1.
    pub fn agents(&self) -> u32
        ensures count { result ≡ length self.now.agents }
        ensures valid { IsValid self.now }
    {
        self.agents.len() as u32
    }

    /// The name of an agent.
    pub fn agent(&self, agent: u32) -> &Name
        requires agent { IsAgent (length self.now.agents) agent }
        ensures { result.now ≡ get_or self.now.agents (agent - 1) [] }
    {
        &self.agents[agent as usize - 1]
    }

    /// The number of power domains, at most 32. They are numbered from 0.
    pub fn domains(&self) -> u32
        ensures count { result ≡ length self.now.domains }
        ensures valid { IsValid self.now }
    {
        self.domains.len() as u32
    }

    /// A power domain.
    pub fn domain(&self, domain: u32) -> &Domain
        requires { domain < length self.now.domains }
        ensures { result.now ≡ domain_at self.now domain }
    {
        &self.domains[domain as usize]
    }

    /// The number of clocks, at most 32. They are numbered from 0.
    pub fn clocks(&self) -> u32
        ensures count { result ≡ length self.now.clocks }
        ensures valid { IsValid self.now }
    {
        self.clocks.len() as u32
    }

    /// A clock.
    pub fn clock(&self, clock: u32) -> &Clock
        requires { clock < length self.now.clocks }
        ensures row { result.now ≡ clock_at self.now clock }
        ensures valid { HasValidRates (clock_at self.now clock).rates }
    {
        &self.clocks[clock as usize]
    }

    /// The number of devices, at most 32. They are numbered from 0.
    pub fn devices(&self) -> u32
        ensures count { result ≡ length self.now.devices }
        ensures valid { IsValid self.now }
    {
        self.devices.len() as u32
    }

    /// A device.
    pub fn device(&self, device: u32) -> Device
        requires { device < length self.now.devices }
        ensures { result ≡ device_at self.now device }
    {
        self.devices[device as usize]
    }

    /// Whether a device holds a domain or clock of the board.
    pub fn holds(&self, device: u32, resource: Resource) -> bool
        requires device { device < length self.now.devices }
        requires resource { IsOnBoard self.now resource }
        ensures { result ≡ holds (device_at self.now device) resource }
    {
        let device = self.devices[device as usize];
        device.holds(resource)
    }

    /// The devices that hold a domain or clock of the board: bit d of the mask is for device d.
    pub fn holders(&self, resource: Resource) -> u32
        requires { IsOnBoard self.now resource }
        ensures { AreHolders self.now.devices resource result }
    {
        match resource {
            Resource::Domain(domain) => self.domain_holders[domain as usize],
            Resource::Clock(clock) => self.clock_holders[clock as usize],
        }
    }
}
