//! Platforms are made of tables.
ghost use Rattle.std.specs.Prelude.{◌≡◌, ◌≢◌, ◌↔◌, ◌⊎◌, [], None, Ok, Err, IsSomeAnd, false};
ghost use Rattle.scmi_plan.specs.Plan.{IsValid};
ghost use Rattle.scmi_c.specs.Driven.{IsDriven};
ghost use Rattle.scmi_c.specs.Kept.{IsFree};
ghost use Rattle.scmi_c.specs.Standing.{IsCounted, StandsAt, board_of};
ghost use Rattle.scmi_c.specs.Tables.{board_of_tables, is_well_formed, tables_given, IsTableFault};
ghost use Rattle.scmi_c.specs.declared.code.TheConstants.{DONE, IN_USE, MEMORY, TABLE};

use crate::board_of_tables::plan_of_tables;
use crate::code::IN_USE;
use crate::handle::Handle;
use crate::open::hold;
use crate::rows::{AgentRow, ClockRow, DeviceRow, DomainRow, HeadingRow};
use crate::tables::Tables;
use std::alloc::Global;

/// Makes a platform of a board's tables, which takes no memory from then on.
/// `DONE`; `IN_USE` if the handle holds a platform; `TABLE` if the tables are not well formed; else
/// the number of the first rule that the board breaks, or `MEMORY` (`plan_of_tables`). After
/// another number than `DONE` the handle is as it was.
#[unsafe(no_mangle)]
pub extern "C" fn scmi_platform_new_of_tables(
    alloc: Global,
    platform: &mut Handle,
    heading: &HeadingRow,
    agents: &[AgentRow],
    domains: &[DomainRow],
    clocks: &[ClockRow],
    rates: &[u64],
    devices: &[DeviceRow],
) -> u32
    ensures done { result ≡ DONE →
        IsSomeAnd platform.new.value (λ p. IsFree p
        × (board_of_tables
        (tables_given heading.now agents.now domains.now clocks.now rates.now devices.now)
        ≡ Ok (board_of p.held)) × StandsAt p.held []
        × IsValid (board_of p.held) × (¬ (IsCounted p.held))) }
    ensures driven { result ≡ DONE → IsSomeAnd platform.new.value (λ p. IsDriven p.held []) }
    ensures fault { (result ≡ DONE) ⊎ (result ≡ IN_USE) ⊎ (result ≡ MEMORY)
        ⊎ (board_of_tables
        (tables_given heading.now agents.now domains.now clocks.now rates.now devices.now)
        ≡ Err result) }
    ensures table { (result ≡ TABLE) ↔ ((platform.old.value ≡ None) × (is_well_formed
        (tables_given heading.now agents.now domains.now clocks.now rates.now devices.now)
        ≡ false)) }
    ensures in_use { (result ≡ IN_USE) ↔ (platform.old.value ≢ None) }
    ensures faults { (result ≡ DONE) ⊎ (result ≡ IN_USE) ⊎ IsTableFault result }
    ensures kept { result ≢ DONE → platform.new.value ≡ platform.old.value }
{
    if let Some(desk) = platform.take(alloc) {
        platform.put(desk);
        return IN_USE;
    }
    let tables = Tables {
        heading,
        agents,
        domains,
        clocks,
        rates,
        devices,
    };
    match plan_of_tables(alloc, &tables) {
        Ok(plan) => hold(alloc, platform, plan, false),
        Err(fault) => fault,
    }
}
