//! The plan of tables that are well formed.
ghost use Rattle.std.specs.Prelude.{◌≡◌, ◌≢◌, ◌≤◌, ◌↔◌, [], IfOk, IfErr, IfSome, IsSome, OnOk, None, Some, length, map, true, vec_capacity, vec_len};
ghost use Rattle.std.specs.List.{All, position, position_or_len};
ghost use Rattle.scmi_plan.specs.Board.{IsNameIf};
ghost use Rattle.scmi_plan.specs.PlanError.{first_fault, has_valid_counts};
ghost use Rattle.scmi_plan.specs.Rates.{rates_of};
ghost use Rattle.scmi_plan.specs.declared.plan_error.PlanError.TheVariants as error;
ghost use Rattle.scmi_c.specs.Tables.{board_in, clock_in, device_in, domain_in, is_clock_row, is_domain_row, is_named, is_well_formed, is_zero, name_in, rates_in, tables_of};

use crate::rows::{AgentRow, ClockRow, DeviceRow, DomainRow};
use crate::tables::Tables;
use scmi_codec::Name;
use scmi_plan::{BoardRows, Clock, Device, Domain, Plan, PlanError, Rates, are_valid_counts};
use std::alloc::{AllocError, Global};
use std::str::from_utf8_unchecked;

/// The plan of the board that the tables encode, or the first rule that the board breaks; `Memory`
/// if memory ran out.
pub fn checked_plan(alloc: Global, tables: &Tables<'_>) -> Result<Plan, PlanError>
    requires formed { is_well_formed (tables_of tables.now) ≡ true }
    ensures board { IfOk result (λ plan. plan ≡ board_in (tables_of tables.now)) }
    ensures no_fault { OnOk result (first_fault (board_in (tables_of tables.now)) ≡ None) }
    ensures fault { IfErr result (λ e. e ≢ error.Memory
        → first_fault (board_in (tables_of tables.now)) ≡ Some e) }
{
    Plan::of_rows(board_rows(alloc, tables)?)
}

/// The rows of the board that the tables encode. The rules of numbers and of names come first, so
/// that a board that breaks one has no rows; `Memory` if memory ran out.
#[inline(never)]
fn board_rows(alloc: Global, tables: &Tables<'_>) -> Result<BoardRows, PlanError>
    requires formed { is_well_formed (tables_of tables.now) ≡ true }
    ensures board { IfOk result (λ rows. rows ≡ board_in (tables_of tables.now)) }
    ensures fault { IfErr result (λ e. e ≢ error.Memory
        → first_fault (board_in (tables_of tables.now)) ≡ Some e) }
{
    if !has_valid_counts(tables) {
        return Err(PlanError::Count);
    }
    let heading = tables.heading;
    let loose = heading.loose != 0;
    let vendor = name_of(&heading.vendor, loose)?;
    let sub_vendor = name_of(&heading.sub_vendor, loose)?;
    // All are there before a row is added, so that each error drops them at one place.
    let mut agents = Vec::with_capacity(alloc, tables.agents.len())?;
    let mut domains = Vec::with_capacity(alloc, tables.domains.len())?;
    let mut clocks = Vec::with_capacity(alloc, tables.clocks.len())?;
    let mut devices = Vec::with_capacity(alloc, tables.devices.len())?;
    add_agents(&mut agents, tables.agents, loose)?;
    add_domains(&mut domains, tables.domains, loose)?;
    add_clocks(alloc, &mut clocks, tables.clocks, tables.rates, loose)?;
    add_devices(&mut devices, tables.devices);
    Ok(BoardRows {
        vendor,
        sub_vendor,
        version: heading.version,
        trusted: heading.trusted,
        agents,
        domains,
        clocks,
        devices,
        loose,
    })
}

fn has_valid_counts(tables: &Tables<'_>) -> bool
    ensures { result ≡ has_valid_counts (board_in (tables_of tables.now)) }
{
    are_valid_counts(
        tables.agents.len(),
        tables.domains.len(),
        tables.clocks.len(),
        tables.devices.len(),
    )
}

/// A name, up to its zero; `Name` if a board that is loose or not may not have it.
fn name_of(name: &[u8], loose: bool) -> Result<Name, PlanError>
    requires named { is_named name.now ≡ true }
    ensures name { IfOk result (λ n. n ≡ name_in name.now) }
    ensures valid { OnOk result (IsNameIf loose (name_in name.now)) }
    ensures fault { IfErr result (λ e. (e ≡ error.Name)
        × (¬ (IsNameIf loose (name_in name.now)))) }
{
    let text = unsafe { from_utf8_unchecked(&name[..name_length(name)]) };
    match named(text, loose) {
        Some(name) => Ok(name),
        None => Err(PlanError::Name),
    }
}

/// The name of a text; `None` if a board that is loose or not may not have it.
fn named(text: &str, loose: bool) -> Option<Name>
    ensures name { IfSome result (λ name. name ≡ text.now) }
    ensures variant { IsSome result ↔ IsNameIf loose text.now }
{
    if loose {
        Name::loose(text)
    } else {
        Name::new(text)
    }
}

/// How many bytes a name has before its zero.
pub(crate) fn name_length(name: &[u8]) -> usize
    ensures length { result ≡ position_or_len is_zero name.now }
    ensures within { result ≤ length name.now }
{
    zero_place(name).unwrap_or(name.len())
}

fn zero_place(name: &[u8]) -> Option<usize>
    ensures { result ≡ position is_zero name.now }
{
    name.iter().position(|byte| *byte == 0)
}

/// Adds agents to none, for all of which there is room.
fn add_agents(agents: &mut Vec<Name>, rows: &[AgentRow], loose: bool) -> Result<(), PlanError>
    requires rows { All (λ row. is_named row.name ≡ true) rows.now }
    requires none { (agents.old.items ≡ []) × (vec_len agents.old ≡ 0) }
    requires room { length rows.now ≤ vec_capacity agents.old }
    ensures agents { OnOk result (agents.new.items ≡ map (λ row. name_in row.name) rows.now) }
    ensures valid { OnOk result (All (λ row. IsNameIf loose (name_in row.name)) rows.now) }
    ensures fault { IfErr result (λ e. (e ≡ error.Name)
        × (¬ (All (λ row. IsNameIf loose (name_in row.name)) rows.now))) }
{
    for row in rows {
        agents.push_reserved(name_of(&row.name, loose)?);
    }
    Ok(())
}

/// Adds domains to none, for all of which there is room.
fn add_domains(domains: &mut Vec<Domain>, rows: &[DomainRow], loose: bool) -> Result<(), PlanError>
    requires rows { All (λ row. is_domain_row row ≡ true) rows.now }
    requires none { (domains.old.items ≡ []) × (vec_len domains.old ≡ 0) }
    requires room { length rows.now ≤ vec_capacity domains.old }
    ensures domains { OnOk result (domains.new.items ≡ map domain_in rows.now) }
    ensures valid { OnOk result (All (λ row. IsNameIf loose (name_in row.name)) rows.now) }
    ensures fault { IfErr result (λ e. (e ≡ error.Name)
        × (¬ (All (λ row. IsNameIf loose (name_in row.name)) rows.now))) }
{
    for row in rows {
        domains.push_reserved(Domain {
            name: name_of(&row.name, loose)?,
            on: row.on != 0,
            synchronous: row.synchronous != 0,
            asynchronous: row.asynchronous != 0,
            notify: row.notify != 0,
        });
    }
    Ok(())
}

/// Adds clocks to none, for all of which there is room; `Memory` if there is none for their rates.
fn add_clocks(
    alloc: Global,
    clocks: &mut Vec<Clock>,
    rows: &[ClockRow],
    rates: &[u64],
    loose: bool,
) -> Result<(), PlanError>
    requires rows { All (λ row. is_clock_row (length rates.now) row ≡ true) rows.now }
    requires none { (clocks.old.items ≡ []) × (vec_len clocks.old ≡ 0) }
    requires room { length rows.now ≤ vec_capacity clocks.old }
    ensures clocks { OnOk result (clocks.new.items ≡ map (clock_in rates.now) rows.now) }
    ensures valid { OnOk result (All (λ row. IsNameIf loose (name_in row.name)) rows.now) }
    ensures fault { IfErr result (λ e. e ≢ error.Memory → (e ≡ error.Name)
        × (¬ (All (λ row. IsNameIf loose (name_in row.name)) rows.now))) }
{
    for row in rows {
        clocks.push_reserved(Clock {
            name: name_of(&row.name, loose)?,
            enabled: row.enabled != 0,
            rate: row.rate,
            rates: clock_rates(alloc, row, rates)?,
        });
    }
    Ok(())
}

fn clock_rates(alloc: Global, row: &ClockRow, rates: &[u64]) -> Result<Rates, AllocError>
    requires row { is_clock_row (length rates.now) row.now ≡ true }
    ensures { IfOk result (λ these. rates_of these ≡ rates_in rates.now row.now) }
{
    if row.count == 0 {
        return Ok(Rates::Steps {
            low: row.low,
            high: row.high,
            step: row.step,
        });
    }
    let first = row.first as usize;
    let list = Vec::from_slice(alloc, &rates[first..first + row.count as usize])?;
    Ok(Rates::List(list))
}

/// Adds devices to none, for all of which there is room.
fn add_devices(devices: &mut Vec<Device>, rows: &[DeviceRow])
    requires none { (devices.old.items ≡ []) × (vec_len devices.old ≡ 0) }
    requires room { length rows.now ≤ vec_capacity devices.old }
    ensures devices { devices.new.items ≡ map device_in rows.now }
{
    for row in rows {
        devices.push_reserved(Device {
            domains: row.domains,
            clocks: row.clocks,
        });
    }
}
