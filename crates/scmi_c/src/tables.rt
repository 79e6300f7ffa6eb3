//! The tables of a board, and whether they are well formed in themselves.
ghost use Rattle.std.specs.Prelude.{◌≡◌, ◌<◌, ◌==◌, ◌&&◌, nat_lt, length};
ghost use Rattle.std.specs.List.{list_all, list_any};
ghost use Rattle.scmi_c.specs.Tables.{ends_within, is_agent_row, is_channel_row, is_clock_row, is_denied_row, is_domain_row, is_heading, is_mask_of, is_named, is_protocols, is_said_row, is_share_row, is_well_formed, is_zero, tables_of};

use crate::rows::{AgentRow, ClockRow, DeviceRow, DomainRow, HeadingRow};
use crate::tabled::name_length;
use scmi_board::ids_of;
use scmi_codec::is_channel_size;
use scmi_plan::{MASK_BITS, PENDING_SETS, check_protocols};

/// The tables of a board, as a program in C gives them.
#[derive(Clone, Copy)]
pub struct Tables<'a> {
    pub heading: &'a HeadingRow,
    pub agents: &'a [AgentRow],
    pub domains: &'a [DomainRow],
    pub clocks: &'a [ClockRow],
    pub rates: &'a [u64],
    pub devices: &'a [DeviceRow],
}

/// Whether each name is ended by a zero, has bytes of ASCII alone and zeros behind it, each list of
/// rates lies in the table of rates, each size is that of a channel, no agent may have more of the
/// pending sets than there are, and only devices of the table are denied.
pub fn is_well_formed(tables: &Tables<'_>) -> bool
    ensures { result ≡ is_well_formed (tables_of tables.now) }
{
    is_heading(tables.heading)
        && are_agents(tables.agents, tables.devices.len())
        && are_domains(tables.domains)
        && are_clocks(tables.clocks, tables.rates.len())
}

fn is_heading(row: &HeadingRow) -> bool
    ensures { result ≡ is_heading row.now }
{
    is_named(&row.vendor) && is_named(&row.sub_vendor) && are_protocols(&row.protocols)
}

/// Whether these are ids that rise above that of the base protocol, and zeros behind them.
fn are_protocols(ids: &[u8; 16]) -> bool
    ensures { result ≡ is_protocols ids.now }
{
    check_protocols(ids_of(ids)).is_ok() && are_zeros(&ids[name_length(ids)..])
}

fn are_agents(agents: &[AgentRow], devices: usize) -> bool
    ensures { result ≡ list_all (is_agent_row devices) agents.now }
{
    agents
        .iter()
        .all(|row| is_named(&row.name) && is_said_row(devices, row))
}

fn are_domains(domains: &[DomainRow]) -> bool
    ensures { result ≡ list_all is_domain_row domains.now }
{
    domains.iter().all(|row| is_named(&row.name))
}

fn are_clocks(clocks: &[ClockRow], rates: usize) -> bool
    ensures { result ≡ list_all (is_clock_row rates) clocks.now }
{
    clocks
        .iter()
        .all(|row| is_named(&row.name) && is_within(row, rates))
}

/// Whether a clock's list of rates is within a table of this length.
fn is_within(row: &ClockRow, rates: usize) -> bool
    ensures { result ≡ ends_within rates row.now }
{
    row.count == 0 || row.first as u64 + row.count as u64 <= rates as u64
}

/// Whether what a row says of an agent is so of an agent beside this many devices.
fn is_said_row(devices: usize, row: &AgentRow) -> bool
    ensures { result ≡ is_said_row devices row.now }
{
    is_channel_row(row) && is_share_row(row) && is_denied_row(devices, row)
}

fn is_channel_row(row: &AgentRow) -> bool
    ensures { result ≡ is_channel_row row.now }
{
    row.bytes == 0 || is_channel_size(row.bytes as usize)
}

fn is_share_row(row: &AgentRow) -> bool
    ensures { result ≡ is_share_row row.now }
{
    row.pending as usize <= PENDING_SETS
}

fn is_denied_row(devices: usize, row: &AgentRow) -> bool
    ensures { result ≡ is_denied_row devices row.now }
{
    is_mask_of(devices, row.denied)
        && is_mask_of(devices, row.denied_power)
        && is_mask_of(devices, row.denied_clocks)
}

/// Whether a mask has devices alone of which there are this many.
fn is_mask_of(devices: usize, mask: u32) -> bool
    ensures { result ≡ is_mask_of devices mask }
{
    devices >= MASK_BITS as usize || mask >> devices == 0
}

/// Whether a name is ended by a zero, has bytes of ASCII alone, and zeros behind the first.
// It is called at five places.
#[inline(never)]
fn is_named(name: &[u8]) -> bool
    ensures { result ≡ is_named name.now }
{
    has_zero(name) && is_ascii(name) && are_zeros(&name[name_length(name)..])
}

fn has_zero(name: &[u8]) -> bool
    ensures { result ≡ list_any is_zero name.now }
{
    name.iter().any(|byte| *byte == 0)
}

fn are_zeros(bytes: &[u8]) -> bool
    ensures { result ≡ list_all is_zero bytes.now }
{
    bytes.iter().all(|byte| *byte == 0)
}

fn is_ascii(name: &[u8]) -> bool
    ensures { result ≡ list_all (λ byte. nat_lt byte 128) name.now }
{
    name.iter().all(|byte| *byte < 128)
}
