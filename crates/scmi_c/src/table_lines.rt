//! What the rows of a board's tables say beside the board: protocols, channels, what is denied, what
//! is kept, what is not there, and which clocks are free.
ghost use Rattle.std.specs.Prelude.{◌≡◌, ◌<◌, ◌^◌, length, true};
ghost use Rattle.std.specs.List.{All};
ghost use Rattle.scmi_plan.specs.Agent.{IsAgent};
ghost use Rattle.scmi_plan.specs.Board.{IsChannel, with_denied};
ghost use Rattle.scmi_board.specs.BoardLines.{IsLineOf, with_lines};
ghost use Rattle.scmi_c.specs.Tables.{agent_lines, board_in, channel_in, clock_lines, domain_lines, heading_lines, is_channel_row, is_heading, is_said_row, is_share_row, is_well_formed, lines_from, lines_in, said_if, share_in, tables_of, HasRowsOf};

use crate::rows::{AgentRow, ClockRow, DomainRow, HeadingRow};
use crate::tables::Tables;
use scmi_board::{BoardLine, ChannelLine, DenyLine, apply_line, ids_of};
use scmi_codec::{PAYLOAD_WORDS, channel_words};
use scmi_plan::{AgentChannel, PENDING_SETS, Plan, Resource, Scope};

/// Gives a plan what the rows of its tables say beside the board.
pub fn set_lines(plan: &mut Plan, tables: &Tables<'_>)
    requires formed { is_well_formed (tables_of tables.now) ≡ true }
    requires board { plan.old ≡ board_in (tables_of tables.now) }
    ensures lines { plan.new ≡ with_lines plan.old (lines_in (tables_of tables.now)) }
{
    set_agents(plan, tables.agents);
    set_domains(plan, tables.domains);
    set_clocks(plan, tables.clocks);
    set_heading(plan, tables.heading);
}

/// Gives a board its protocols, if there are any.
fn set_heading(plan: &mut Plan, row: &HeadingRow)
    requires { is_heading row.now ≡ true }
    ensures lines { plan.new ≡ with_lines plan.old (heading_lines row.now) }
{
    if !ids_of(&row.protocols).is_empty() {
        apply_line(plan, &BoardLine::Protocols(row.protocols));
    }
}

fn set_agents(plan: &mut Plan, rows: &[AgentRow])
    requires agents { length rows.now ≡ length plan.old.agents }
    requires rows { All (λ row. is_said_row (length plan.old.devices) row ≡ true) rows.now }
    ensures lines { plan.new ≡ with_lines plan.old (lines_from agent_lines 1 rows.now) }
{
    let mut agent = 0u32;
    let _agents = plan.agents();
    'rows: for row in rows {
        agent += 1;
        set_agent(plan, agent, row);
    }
}

/// Gives an agent its channels, and denies it what its row says.
fn set_agent(plan: &mut Plan, agent: u32, row: &AgentRow)
    requires agent { IsAgent (length plan.old.agents) agent }
    requires row { is_said_row (length plan.old.devices) row.now ≡ true }
    ensures lines { plan.new ≡ with_lines plan.old (agent_lines agent row.now) }
{
    let channel = channel_of(row);
    apply_line(plan, &BoardLine::Channel(ChannelLine { agent, channel }));
    deny(plan, agent, row.denied, Scope::Device);
    deny(plan, agent, row.denied_power, Scope::Power);
    deny(plan, agent, row.denied_clocks, Scope::Clock);
}

fn deny(plan: &mut Plan, agent: u32, devices: u32, scope: Scope)
    requires agent { IsAgent (length plan.old.agents) agent }
    requires devices { devices < 2 ^ length plan.old.devices }
    ensures { plan.new ≡ with_denied plan.old agent devices scope }
{
    let line = DenyLine {
        agent,
        devices,
        scope,
    };
    apply_line(plan, &BoardLine::Deny(line));
}

fn set_domains(plan: &mut Plan, rows: &[DomainRow])
    requires domains { length rows.now ≡ length plan.old.domains }
    ensures lines { plan.new ≡ with_lines plan.old (lines_from domain_lines 0 rows.now) }
{
    let _domains = plan.domains();
    let mut domain = 0u32;
    'rows: for row in rows {
        set_domain(plan, domain, row);
        domain += 1;
    }
}

#[tactic(auto, using(crate::proofs::TableLemmas::both_said))]
fn set_domain(plan: &mut Plan, domain: u32, row: &DomainRow)
    requires { domain < length plan.old.domains }
    ensures { plan.new ≡ with_lines plan.old (domain_lines domain row.now) }
{
    let resource = Resource::Domain(domain);
    say_if(plan, row.kept, BoardLine::Keep(resource));
    say_if(plan, row.absent, BoardLine::Absent(resource));
}

fn set_clocks(plan: &mut Plan, rows: &[ClockRow])
    requires clocks { length rows.now ≡ length plan.old.clocks }
    ensures lines { plan.new ≡ with_lines plan.old (lines_from clock_lines 0 rows.now) }
{
    let _clocks = plan.clocks();
    let mut clock = 0u32;
    'rows: for row in rows {
        set_clock(plan, clock, row);
        clock += 1;
    }
}

#[tactic(auto, using(crate::proofs::TableLemmas::both_said))]
fn set_clock(plan: &mut Plan, clock: u32, row: &ClockRow)
    requires { clock < length plan.old.clocks }
    ensures { plan.new ≡ with_lines plan.old (clock_lines clock row.now) }
{
    let resource = Resource::Clock(clock);
    say_if(plan, row.kept, BoardLine::Keep(resource));
    say_if(plan, row.absent, BoardLine::Absent(resource));
    say_if(plan, row.free, BoardLine::Free(clock));
}

/// Says a line of a plan, if its row says so.
#[tactic(auto, using(crate::proofs::TableLemmas::rows_of_lines))]
fn say_if(plan: &mut Plan, flag: u32, line: BoardLine)
    requires line { IsLineOf plan.old line }
    ensures lines { plan.new ≡ with_lines plan.old (said_if flag line) }
    ensures rows { HasRowsOf plan.old plan.new }
{
    if flag != 0 {
        apply_line(plan, &line);
    }
}

/// The channels of a row.
fn channel_of(row: &AgentRow) -> AgentChannel
    requires channel { is_channel_row row.now ≡ true }
    requires share { is_share_row row.now ≡ true }
    ensures channel { result ≡ channel_in row.now }
    ensures valid { IsChannel result }
{
    let words = if row.bytes == 0 {
        PAYLOAD_WORDS
    } else {
        channel_words(row.bytes as usize)
    };
    AgentChannel {
        words: words as u32,
        one_way: row.one_way != 0,
        share: share_of(row.pending),
    }
}

/// How many of the pending sets may be an agent's, all of them if its row says none.
fn share_of(pending: u32) -> u32
    ensures { result ≡ share_in pending }
{
    if pending == 0 {
        PENDING_SETS as u32
    } else {
        pending
    }
}
