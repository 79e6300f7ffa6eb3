//! The kinds of step that make a channel and end it: one function each, with one step.
ghost use Rattle.std.specs.Prelude.{◌≡◌, IfOk, None, []};
ghost use Rattle.std.specs.Mem.Slots.{IsFull, slots_items, slots_len};
ghost use Rattle.scmi_words.specs.declared.layout.TheConstants.{TABLE_WORDS};
ghost use Rattle.scmi_words.specs.Area.{fresh_table};
ghost use Rattle.scmi_words.specs.Mailbox.{Rule};
ghost use Rattle.scmi_words.specs.View.{HasCaller, HasCallee, caller_of, callee_of, first_caller, first_callee};
ghost use Rattle.scmi_words.specs.SharedTable.{IsSeatAt};

use crate::layout::{STATUS, TABLE_WORDS};
use crate::shared_table::{SharedTable, TableSeat};
use crate::status_word::FREE;
use crate::view::View;
use atomic_table::{Closed, Join, Split, Table};
use std::alloc::{AllocError, Global};

/// The words of a fresh area: free, and zero elsewhere.
fn fresh_words() -> [u64; TABLE_WORDS]
    ensures { result ≡ fresh_table }
{
    let mut words = [0u64; TABLE_WORDS];
    words[STATUS] = FREE;
    words
}

/// The table is made: its first seat has both halves, and neither has done anything.
pub fn make_table(alloc: Global) -> Result<(SharedTable, TableSeat), AllocError>
    ensures seat { IfOk result (λ r. IsSeatAt r.0 r.1) }
    ensures caller { IfOk result (λ r. HasCaller r.1 × (caller_of r.1 ≡ first_caller)) }
    ensures callee { IfOk result (λ r. HasCallee r.1 × (callee_of r.1 ≡ first_callee)) }
{
    let (words, seat) = Table::of_words(alloc, &fresh_words(), &())?;
    Ok((SharedTable { words }, seat))
}

/// The halves are parted between two seats, and joined again.
struct Parts;

impl Split<View> for Parts {
    ghost use Rattle.scmi_words.specs.View.{caller_only, callee_only};

    ghost left = { caller_only };

    ghost right = { callee_only };
}

impl Join<View> for Parts {
    ghost use Rattle.scmi_words.specs.View.{both_halves, no_half};

    ghost both = { both_halves };

    ghost spent = { no_half };
}

/// The callee's seat is split off: it knows the callee's half, and the first seat the caller's alone.
pub fn split_callee(table: &SharedTable, seat: &mut TableSeat) -> TableSeat
    requires table { IsSeatAt table.now seat.old }
    requires both { HasCaller seat.old × HasCallee seat.old }
    ensures caller { (seat.new.table_id ≡ seat.old.table_id) × HasCaller seat.new ×
        (caller_of seat.new ≡ caller_of seat.old) × (seat.new.me.0.callee ≡ None) }
    ensures callee { (result.table_id ≡ seat.old.table_id) × (result.me.1 ≡ []) × HasCallee result ×
        (callee_of result ≡ callee_of seat.old) × (result.me.0.caller ≡ None) }
{
    let words = &table.words.shared;
    words.split_seat::<Parts>(seat)
}

/// The callee's seat is joined into the caller's, which then knows both halves.
pub fn join_callee(table: &SharedTable, seat: &mut TableSeat, other: TableSeat)
    requires table { IsSeatAt table.now seat.old × IsSeatAt table.now other }
    requires both { HasCaller seat.old × HasCallee other × (other.me.1 ≡ []) }
    ensures table { (seat.new.table_id ≡ seat.old.table_id) × (seat.new.id ≡ seat.old.id) }
    ensures both { HasCaller seat.new × HasCallee seat.new ×
        (caller_of seat.new ≡ caller_of seat.old) × (callee_of seat.new ≡ callee_of other) }
{
    let words = &table.words.shared;
    words.join_seat::<Parts>(seat, other);
}

/// The table is closed with a seat that knows both halves: the rule holds of them and its last words.
pub fn close_table(table: SharedTable, seat: TableSeat) -> Closed<(), Global>
    requires table { IsSeatAt table seat }
    requires both { HasCaller seat × HasCallee seat }
    ensures { IsFull result.words × (slots_len result.words ≡ TABLE_WORDS) ×
        (slots_len result.slots ≡ 0) ×
        Rule (slots_items result.words) (caller_of seat) (callee_of seat) }
{
    let SharedTable { words } = table;
    words.close_with(seat)
}
