//! The callee's endpoint of a word channel.
ghost use Rattle.std.specs.Prelude.{◌≡◌, []};
ghost use Rattle.scmi_words.specs.View.{HasCallee, callee_of};
ghost use Rattle.scmi_words.specs.Remembers.{CalleeRemembers};

use crate::shared_table::TableSeat;

/// The endpoint of a `WordChannel` that takes frames and answers them.
#[derive(Drop)]
pub struct WordCallee {
    pub(crate) seat: TableSeat,
    pub(crate) owes: bool,
    pub(crate) closed: bool,
    pub(crate) told: bool,
    pub(crate) takes: u64,
    ghost seated: { HasCallee seat },
    ghost bare: { seat.me.1 ≡ [] },
    ghost remembers: { CalleeRemembers (callee_of seat) owes closed told },
}
