//! The table that the two endpoints share.
//!
//! Its field is private to this module, so its methods are the only way to the words. Each of the
//! four below is one access, and asks of each kind of step that it counts itself: what a call of an
//! endpoint makes are these, each in its endpoint's count. A load that nothing counts is not among
//! them.
ghost use Rattle.std.specs.Prelude.{◌≡◌};
ghost use Rattle.scmi_words.specs.declared.layout.TheConstants.{TABLE_WORDS};

pub mod channel_steps;

use crate::mailbox::Mailbox;
use crate::view::View;
use atomic_table::{Play, Seat, Table};
use std::alloc::Global;

/// The table of a channel, under the rule of the mailbox.
#[derive(Drop)]
pub struct SharedTable {
    words: Table<(), View, (), Mailbox, Global>,
    ghost shape: { (words.shared.table_id.words ≡ TABLE_WORDS) ×
        (words.shared.table_id.slots ≡ 0) },
}

/// A seat at the table: the right to make steps, and what it knows.
pub type TableSeat = Seat<(), View>;

impl SharedTable {
    ghost use Rattle.std.specs.Prelude.{◌≡◌, ◌==◌, ◌+◌, ◌<◌, bit_or};
    ghost use mathlib.Core.Option.{none};
    ghost use prog.Atomic.{either};
    ghost use Rattle.atomic_table.specs.Table.{step, Allows};
    ghost use Rattle.scmi_words.specs.declared.layout.TheConstants.{TABLE_WORDS};
    ghost use Rattle.scmi_words.specs.Mailbox.{HalvesAgree};
    ghost use Rattle.scmi_words.specs.SharedTable.{IsSeatAt, Counts, accesses, id_of};

    /// One load.
    pub fn load<M: Play<(), View>>(&self, seat: &mut TableSeat, word: usize) -> u64
        requires table { IsSeatAt self.now seat.old × (word < TABLE_WORDS) }
        requires rule { Allows HalvesAgree (id_of self.now).slots seat.old.id seat.old.me word
            (λ n. n) (M.then (step (id_of self.now).slots word 0 0 none) seat.old.me) }
        requires counts { Counts (M.then (step (id_of self.now).slots word 0 0 none) seat.old.me)
            seat.old.me }
        ensures seat { (seat.new.table_id ≡ seat.old.table_id) × (seat.new.id ≡ seat.old.id) }
        ensures tells { M.then (step (id_of self.now).slots word 0 0 none) seat.old.me result
            seat.new.me }
        ensures steps { accesses seat.new.me ≡ accesses seat.old.me + 1 }
    {
        self.words.shared.load::<M>(seat, word)
    }

    /// One store.
    pub fn store<M: Play<(), View>>(&self, seat: &mut TableSeat, word: usize, value: u64)
        requires table { IsSeatAt self.now seat.old × (word < TABLE_WORDS) }
        requires rule { Allows HalvesAgree (id_of self.now).slots seat.old.id seat.old.me word
            (λ _. value) (λ _. M.then (step (id_of self.now).slots word value 0 none) seat.old.me
            value) }
        requires counts { Counts (λ _. M.then (step (id_of self.now).slots word value 0 none)
            seat.old.me value) seat.old.me }
        ensures seat { (seat.new.table_id ≡ seat.old.table_id) × (seat.new.id ≡ seat.old.id) }
        ensures tells { M.then (step (id_of self.now).slots word value 0 none) seat.old.me value
            seat.new.me }
        ensures steps { accesses seat.new.me ≡ accesses seat.old.me + 1 }
    {
        self.words.shared.store::<M>(seat, word, value);
    }

    /// One exchange, made if the word is `old`. It gives the word as it was.
    pub fn compare_exchange<M: Play<(), View>>(
        &self,
        seat: &mut TableSeat,
        word: usize,
        old: u64,
        new: u64,
    ) -> u64
        requires table { IsSeatAt self.now seat.old × (word < TABLE_WORDS) }
        requires rule { Allows HalvesAgree (id_of self.now).slots seat.old.id seat.old.me word
            (λ n. either (n == old) new n)
            (M.then (step (id_of self.now).slots word old new none) seat.old.me) }
        requires counts { Counts (M.then (step (id_of self.now).slots word old new none)
            seat.old.me) seat.old.me }
        ensures seat { (seat.new.table_id ≡ seat.old.table_id) × (seat.new.id ≡ seat.old.id) }
        ensures tells { M.then (step (id_of self.now).slots word old new none) seat.old.me result
            seat.new.me }
        ensures steps { accesses seat.new.me ≡ accesses seat.old.me + 1 }
    {
        self.words
            .shared
            .compare_exchange::<M>(seat, word, old, new)
    }

    /// One or of bits, which is a store. It gives the word as it was.
    pub fn fetch_or<M: Play<(), View>>(&self, seat: &mut TableSeat, word: usize, bits: u64) -> u64
        requires table { IsSeatAt self.now seat.old × (word < TABLE_WORDS) }
        requires rule { Allows HalvesAgree (id_of self.now).slots seat.old.id seat.old.me word
            (λ n. bit_or n bits)
            (M.then (step (id_of self.now).slots word bits 0 none) seat.old.me) }
        requires counts { Counts (M.then (step (id_of self.now).slots word bits 0 none)
            seat.old.me) seat.old.me }
        ensures seat { (seat.new.table_id ≡ seat.old.table_id) × (seat.new.id ≡ seat.old.id) }
        ensures tells { M.then (step (id_of self.now).slots word bits 0 none) seat.old.me result
            seat.new.me }
        ensures steps { accesses seat.new.me ≡ accesses seat.old.me + 1 }
    {
        self.words.shared.fetch_or::<M>(seat, word, bits)
    }
}
