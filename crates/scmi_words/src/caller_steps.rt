//! The kinds of step that a caller makes: one function each, with one step.
ghost use Rattle.std.specs.Prelude.{◌≡◌, ◌≢◌, ℕ, ◌+◌, ◌<◌, ◌⊎◌, [], false, length, slice_index, MatchBool, None};
ghost use Rattle.std.specs.List.{last_or};
ghost use Rattle.scmi_codec.specs.declared.frame.Frame.{Frame};
ghost use Rattle.scmi_words.specs.declared.layout.TheConstants.{LENGTH, TABLE_WORDS};
ghost use Rattle.scmi_words.specs.declared.phase.Phase.TheVariants.{Idle, Waiting, Withdrawing};
ghost use Rattle.scmi_words.specs.declared.status_word.TheConstants.{FREE, CLOSED};
ghost use Rattle.scmi_words.specs.declared.view.CallerHalf.{CallerHalf};
ghost use Rattle.scmi_words.specs.Area.{IsValid, frame_words};
ghost use Rattle.scmi_words.specs.StatusWord.{status_word, settled_mark};
ghost use Rattle.scmi_words.specs.View.{HasCaller, CallerBecomes, caller_of};
ghost use Rattle.scmi_words.specs.SharedTable.{IsSeatAt};
ghost use Rattle.scmi_words.specs.CallerSteps.{caller_after, caller_stored, caller_posted, caller_refused, caller_looked, caller_withdrew, closed_by, Refuses, Sees, answer_area};

use crate::layout::STATUS;
use crate::shared_table::{SharedTable, TableSeat};
use crate::status_word::{CLOSED, FREE, POSTED};
use crate::view::View;
use atomic_table::Play;

struct Stores;

impl Play<(), View> for Stores {
    ghost use Rattle.scmi_words.specs.CallerSteps.{stores};

    ghost then = { stores };
}

/// The next word of a frame is stored, from the length on: nothing is learnt.
pub fn store_frame_word(table: &SharedTable, seat: &mut TableSeat, word: usize, value: u32)
    requires table { IsSeatAt table.now seat.old }
    requires half { HasCaller seat.old × ((caller_of seat.old).state.phase ≡ Idle) }
    requires next { (word ≡ LENGTH + length (caller_of seat.old).state.draft) ×
        (word < TABLE_WORDS) }
    ensures { CallerBecomes seat.old (caller_stored (caller_of seat.old) value) seat.new }
{
    table.store::<Stores>(seat, word, u64::from(value));
}

struct Posts;

impl Play<(), View> for Posts {
    ghost use Rattle.scmi_words.specs.CallerSteps.{posts};

    ghost then = { posts };
}

/// The stored frame is posted, by an exchange of the status that the last answer left: if it fails,
/// the caller learns that the callee has closed.
pub fn hand_over(table: &SharedTable, seat: &mut TableSeat, free: u64) -> bool
    ghost frame: { Frame }
    requires table { IsSeatAt table.now seat.old }
    requires half { HasCaller seat.old × ((caller_of seat.old).state.phase ≡ Idle) ×
        ((caller_of seat.old).state.closed ≡ false) }
    requires free { free ≡ status_word
        (settled_mark (last_or None (caller_of seat.old).state.read)) false }
    requires whole { IsValid frame × ((caller_of seat.old).state.draft ≡ frame_words frame) }
    ensures { MatchBool result
        (CallerBecomes seat.old (caller_posted (caller_of seat.old) frame) seat.new)
        (CallerBecomes seat.old (caller_refused (caller_of seat.old)) seat.new) }
{
    table.compare_exchange::<Posts>(seat, STATUS, free, POSTED) == free
}

struct Looks;

impl Play<(), View> for Looks {
    ghost use Rattle.scmi_words.specs.CallerSteps.{looks};

    ghost then = { looks };
}

/// The status is loaded: with a post outstanding the caller learns its answer, that there will be none
/// as the callee has closed, or neither; with nothing outstanding, whether the callee has closed.
pub fn look(table: &SharedTable, seat: &mut TableSeat) -> u64
    requires table { IsSeatAt table.now seat.old }
    requires half { HasCaller seat.old }
    ensures { (h : CallerHalf) × CallerBecomes seat.old h seat.new ×
        ((caller_of seat.old).state.phase ≡ Waiting → Sees (caller_of seat.old) result h) ×
        ((caller_of seat.old).state.phase ≢ Waiting →
        h ≡ caller_looked (caller_of seat.old) result) }
{
    table.load::<Looks>(seat, STATUS)
}

struct Reads;

impl Play<(), View> for Reads {
    ghost use Rattle.scmi_words.specs.CallerSteps.{reads};

    ghost then = { reads };
}

/// A word of the area is loaded: the caller learns that word of the answer that it collected.
pub fn load_answer_word(table: &SharedTable, seat: &mut TableSeat, word: usize) -> u32
    requires table { IsSeatAt table.now seat.old }
    requires half { HasCaller seat.old × ((caller_of seat.old).state.phase ≡ Idle) ×
        ((caller_of seat.old).state.draft ≡ []) }
    requires word { (0 < word) × (word < TABLE_WORDS) }
    ensures view { CallerBecomes seat.old (caller_after (caller_of seat.old) 1) seat.new }
    ensures value { (i : ℕ) → word ≡ LENGTH + i → i < length (answer_area (caller_of seat.old)) →
        result ≡ slice_index (answer_area (caller_of seat.old)) i }
{
    table.load::<Reads>(seat, word) as u32
}

struct Shuts;

impl Play<(), View> for Shuts {
    ghost use Rattle.scmi_words.specs.CallerSteps.{closes};

    ghost then = { closes };
}

/// The caller closes, by an or of the closed mark; of the free bit too, if its post is outstanding
/// and the callee has closed, which withdraws the post.
pub fn set_caller_closed(table: &SharedTable, seat: &mut TableSeat, bits: u64) -> u64
    requires table { IsSeatAt table.now seat.old }
    requires half { HasCaller seat.old }
    requires bits { ((bits ≡ CLOSED) × ((caller_of seat.old).state.phase ≢ Waiting)) ⊎
        ((bits ≡ CLOSED + FREE) × ((caller_of seat.old).state.phase ≡ Withdrawing)) }
    ensures { (t : ℕ) × CallerBecomes seat.old (closed_by (caller_of seat.old) bits t) seat.new }
{
    table.fetch_or::<Shuts>(seat, STATUS, bits)
}

struct Withdraws;

impl Play<(), View> for Withdraws {
    ghost use Rattle.scmi_words.specs.CallerSteps.{withdraws};

    ghost then = { withdraws };
}

/// The outstanding post is withdrawn and the endpoint closed, by an exchange of the status from
/// posted: if it fails, the caller learns that the frame was taken, or answered, or that the callee
/// closed.
pub fn withdraw(table: &SharedTable, seat: &mut TableSeat) -> u64
    requires table { IsSeatAt table.now seat.old }
    requires half { HasCaller seat.old × ((caller_of seat.old).state.phase ≡ Waiting) }
    ensures { (h : CallerHalf) × CallerBecomes seat.old h seat.new ×
        (result ≡ 0 → (t : ℕ) × (h ≡ caller_withdrew (caller_of seat.old) t)) ×
        (result ≢ 0 → Refuses (caller_of seat.old) result h) }
{
    table.compare_exchange::<Withdraws>(seat, STATUS, POSTED, CLOSED + FREE)
}
