//! The kinds of step that a callee makes: one function each, with one step.
ghost use Rattle.std.specs.Prelude.{◌≡◌, ◌≢◌, ℕ, ◌+◌, ◌<◌, [], false, length, slice_index};
ghost use Rattle.scmi_codec.specs.declared.frame.Frame.{Frame};
ghost use Rattle.scmi_codec.specs.declared.frame.Answer.{Answer};
ghost use Rattle.scmi_words.specs.declared.layout.TheConstants.{LENGTH, TABLE_WORDS};
ghost use Rattle.scmi_words.specs.declared.view.CalleeHalf.{CalleeHalf};
ghost use Rattle.scmi_words.specs.Area.{IsValid, IsValidAnswer, stored_words};
ghost use Rattle.scmi_words.specs.StatusWord.{status_word, answer_mark};
ghost use Rattle.scmi_words.specs.View.{HasCallee, CalleeBecomes, callee_of};
ghost use Rattle.scmi_words.specs.SharedTable.{IsSeatAt};
ghost use Rattle.scmi_words.specs.CalleeSteps.{callee_after, callee_took, callee_looked, callee_stored, callee_answered, callee_closed, IsOwing, frame_area};

use crate::layout::STATUS;
use crate::shared_table::{SharedTable, TableSeat};
use crate::status_word::{CLOSED, POSTED, TAKEN};
use crate::view::View;
use atomic_table::Play;

struct Takes;

impl Play<(), View> for Takes {
    ghost use Rattle.scmi_words.specs.CalleeSteps.{takes};

    ghost then = { takes };
}

/// The posted frame is taken, by an exchange of the status: if it fails, the callee learns the
/// status, and by the closed mark that the caller has closed.
pub fn take_over(table: &SharedTable, seat: &mut TableSeat) -> u64
    requires table { IsSeatAt table.now seat.old }
    requires half { HasCallee seat.old }
    ensures { (h : CalleeHalf) × CalleeBecomes seat.old h seat.new ×
        (result ≡ 0 → (f : Frame) × IsValid f × (h ≡ callee_took (callee_of seat.old) f)) ×
        (result ≢ 0 → h ≡ callee_looked (callee_of seat.old) result) }
{
    table.compare_exchange::<Takes>(seat, STATUS, POSTED, TAKEN)
}

struct Reads;

impl Play<(), View> for Reads {
    ghost use Rattle.scmi_words.specs.CalleeSteps.{reads};

    ghost then = { reads };
}

/// A word of the area is loaded: the callee learns that word of the frame that it took.
pub fn load_frame_word(table: &SharedTable, seat: &mut TableSeat, word: usize) -> u32
    requires table { IsSeatAt table.now seat.old }
    requires half { HasCallee seat.old × IsOwing (callee_of seat.old) ×
        ((callee_of seat.old).state.draft ≡ []) }
    requires word { (0 < word) × (word < TABLE_WORDS) }
    ensures view { CalleeBecomes seat.old (callee_after (callee_of seat.old) 1) seat.new }
    ensures value { (i : ℕ) → word ≡ LENGTH + i → i < length (frame_area (callee_of seat.old)) →
        result ≡ slice_index (frame_area (callee_of seat.old)) i }
{
    table.load::<Reads>(seat, word) as u32
}

struct Stores;

impl Play<(), View> for Stores {
    ghost use Rattle.scmi_words.specs.CalleeSteps.{stores};

    ghost then = { stores };
}

/// The next word of a response is stored, from the length on: nothing is learnt.
pub fn store_answer_word(table: &SharedTable, seat: &mut TableSeat, word: usize, value: u32)
    requires table { IsSeatAt table.now seat.old }
    requires half { HasCallee seat.old × IsOwing (callee_of seat.old) }
    requires next { (word ≡ LENGTH + length (callee_of seat.old).state.draft) ×
        (word < TABLE_WORDS) }
    ensures { CalleeBecomes seat.old (callee_stored (callee_of seat.old) value) seat.new }
{
    table.store::<Stores>(seat, word, u64::from(value));
}

struct Answers;

impl Play<(), View> for Answers {
    ghost use Rattle.scmi_words.specs.CalleeSteps.{answers};

    ghost then = { answers };
}

/// The taken frame is answered, by an exchange of the status from taken, which never fails: nothing is
/// learnt.
pub fn hand_back(table: &SharedTable, seat: &mut TableSeat, status: u64)
    ghost answer: { Answer }
    requires table { IsSeatAt table.now seat.old }
    requires half { HasCallee seat.old × IsOwing (callee_of seat.old) }
    requires answer { IsValidAnswer answer × (status ≡ status_word (answer_mark answer) false) }
    requires stored { (callee_of seat.old).state.draft ≡ stored_words answer }
    ensures { CalleeBecomes seat.old (callee_answered (callee_of seat.old) answer) seat.new }
{
    table.compare_exchange::<Answers>(seat, STATUS, TAKEN, status);
}

struct Shuts;

impl Play<(), View> for Shuts {
    ghost use Rattle.scmi_words.specs.CalleeSteps.{closes};

    ghost then = { closes };
}

/// The callee closes, by an or of the closed mark: nothing is learnt.
pub fn set_callee_closed(table: &SharedTable, seat: &mut TableSeat) -> u64
    requires table { IsSeatAt table.now seat.old }
    requires half { HasCallee seat.old × ¬ IsOwing (callee_of seat.old) }
    ensures { (p : ℕ) × CalleeBecomes seat.old (callee_closed (callee_of seat.old) p) seat.new }
{
    table.fetch_or::<Shuts>(seat, STATUS, CLOSED)
}
