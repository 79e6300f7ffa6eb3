//! The status word: the standard's channel status in its low 32 bits (DEN0056B, shared memory
//! transport), and two marks above them (own).
ghost use Rattle.std.specs.Prelude.{◌≡◌, ◌↔◌, ◌%◌, IsTrue, false, Bool};
ghost use Rattle.scmi_codec.specs.declared.frame.Answer.{Answer};
ghost use Rattle.scmi_words.specs.declared.status_word.TheConstants.{FREE};
ghost use Rattle.scmi_words.specs.StatusWord.{status_word, answer_mark, told_by};

/// A frame is posted, and not taken.
pub const POSTED: u64 = 0;

/// The channel is free. Bit 0 decides.
pub const FREE: u64 = 1;

/// The channel is free, and the frame was malformed.
pub const CHANNEL_ERROR: u64 = 3;

/// The frame is taken, and not answered (own).
pub const TAKEN: u64 = 0x1_0000_0000;

/// The channel is free with no response. The mark of the taken frame is kept, which distinguishes a
/// release from a response of the same words (own).
pub const RELEASED: u64 = TAKEN + FREE;

/// An endpoint has closed: added to each of the above but `TAKEN` (own).
pub const CLOSED: u64 = 0x2_0000_0000;

/// Whether the channel is free.
pub fn is_free(status: u64) -> bool
    ensures { IsTrue result ↔ (status % 2 ≡ FREE) }
{
    status % 2 == FREE
}

/// The status of an answer without the closed mark.
pub fn without_closed(status: u64) -> u64
    ensures { (answer : Answer) (closed : Bool) → status ≡ status_word (answer_mark answer) closed →
        result ≡ status_word (answer_mark answer) false }
{
    status % CLOSED
}

/// Whether an endpoint knows of the other's close after it found this status: from before, or since
/// it has not closed itself and finds the closed mark.
pub fn told_after(closed: bool, told: bool, status: u64) -> bool
    ensures { result ≡ told_by closed told status }
{
    told || (!closed && status >= CLOSED)
}
