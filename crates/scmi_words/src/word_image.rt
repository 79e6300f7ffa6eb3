//! What is left of a word channel.
ghost use Rattle.std.specs.Prelude.{◌≡◌, ℕ, ◌<◌, ◌^◌, length, slice_index};
ghost use mathlib.Core.Option.{some};
ghost use lib.ListN.{get_elem?};
ghost use Rattle.std.specs.Mem.Slots.{IsFull, slots_items, slots_len};
ghost use Rattle.scmi_words.specs.declared.layout.TheConstants.{TABLE_WORDS};

use crate::layout::{FLAGS, FLAGS_AT, STATUS, STATUS_AT, TABLE_WORDS};
use atomic_table::Closed;
use scmi_codec::{AREA_BYTES, write_word};
use std::alloc::Global;

/// The last words of a channel whose endpoints were gathered.
#[derive(Drop)]
pub struct WordImage {
    pub(crate) words: [u64; TABLE_WORDS],
    ghost narrow: { (i : ℕ) → 0 < i → slice_index words i < 2 ^ 32 },
}

impl WordImage {
    ghost use Rattle.std.specs.Prelude.{◌≡◌};
    ghost use Rattle.scmi_words.specs.WordImage.{image_area};

    /// The bytes of the area (DEN0056B, shared memory transport). The marks above the 32 bits of the
    /// status are left out.
    ///
    /// They are the last answer; or the last frame with status 0 if it was left untaken, with
    /// status 1 if it was withdrawn (own). If the callee still owes an answer the status is 0, and
    /// nothing is stated about the message.
    pub fn area(&self) -> [u8; AREA_BYTES]
        ensures { result ≡ image_area self.now }
    {
        let mut area = [0u8; AREA_BYTES];
        write_word(
            &mut area,
            STATUS_AT,
            (self.words[STATUS] % (1 << 32)) as u32,
        );
        for i in FLAGS..TABLE_WORDS {
            write_word(&mut area, FLAGS_AT + 4 * (i - FLAGS), self.words[i] as u32);
        }
        area
    }
}

/// The words of a closed table.
pub fn words_of(closed: &Closed<(), Global>) -> [u64; TABLE_WORDS]
    requires { IsFull closed.now.words × (slots_len closed.now.words ≡ TABLE_WORDS) }
    ensures long { length result ≡ TABLE_WORDS }
    ensures same { (i : ℕ) → i < TABLE_WORDS →
        get_elem? (slots_items closed.now.words) i ≡ some (slice_index result i) }
{
    let mut words = [0u64; TABLE_WORDS];
    for i in 0..TABLE_WORDS {
        words[i] = closed.word(i);
    }
    words
}
