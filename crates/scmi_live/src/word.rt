//! The words that an item encodes, by the part of a message that it is.
ghost use Rattle.std.specs.Prelude.{◌≡◌, ◌∷◌, []};
ghost use Rattle.std.specs.Option.{option_map};
ghost use Rattle.scmi_plan.specs.RawPlan.{asked_board};
ghost use Rattle.scmi_live.specs.Payload.{is_flags, switched, word_meant, word_named, words_of_item};

use crate::flags::{flags_in, flags_of};
use crate::letters::is_word;
use crate::messages::{id_in, protocol_named};
use crate::named::number_from;
use crate::rate::rate_meant;
use arrayvec::ArrayVec;
use scmi_board::word;
use scmi_codec::{Part, rate_words, rows_of};
use scmi_plan::RawPlan;

/// The words of a state.
pub(crate) const ON: &[u8] = b"on";

pub(crate) const OFF: &[u8] = b"off";

/// The state OFF of a power domain, as a word.
pub(crate) const OFF_STATE: u32 = 0x4000_0000;

/// The words of one part of a payload.
pub(crate) type PartWords = ArrayVec<u32, 2>;

/// The words that an item encodes as this part of a message of a protocol; `None` if it encodes
/// none.
pub(crate) fn words_of_item(
    board: &RawPlan,
    protocol: u8,
    part: Part,
    item: &[u8],
) -> Option<PartWords>
    ensures { option_map (λ words. words.items) result ≡
        words_of_item (asked_board board.now) protocol part item.now }
{
    match part {
        Part::Rate => Some(PartWords::from(rate_words(rate_meant(item)?))),
        _ => Some(one_word(word_meant(board, protocol, part, item)?)),
    }
}

/// One word.
pub(crate) fn one_word(word: u32) -> PartWords
    ensures { result.items ≡ word ∷ [] }
{
    let mut words = PartWords::new();
    words.push(word);
    words
}

/// The word that an item encodes: its number, or what its name encodes.
pub(crate) fn word_meant(board: &RawPlan, protocol: u8, part: Part, item: &[u8]) -> Option<u32>
    ensures { result ≡ word_meant (asked_board board.now) protocol part item.now }
{
    match word(item) {
        Some(word) => Some(word),
        None => word_named(board, protocol, part, item),
    }
}

/// The word that a name encodes.
fn word_named(board: &RawPlan, protocol: u8, part: Part, item: &[u8]) -> Option<u32>
    ensures { result ≡ word_named (asked_board board.now) protocol part item.now }
{
    match part {
        Part::Agent | Part::Subject => number_from(1, &board.agents, item),
        Part::Domain => number_from(0, &board.domains, item),
        Part::Clock => number_from(0, &board.clocks, item),
        Part::Protocol => Some(u32::from(protocol_named(item)?)),
        Part::Message => Some(u32::from(id_in(rows_of(protocol), item)?)),
        Part::State => switched(0, OFF_STATE, item),
        Part::Enable | Part::ClockAttributes => switched(1, 0, item),
        _ => flags_in(flags_of(part), item),
    }
}

/// `on` or `off`, in letters of either case, by the words that they encode.
fn switched(on: u32, off: u32, item: &[u8]) -> Option<u32>
    ensures { result ≡ switched on off item.now }
{
    if is_word(item, ON) {
        return Some(on);
    }
    if is_word(item, OFF) {
        return Some(off);
    }
    None
}

/// Whether a part is flags.
pub(crate) fn is_flags(part: Part) -> bool
    ensures { result ≡ is_flags part }
{
    matches!(
        part,
        Part::PermitFlags | Part::ResetFlags | Part::PowerFlags | Part::RateFlags
    )
}
