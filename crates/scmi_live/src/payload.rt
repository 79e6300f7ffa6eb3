//! The payload words that items encode.
ghost use Rattle.std.specs.Prelude.{◌≡◌, [], map};
ghost use Rattle.std.specs.Option.{option_map};
ghost use Rattle.scmi_plan.specs.RawPlan.{asked_board};
ghost use Rattle.scmi_live.specs.Payload.{first_words, numbers, payload_meant, words_behind};

use crate::left_items::LeftItems;
use crate::word::{PartWords, is_flags, one_word, words_of_item};
use arrayvec::ArrayVec;
use scmi_board::word;
use scmi_codec::{Part, Payload, listed_row};
use scmi_plan::RawPlan;

/// The payload words that items encode in a message: part by part if the message is known, and else
/// numbers. `None` if an item encodes nothing there, or they are too few or too many.
pub(crate) fn payload_meant(
    board: &RawPlan,
    protocol: u8,
    id: u8,
    items: &[&[u8]],
) -> Option<Payload>
    ensures { option_map (λ payload. payload.items) result ≡ payload_meant (asked_board board.now)
        protocol id (map (λ item. item.now) items.now) }
{
    match listed_row(protocol, u32::from(id)) {
        Some(row) => words_of_parts(board, protocol, row.asks, items),
        None => numbers(items),
    }
}

/// Items that are numbers.
pub(crate) fn numbers(items: &[&[u8]]) -> Option<Payload>
    ensures { option_map (λ payload. payload.items) result ≡
        numbers (map (λ item. item.now) items.now) }
{
    let mut payload = ArrayVec::new();
    'items: for item in items {
        let word = word(*item)?;
        payload.try_push(word).ok()?;
    }
    Some(payload)
}

/// The words that items encode, part by part.
fn words_of_parts(
    board: &RawPlan,
    protocol: u8,
    mut parts: &[Part],
    items: &[&[u8]],
) -> Option<Payload>
    ensures { option_map (λ payload. payload.items) result ≡ words_behind (asked_board board.now)
        protocol [] parts.entry.now (map (λ item. item.now) items.now) }
{
    let mut left = LeftItems::new(items);
    let mut payload = ArrayVec::new();
    while let [part, behind @ ..] = parts {
        let words = first_words(board, protocol, *part, behind.len(), &mut left)?;
        payload.try_extend_from_slice(words.as_slice()).ok()?;
        parts = behind;
    }
    if left.is_empty() { Some(payload) } else { None }
}

/// The words of a part that this number of parts follow; flags that have no item are 0.
fn first_words(
    board: &RawPlan,
    protocol: u8,
    part: Part,
    behind: usize,
    items: &mut LeftItems<'_, '_>,
) -> Option<PartWords>
    ensures { option_map (λ words. (words.items, items.new)) result ≡
        first_words (asked_board board.now) protocol part behind items.old }
{
    if is_flags(part) && items.len() == behind {
        return Some(one_word(0));
    }
    let item = items.take_first()?;
    words_of_item(board, protocol, part, item)
}
