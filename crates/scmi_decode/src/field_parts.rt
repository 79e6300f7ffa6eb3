//! The fields of parts, by which the table of messages says what each message has.
ghost use Rattle.std.specs.Prelude.{◌≡◌, ◌≤◌, IfSome, drop, length, slice_index};
ghost use Rattle.std.specs.List.{list_any};
ghost use Rattle.std.specs.Option.{option_map};
ghost use Rattle.scmi_codec.specs.Listing.{said, listed_row, size_of, words_of};
ghost use Rattle.scmi_decode.specs.FieldParts.{field_of, fields_by, is_list, name_field, statistics_field};
ghost use Rattle.scmi_decode.specs.declared.field.TheConstants.{FIELDS};

use crate::field::{Field, Fields};
use arrayvec::ArrayVec;
use scmi_codec::{HeldRow, Part, listed_row, rate_of};

/// The row of a message; `None` if no command of the profile has the id.
pub(crate) fn row_of(protocol: u8, id: u8) -> Option<HeldRow>
    ensures row { option_map said result ≡ listed_row protocol id }
    ensures few { IfSome result (λ r. (length r.asks.now ≤ FIELDS)
        × (length r.gives.now ≤ FIELDS) × (length r.later.now ≤ FIELDS)) }
{
    listed_row(protocol, u32::from(id))
}

/// Whether one of these parts is a list, which has no field.
pub(crate) fn has_list(parts: &[Part]) -> bool
    ensures { result ≡ list_any is_list parts.now }
{
    parts.iter().any(|part| is_list(*part))
}

fn is_list(part: Part) -> bool
    ensures { result ≡ is_list part }
{
    matches!(part, Part::Protocols | Part::Rates)
}

/// The number of words of parts of fixed size.
pub(crate) fn words_of(parts: &[Part]) -> usize
    requires { length parts.now ≤ FIELDS }
    ensures { result ≡ words_of parts.now }
{
    let mut words = 0;
    'parts: for part in parts {
        words += size_of(*part);
    }
    words
}

/// The number of words of a part of fixed size.
fn size_of(part: Part) -> usize
    ensures value { result ≡ size_of part }
    ensures few { result ≤ 4 }
{
    match part {
        Part::Name => 4,
        Part::Statistics => 3,
        Part::Rate => 2,
        _ => 1,
    }
}

/// The fields of parts in their order, each from the words after those of the parts before it.
pub(crate) fn fields_by(parts: &[Part], mut words: &[u32]) -> Fields
    requires { length parts.now ≤ FIELDS }
    ensures { result.items ≡ fields_by parts.now words.entry.now }
{
    let mut fields = ArrayVec::new();
    'parts: for part in parts {
        if let Some(field) = field_of(*part, words) {
            let _ = fields.try_push(field);
        }
        words = behind(words, size_of(*part));
    }
    fields
}

/// The words behind the first ones.
fn behind(words: &[u32], count: usize) -> &[u32]
    ensures { result.now ≡ drop count words.now }
{
    if count < words.len() {
        &words[count..]
    } else {
        &[]
    }
}

/// The field of a part, whose words are the first ones; `None` for a list.
fn field_of(part: Part, words: &[u32]) -> Option<Field>
    ensures { result ≡ field_of part words.now }
{
    let word = word_at(words, 0);
    Some(match part {
        Part::Version => Field::Version(word),
        Part::Counts => Field::Counts(word),
        Part::Message => Field::Message(word),
        Part::Attributes => Field::Attributes(word),
        Part::Name => name_field(words),
        Part::Implementation => Field::Implementation(word),
        Part::Skip => Field::Skip(word),
        Part::Agent => Field::Agent(word),
        Part::Subject => Field::Subject(word),
        Part::Device => Field::Device(word),
        Part::Protocol => Field::Protocol(word),
        Part::PermitFlags => Field::PermitFlags(word),
        Part::ResetFlags => Field::ResetFlags(word),
        Part::Domains => Field::Domains(word),
        Part::Statistics => statistics_field(words),
        Part::Domain => Field::Domain(word),
        Part::DomainAttributes => Field::DomainAttributes(word),
        Part::PowerFlags => Field::PowerFlags(word),
        Part::State => Field::State(word),
        Part::Enable => Field::Enable(word),
        Part::Clocks => Field::Clocks(word),
        Part::Clock => Field::Clock(word),
        Part::ClockAttributes => Field::ClockAttributes(word),
        Part::Index => Field::Index(word),
        Part::RateFlags => Field::RateFlags(word),
        Part::Rate => Field::Rate(rate_of(word, word_at(words, 1))),
        Part::Protocols | Part::Rates => return None,
    })
}

/// The four words of a name.
fn name_field(words: &[u32]) -> Field
    ensures { result ≡ name_field words.now }
{
    Field::Name([
        word_at(words, 0),
        word_at(words, 1),
        word_at(words, 2),
        word_at(words, 3),
    ])
}

/// The three words of statistics memory.
fn statistics_field(words: &[u32]) -> Field
    ensures { result ≡ statistics_field words.now }
{
    Field::Statistics([word_at(words, 0), word_at(words, 1), word_at(words, 2)])
}

/// A word; 0 for one that is not there.
fn word_at(words: &[u32], at: usize) -> u32
    ensures { result ≡ slice_index words.now at }
{
    if at < words.len() { words[at] } else { 0 }
}
