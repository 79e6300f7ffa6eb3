//! How a line fits forms.

use crate::explanation::ItemFault;
use crate::fields::item_wrong;
use crate::forms::Form;
use crate::numbers::WORD;
use crate::sentence::Sentence;
use crate::text::begins_with;
use scmi_board::Items;
use scmi_codec::PAYLOAD_WORDS;

/// What is said of an item that is not there.
pub(crate) const MISSING: &str = "is missing";

/// What is said of an item where nothing is to be.
pub(crate) const EXTRA: &str = "is one too many";

/// How a line fits forms.
#[derive(Clone, Copy)]
pub(crate) enum Fit<'a> {
    /// It has one of them.
    Well,
    /// Its first word is that of a form, and this item is wrong in the form that fits farthest.
    Until(ItemFault<'a>),
    /// Its first word is that of none.
    Unknown,
}

/// How a line fits forms, on this board or in a script of it.
pub(crate) fn fit_of<'a>(forms: &[Form], line: &'a [u8], board: &[u8]) -> Fit<'a> {
    let mut best = Fit::Unknown;
    for form in forms {
        if begins_with(line, form.word()) {
            best = better(best, fit_with(*form, line, board));
        }
    }
    best
}

/// The better one of two. Of two that are wrong as far on, it is the first, unless that has no more
/// items.
fn better<'a>(first: Fit<'a>, second: Fit<'a>) -> Fit<'a> {
    match (first, second) {
        (Fit::Well, _) => first,
        (Fit::Until(one), Fit::Until(other))
            if one.number > other.number || one.number == other.number && one.wrong.text != EXTRA =>
            first,
        _ => second,
    }
}

/// How a line fits a form with its first word.
fn fit_with<'a>(form: Form, line: &'a [u8], board: &[u8]) -> Fit<'a> {
    let mut place = Place {
        items: Items::new(line),
        number: 0,
        item: b"",
    };
    match place.go_on_along(form, board) {
        Some(wrong) => Fit::Until(ItemFault {
            number: place.number,
            item: place.item,
            wrong,
            form: form.text,
        }),
        None => Fit::Well,
    }
}

/// A place in a line.
#[derive(Drop)]
struct Place<'a> {
    items: Items<'a>,
    /// The number of the item that is here, from 1.
    number: u32,
    item: &'a [u8],
}

impl Place<'_> {
    /// Goes to the first item that is wrong: what is wrong with it.
    fn go_on_along(&mut self, form: Form, board: &[u8]) -> Option<Sentence<'static>> {
        for field in form.items.split(' ') {
            let wrong = self.go_to(field, board);
            if wrong.is_some() {
                return wrong;
            }
        }
        self.go_on().then_some(Sentence::of(EXTRA))
    }

    /// Goes to the item where a form has this one: what is wrong with it.
    fn go_to(&mut self, field: &'static str, board: &[u8]) -> Option<Sentence<'static>> {
        if field == "W.." {
            return self.go_on_along_words();
        }
        if field.starts_with('[') && self.items.is_done() {
            return None;
        }
        let before = self.item;
        if self.go_on() {
            item_wrong(field, before, self.item, board)
        } else {
            Some(Sentence::of(MISSING))
        }
    }

    /// Goes to the first payload word that is wrong: what is wrong with it.
    fn go_on_along_words(&mut self) -> Option<Sentence<'static>> {
        for _ in 0..PAYLOAD_WORDS {
            if !self.go_on() {
                return None;
            }
            if let Some(fault) = WORD.fault_of(self.item) {
                return Some(Sentence::of(fault));
            }
        }
        self.go_on().then_some(Sentence::of("is a 65th payload word; a message has at most 64"))
    }

    /// Goes to the next item: whether it is there.
    fn go_on(&mut self) -> bool {
        self.number = self.number.saturating_add(1);
        match self.items.next_item() {
            Ok(item) => {
                self.item = item;
                true
            }
            Err(_) => false,
        }
    }
}

/// The word of the forms that a line begins with, if it does.
pub(crate) fn word_of(forms: &[Form], line: &[u8]) -> Option<&'static str> {
    for form in forms {
        if begins_with(line, form.word()) {
            return Some(form.word());
        }
    }
    None
}

/// Whether the first word of a line is that of a form.
pub(crate) fn begins_as(forms: &[Form], line: &[u8]) -> bool {
    word_of(forms, line).is_some()
}

/// Whether a line has one of the forms.
pub(crate) fn fits_well(forms: &[Form], line: &[u8], board: &[u8]) -> bool {
    matches!(&fit_of(forms, line, board), Fit::Well)
}
