//! The items of a line.
ghost use Rattle.std.specs.Prelude.{◌≡◌, ◌<◌, ◌≤◌, ◌==◌, length, is_ok, IfOk, OnOk};
ghost use Rattle.scmi_board.specs.Items.{behind_spaces, first_item, first_number, item_at, items_left, no_item};
ghost use Rattle.scmi_board.specs.LineError.{Gives};
ghost use Rattle.scmi_plan.specs.Agent.{IsAgent};

use crate::line_error::LineError;
use crate::numbers::{byte, number, word};
use crate::places::{first_other_place, first_place};
use arrayvec::ArrayVec;
use scmi_codec::Payload;
use std::marker::Model;

/// What is left of a line, as items with one or more spaces between them, and none before the first
/// or after the last (own). A contract sees the bytes.
///
/// Each reader gives `Form` if no item is left, or it is of another kind; then the line is of
/// another form, and what is left of it is of no use.
#[derive(Drop)]
pub struct Items<'a> {
    rest: &'a [u8],
}

impl<'a> Model for Items<'a> {
    ghost use Rattle.std.specs.Prelude.{ℕ, List};

    ghost Value = { List ℕ };

    ghost view = { λ items. items.rest.now };
}

impl<'a> Items<'a> {
    /// The items of a line.
    pub fn new(text: &'a [u8]) -> Items<'a>
        ensures { result ≡ text.now }
    {
        Items { rest: text }
    }

    /// Whether no item is left.
    pub fn is_done(&self) -> bool
        ensures { result ≡ (length self.now == 0) }
    {
        self.rest.is_empty()
    }

    /// `Form` if an item is left.
    pub fn finish(&self) -> Result<(), LineError>
        ensures ok { is_ok result ≡ (length self.now == 0) }
        ensures items { Gives (λ _. tt) result (no_item (items_left self.now)) }
    {
        if self.is_done() {
            Ok(())
        } else {
            Err(LineError::Form)
        }
    }

    /// The next item. `Form` if a space precedes it, or only spaces follow it.
    pub fn next_item(&mut self) -> Result<&'a [u8], LineError>
        ensures smaller { OnOk result (length self.new < length self.old) }
        ensures item { Gives (λ item. (item.now, self.new)) result (item_at self.old) }
        ensures items { Gives (λ item. (item.now, items_left self.new)) result
            (first_item (items_left self.old)) }
    {
        self.cut()
    }

    #[tactic(auto, unfolding(crate::specs::Items::item_at))]
    fn cut(&mut self) -> Result<&'a [u8], LineError>
        ensures { Gives (λ item. (item.now, self.new)) result (item_at self.old) }
    {
        let rest = self.rest;
        let (item, behind) = rest.split_at(first_place(rest, b' '));
        if item.is_empty() {
            return Err(LineError::Form);
        }
        self.rest = behind_spaces(behind)?;
        Ok(item)
    }

    /// The next item as a number of 64 bits.
    #[tactic(auto, unfolding(crate::specs::Items::first_number))]
    pub fn next_number(&mut self) -> Result<u64, LineError>
        ensures smaller { OnOk result (length self.new < length self.old) }
        ensures number { Gives (λ number. (number, items_left self.new)) result
            (first_number 64 (items_left self.old)) }
    {
        number(self.next_item()?).ok_or(LineError::Form)
    }

    /// The next item as a number of 32 bits.
    #[tactic(auto, unfolding(crate::specs::Items::first_number))]
    pub fn next_word(&mut self) -> Result<u32, LineError>
        ensures smaller { OnOk result (length self.new < length self.old) }
        ensures number { Gives (λ number. (number, items_left self.new)) result
            (first_number 32 (items_left self.old)) }
    {
        word(self.next_item()?).ok_or(LineError::Form)
    }

    /// The next item as a number of 8 bits.
    #[tactic(auto, unfolding(crate::specs::Items::first_number))]
    pub fn next_byte(&mut self) -> Result<u8, LineError>
        ensures smaller { OnOk result (length self.new < length self.old) }
        ensures number { Gives (λ number. (number, items_left self.new)) result
            (first_number 8 (items_left self.old)) }
    {
        byte(self.next_item()?).ok_or(LineError::Form)
    }

    /// The next item as the number of an agent, of which there are this many, numbered from 1.
    pub fn next_agent(&mut self, agents: u32) -> Result<u32, LineError>
        ensures { IfOk result (IsAgent agents) }
    {
        let agent = self.next_word()?;
        if agent == 0 || agent > agents {
            return Err(LineError::Form);
        }
        Ok(agent)
    }

    /// All items that are left, as words of 32 bits. `Form` if there are more than `PAYLOAD_WORDS`.
    pub fn payload(&mut self) -> Result<Payload, LineError>
        ensures { OnOk result (length self.new ≡ 0) }
    {
        let mut payload = ArrayVec::new();
        while !self.is_done() {
            let word = self.next_word()?;
            if payload.try_push(word).is_err() {
                return Err(LineError::Form);
            }
        }
        Ok(payload)
    }
}

/// What follows the spaces that a text begins with. `Form` if nothing else is there.
#[tactic(auto, unfolding(crate::specs::Items::behind_spaces))]
fn behind_spaces(text: &[u8]) -> Result<&[u8], LineError>
    ensures { Gives (λ rest. rest.now) result (behind_spaces text.now) }
{
    let (_, rest) = text.split_at(first_other_place(text, b' '));
    if rest.is_empty() && !text.is_empty() {
        return Err(LineError::Form);
    }
    Ok(rest)
}
