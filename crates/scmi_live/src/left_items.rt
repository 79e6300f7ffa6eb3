//! The items of a line that are left.
ghost use Rattle.std.specs.Prelude.{◌≡◌, ◌==◌, length, map};
ghost use Rattle.std.specs.Option.{option_map};
ghost use Rattle.scmi_live.specs.Payload.{first_left};

use std::marker::Model;

/// The items of a line that are left. A contract sees their bytes.
#[derive(Drop)]
pub(crate) struct LeftItems<'a, 'b> {
    rest: &'a [&'b [u8]],
}

impl<'a, 'b> Model for LeftItems<'a, 'b> {
    ghost use Rattle.std.specs.Prelude.{ℕ, List, map};

    ghost Value = { List (List ℕ) };

    ghost view = { λ left. map (λ item. item.now) left.rest.now };
}

impl<'a, 'b> LeftItems<'a, 'b> {
    /// All of them.
    pub(crate) fn new(items: &'a [&'b [u8]]) -> LeftItems<'a, 'b>
        ensures { result ≡ map (λ item. item.now) items.now }
    {
        LeftItems { rest: items }
    }

    /// How many they are.
    pub(crate) fn len(&self) -> usize
        ensures { result ≡ length self.now }
    {
        self.rest.len()
    }

    /// Whether none is left.
    pub(crate) fn is_empty(&self) -> bool
        ensures { result ≡ (length self.now == 0) }
    {
        self.rest.is_empty()
    }

    /// The first of them, which is taken off; `None` if none is left.
    pub(crate) fn take_first(&mut self) -> Option<&'b [u8]>
        ensures { option_map (λ item. (item.now, self.new)) result ≡ first_left self.old }
    {
        match self.rest {
            [item, rest @ ..] => {
                self.rest = rest;
                Some(*item)
            }
            [] => None,
        }
    }
}
