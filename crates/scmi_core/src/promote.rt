//! What is left of a promotion.
ghost use Rattle.std.specs.Prelude.{◌<◌, length};
ghost use Rattle.scmi_core.specs.Step.{HasPromoted};

use crate::tables::Tables;

impl Tables {
    /// Puts the pending set at a place, counted from 0, before the others.
    pub fn promote(&mut self, place: usize)
        requires { place < length self.old.pending }
        ensures { HasPromoted place self.old self.new }
    {
        self.pending.promote(place);
    }
}
