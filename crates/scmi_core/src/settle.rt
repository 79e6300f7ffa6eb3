//! What is left of a rate that hardware settled.
ghost use Rattle.scmi_core.specs.Step.{HasSettled};

use crate::tables::Tables;

impl Tables {
    /// Gives the pending set of a clock another rate.
    pub fn settle(&mut self, clock: u32, rate: u64)
        ensures { HasSettled clock rate self.old self.new }
    {
        self.pending.settle(clock, rate);
    }
}
