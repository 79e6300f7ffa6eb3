//! What the hardware reports.
ghost use Rattle.std.specs.Prelude.{◌≡◌, OnOk};
ghost use Rattle.scmi_chart.specs.Signs.{reported_signs};
ghost use Rattle.scmi_chart.specs.Shown.{adds};

use crate::board_names::{clock_name, domain_name};
use crate::mark::{Mark, Side};
use crate::recorder::Recorder;
use crate::value::{Value, filled_words};
use crate::words::{numbered_words, rate_words, state_words, switch_word, two_words};
use scmi_core::Core;
use scmi_plan::{Effect, RawPlan, Report};
use scmi_text::Step;
use std::alloc::{AllocError, Global};

impl<'a> Recorder<'a> {
    /// The hardware reported something, and the platform, which is in this state now, took it over
    /// or did not: if it did, words beside its lifeline report that.
    pub(crate) fn record_report(
        &mut self,
        slot: u16,
        step: &Step,
        taken: bool,
        core: &Core,
    ) -> Result<(), AllocError>
        ensures { OnOk result (self.new ≡ adds (reported_signs taken) self.old) }
    {
        if !taken {
            return Ok(());
        }
        let text = step_words(self.alloc, self.board, step, core)?;
        self.marks.add(Mark::Remark {
            agent: 0,
            slot,
            beside: Side::Platform,
            text,
        })
    }
}

/// What the hardware reports in a step, in words.
fn step_words(
    alloc: Global,
    board: &RawPlan,
    step: &Step,
    core: &Core,
) -> Result<Vec<u8>, AllocError> {
    match step {
        Step::Report { report } => report_words(alloc, board, *report, core),
        _ => Ok(Vec::new(alloc)),
    }
}

fn report_words(
    alloc: Global,
    board: &RawPlan,
    report: Report,
    core: &Core,
) -> Result<Vec<u8>, AllocError> {
    match report {
        Report::Changed(effect) => {
            let name = changed_name(alloc, board, effect);
            two_words(alloc, "reported: % is %", name, value_words(alloc, effect))
        }
        Report::First(place) => {
            let set = first_set(alloc, board, place, core)?;
            filled_words(alloc, "reported: % ends first", &[Value::Words(&set)])
        }
        Report::Settled { clock, rate } => {
            let name = clock_name(alloc, board, clock);
            two_words(
                alloc,
                "reported: % settles at %",
                name,
                rate_words(alloc, rate),
            )
        }
    }
}

/// The name of what an effect changes.
fn changed_name(alloc: Global, board: &RawPlan, effect: Effect) -> Result<Vec<u8>, AllocError> {
    match effect {
        Effect::State { domain, .. } => domain_name(alloc, board, domain),
        Effect::Rate { clock, .. } | Effect::Enabled { clock, .. } => {
            clock_name(alloc, board, clock)
        }
    }
}

/// The value that an effect gives.
fn value_words(alloc: Global, effect: Effect) -> Result<Vec<u8>, AllocError> {
    match effect {
        Effect::State { state, .. } => state_words(alloc, state),
        Effect::Rate { rate, .. } => rate_words(alloc, rate),
        Effect::Enabled { enabled, .. } => {
            Vec::from_slice(alloc, switch_word(u32::from(enabled)).as_bytes())
        }
    }
}

/// The pending set that was at this place and is the first now, by what it sets; by its place if
/// the platform has none.
fn first_set(
    alloc: Global,
    board: &RawPlan,
    place: u32,
    core: &Core,
) -> Result<Vec<u8>, AllocError> {
    match core.pending_sets() {
        [set, ..] => {
            let name = changed_name(alloc, board, set.effect())?;
            filled_words(alloc, "the set of %", &[Value::Words(&name)])
        }
        [] => numbered_words(alloc, "set %", place),
    }
}
