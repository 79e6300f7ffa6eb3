//! The line of what the hardware reports, as it is read.
ghost use Rattle.std.specs.Prelude.{◌≡◌, List, ℕ, None, IfOk};
ghost use Rattle.scmi_board.specs.Items.{items_left};
ghost use Rattle.scmi_board.specs.LineError.{Gives};
ghost use Rattle.scmi_text.specs.StepHead.{step_with};
ghost use Rattle.scmi_text.specs.Step.{Allows, step_agent};
ghost use Rattle.scmi_text.specs.StepText.{first_report, report_head, report_left, report_of};

use crate::fields::{read_clock_rate, read_flag};
use crate::step_form::{REPORT_FORMS, ReportForm};
use crate::step_head::Head;
use crate::step_kinds::StepKinds;
use crate::word_row::form_in;
use scmi_board::{Items, LineError};
use scmi_plan::{Effect, Report};

/// What the hardware reports: all that follows the word `report` in the line of a script (own).
/// `Form`, the only error, if it is no report, or if more follows it.
#[tactic(auto, unfolding(crate::specs::StepText::report_left))]
pub fn read_report(items: &mut Items<'_>) -> Result<Report, LineError>
    ensures { Gives (λ report. report) result (report_left (items_left items.old)) }
{
    let report = read_first_report(items)?;
    items.finish()?;
    Ok(report)
}

/// What follows `report`, of a step of these kinds.
#[tactic(auto, unfolding(crate::specs::StepText::report_head))]
pub(crate) fn read_report_head(items: &mut Items<'_>, kinds: StepKinds) -> Result<Head, LineError>
    ensures agent { IfOk result (λ head.
        (words : List ℕ) → step_agent (step_with head words) ≡ None) }
    ensures kinds { IfOk result (λ head.
        (words : List ℕ) → Allows kinds (step_with head words)) }
    ensures head { Gives (λ head. (head, items_left items.new)) result
        (report_head kinds (items_left items.old)) }
{
    kinds.need_hardware()?;
    let report = read_first_report(items)?;
    Ok(Head::Report { report })
}

/// The next items as what the hardware reports.
#[tactic(auto, unfolding(crate::specs::StepText::first_report))]
fn read_first_report(items: &mut Items<'_>) -> Result<Report, LineError>
    ensures { Gives (λ report. (report, items_left items.new)) result
        (first_report (items_left items.old)) }
{
    let form = form_in(&REPORT_FORMS, items.next_item()?)?;
    read_report_of(form, items)
}

/// What follows the word of what is reported.
#[tactic(auto, unfolding(crate::specs::StepText::report_of))]
fn read_report_of(form: ReportForm, items: &mut Items<'_>) -> Result<Report, LineError>
    ensures { Gives (λ report. (report, items_left items.new)) result
        (report_of form (items_left items.old)) }
{
    match form {
        ReportForm::State => {
            let domain = items.next_word()?;
            let state = items.next_word()?;
            Ok(Report::Changed(Effect::State { domain, state }))
        }
        ReportForm::Rate => {
            let (clock, rate) = read_clock_rate(items)?;
            Ok(Report::Changed(Effect::Rate { clock, rate }))
        }
        ReportForm::Enabled => {
            let clock = items.next_word()?;
            let enabled = read_flag(items)?;
            Ok(Report::Changed(Effect::Enabled { clock, enabled }))
        }
        ReportForm::First => {
            let place = items.next_word()?;
            Ok(Report::First(place))
        }
        ReportForm::Settled => {
            let (clock, rate) = read_clock_rate(items)?;
            Ok(Report::Settled { clock, rate })
        }
    }
}
