//! What hardware reports, by names.
ghost use Rattle.std.specs.Prelude.{◌≡◌, map};
ghost use Rattle.scmi_plan.specs.RawPlan.{asked_board};
ghost use Rattle.scmi_text.specs.StepText.{report_forms};
ghost use Rattle.scmi_text.specs.WordRow.{form_in};
ghost use Rattle.scmi_live.specs.Reports.{clock_rate_of, enabled_of, flag_of, place_of, report_by, report_meant, state_of};

use crate::rate::rate_meant;
use crate::word::word_meant;
use scmi_board::word;
use scmi_codec::{CLOCK_PROTOCOL, POWER_PROTOCOL, Part};
use scmi_plan::{Effect, RawPlan, Report};
use scmi_text::{REPORT_FORMS, ReportForm, form_in};

/// What the items after the word `report` encode; `None` if they encode nothing. The first is the word
/// of a form.
pub(crate) fn report_meant(board: &RawPlan, items: &[&[u8]]) -> Option<Report>
    ensures { result ≡ report_meant (asked_board board.now) (map (λ item. item.now) items.now) }
{
    match items {
        [word, rest @ ..] => report_by(board, report_form(*word)?, rest),
        [] => None,
    }
}

/// The form of a report that begins with this word.
pub(crate) fn report_form(word: &[u8]) -> Option<ReportForm>
    ensures { result ≡ form_in word.now report_forms }
{
    form_in(&REPORT_FORMS, word).ok()
}

/// The report of a form, and of the items after its word.
fn report_by(board: &RawPlan, form: ReportForm, items: &[&[u8]]) -> Option<Report>
    ensures { result ≡ report_by (asked_board board.now) form (map (λ item. item.now) items.now) }
{
    match form {
        ReportForm::State => Some(Report::Changed(state_of(board, items)?)),
        ReportForm::Rate => {
            let (clock, rate) = clock_rate_of(board, items)?;
            Some(Report::Changed(Effect::Rate { clock, rate }))
        }
        ReportForm::Enabled => Some(Report::Changed(enabled_of(board, items)?)),
        ReportForm::First => Some(Report::First(place_of(items)?)),
        ReportForm::Settled => {
            let (clock, rate) = clock_rate_of(board, items)?;
            Some(Report::Settled { clock, rate })
        }
    }
}

/// A power domain, and its state.
fn state_of(board: &RawPlan, items: &[&[u8]]) -> Option<Effect>
    ensures { result ≡ state_of (asked_board board.now) (map (λ item. item.now) items.now) }
{
    match items {
        [domain, state] => {
            let domain = word_meant(board, POWER_PROTOCOL, Part::Domain, *domain)?;
            let state = word_meant(board, POWER_PROTOCOL, Part::State, *state)?;
            Some(Effect::State { domain, state })
        }
        _ => None,
    }
}

/// A clock, and its rate in Hz.
fn clock_rate_of(board: &RawPlan, items: &[&[u8]]) -> Option<(u32, u64)>
    ensures { result ≡ clock_rate_of (asked_board board.now) (map (λ item. item.now) items.now) }
{
    match items {
        [clock, rate] => {
            let clock = word_meant(board, CLOCK_PROTOCOL, Part::Clock, *clock)?;
            let rate = rate_meant(*rate)?;
            Some((clock, rate))
        }
        _ => None,
    }
}

/// A clock, and whether it is on.
fn enabled_of(board: &RawPlan, items: &[&[u8]]) -> Option<Effect>
    ensures { result ≡ enabled_of (asked_board board.now) (map (λ item. item.now) items.now) }
{
    match items {
        [clock, enabled] => {
            let clock = word_meant(board, CLOCK_PROTOCOL, Part::Clock, *clock)?;
            let enabled = flag_of(word_meant(board, CLOCK_PROTOCOL, Part::Enable, *enabled)?)?;
            Some(Effect::Enabled { clock, enabled })
        }
        _ => None,
    }
}

/// The place of a pending set, as a number.
fn place_of(items: &[&[u8]]) -> Option<u32>
    ensures { result ≡ place_of (map (λ item. item.now) items.now) }
{
    match items {
        [place] => word(*place),
        _ => None,
    }
}

/// A word that is 0 or 1.
fn flag_of(word: u32) -> Option<bool>
    ensures { result ≡ flag_of word }
{
    if word > 1 {
        return None;
    }
    Some(word == 1)
}
