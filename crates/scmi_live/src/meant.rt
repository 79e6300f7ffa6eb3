//! What a line of a session means.
ghost use Rattle.std.specs.Prelude.{◌≡◌, Some, IfOk, IfSome};
ghost use Rattle.scmi_plan.specs.RawPlan.{asked_board};
ghost use Rattle.scmi_text.specs.Step.{IsStepOf};
ghost use Rattle.scmi_text.specs.StepText.{plain_step_of_line};
ghost use Rattle.scmi_text.specs.declared.step.Step.{Step as StepOf};
ghost use Rattle.scmi_live.specs.Meant.{IsMeantOf, described_by, is_help, line_meant, step_by_names, step_by_numbers, step_meant};

use crate::items::items_of;
use crate::named_step::named_step;
use scmi_board::{LineError, is_significant};
use scmi_plan::RawPlan;
use scmi_text::{Step, read_one_hardware_step, read_one_step};
use std::alloc::{AllocError, Global};

/// From here on replies are described, or are not.
pub(crate) const WORDS_ON: &[u8] = b"words on";

pub(crate) const WORDS_OFF: &[u8] = b"words off";

/// The line that asks for help; one that asks for help on something goes on with a space.
pub const HELP: &[u8] = b"help";

pub(crate) const HELP_ON: &[u8] = b"help ";

/// The line that ends the session.
pub(crate) const QUIT: &[u8] = b"quit";

/// What a line means.
#[derive(Drop)]
pub(crate) enum Meant {
    /// Nothing: it is empty or a comment.
    Nothing,
    /// From here on replies are described in words, or are not.
    Describe(bool),
    /// Help.
    Help,
    /// The end of the session.
    Quit,
    /// This step.
    Does(Step),
    /// It encodes nothing.
    Unknown,
}

/// What a line means on a board with this number of agents. The only error is out of memory.
#[tactic(auto, unfolding(crate::specs::Meant::line_meant))]
pub(crate) fn line_meant(
    alloc: Global,
    board: &RawPlan,
    agents: u32,
    text: &[u8],
) -> Result<Meant, AllocError>
    ensures agent { IfOk result (IsMeantOf agents) }
    ensures meant { IfOk result (λ meant. meant ≡
        line_meant (asked_board board.now) agents text.now) }
{
    if !is_significant(text) {
        return Ok(Meant::Nothing);
    }
    if let Some(on) = described_by(text) {
        return Ok(Meant::Describe(on));
    }
    if is_help(text) {
        return Ok(Meant::Help);
    }
    if text == QUIT {
        return Ok(Meant::Quit);
    }
    match step_meant(alloc, board, agents, text)? {
        Some(step) => Ok(Meant::Does(step)),
        None => Ok(Meant::Unknown),
    }
}

/// Whether replies are described after a line that sets this.
fn described_by(text: &[u8]) -> Option<bool>
    ensures { result ≡ described_by text.now }
{
    if text == WORDS_ON {
        return Some(true);
    }
    if text == WORDS_OFF {
        return Some(false);
    }
    None
}

/// Whether a line asks for help, or for help on something.
fn is_help(text: &[u8]) -> bool
    ensures { result ≡ is_help text.now }
{
    text == HELP || text.starts_with(HELP_ON)
}

/// The step that a line encodes: the one of its numbers, as a script has it, or else that of its
/// names. A line that is a step of the mode `steps words` is that step.
pub fn step_meant(
    alloc: Global,
    board: &RawPlan,
    agents: u32,
    text: &[u8],
) -> Result<Option<Step>, AllocError>
    ensures agent { IfOk result (λ step. IfSome step (IsStepOf agents)) }
    ensures plain { IfOk result (λ step. (plain : StepOf) →
        plain_step_of_line agents text.now ≡ Some plain → step ≡ Some plain) }
    ensures step { IfOk result (λ step. step ≡ step_meant (asked_board board.now) agents text.now) }
{
    match step_by_numbers(agents, text) {
        Some(step) => Ok(Some(step)),
        None => step_by_names(alloc, board, agents, text),
    }
}

/// The step of a line as a script has it.
fn step_by_numbers(agents: u32, text: &[u8]) -> Option<Step>
    ensures agent { IfSome result (IsStepOf agents) }
    ensures step { result ≡ step_by_numbers agents text.now }
{
    match read_one_step(text, agents) {
        Ok(step) => Some(step),
        Err(_) => read_one_hardware_step(text, agents).ok(),
    }
}

/// The step of a line whose items may be names.
pub(crate) fn step_by_names(
    alloc: Global,
    board: &RawPlan,
    agents: u32,
    text: &[u8],
) -> Result<Option<Step>, AllocError>
    ensures agent { IfOk result (λ step. IfSome step (IsStepOf agents)) }
    ensures step { IfOk result (λ step.
        step ≡ step_by_names (asked_board board.now) agents text.now) }
{
    match items_of(alloc, text) {
        Ok(items) => Ok(named_step(board, agents, items.as_slice())),
        Err(LineError::Memory) => Err(AllocError),
        Err(LineError::Form) => Ok(None),
    }
}
