//! Scripts that run on one thread, as they are read.
ghost use Rattle.std.specs.Prelude.{◌≡◌, IfOk, IfErr};
ghost use Rattle.std.specs.List.{All};
ghost use Rattle.scmi_board.specs.Items.{items_left};
ghost use Rattle.scmi_board.specs.LineError.{Gives};
ghost use Rattle.scmi_board.specs.TextError.{IsOfScript};
ghost use Rattle.scmi_text.specs.Step.{Allows, IsStepOf, IsWithoutHardware};
ghost use Rattle.scmi_text.specs.StepText.{hardware_step_of_line, payload_of, plain_step_of_line, step_of_line, steps_left};
ghost use Rattle.scmi_text.specs.TextLines.{GivesScript};

use crate::fields::read_payload;
use crate::head::read_head;
use crate::step::Step;
use crate::step_head::{Head, has_payload, step_with};
use crate::step_kinds::StepKinds;
use crate::step_list::StepList;
use arrayvec::ArrayVec;
use scmi_board::{Items, LineError, Lines, TextError};
use scmi_codec::Payload;
use std::alloc::Global;

/// The steps that all remaining lines encode (own). Each names an agent of the board, which has
/// this many, numbered from 1, and no step is one beside hardware or a restart.
///
/// `Script` gives the number of the first line of another form, with more payload words than
/// `PAYLOAD_WORDS`, or of an agent that the board lacks. `Memory` if memory is refused.
pub fn read_steps<'a>(
    alloc: Global,
    lines: &mut Lines<'a>,
    agents: u32,
) -> Result<StepList<'a>, TextError>
    ensures agents { IfOk result (λ steps. All (IsStepOf agents) steps) }
    ensures kinds { IfOk result (λ steps. All IsWithoutHardware steps) }
    ensures errors { IfErr result IsOfScript }
    ensures steps { GivesScript (λ steps. steps) result
        (steps_left StepKinds.WithoutHardware agents lines.old) }
{
    read_steps_of(alloc, lines, agents, StepKinds::WithoutHardware)
}

/// The steps of all lines that are left, as `read_steps` gives them, and those beside hardware,
/// which refuses or reports, and restarts too (own).
pub fn read_hardware_steps<'a>(
    alloc: Global,
    lines: &mut Lines<'a>,
    agents: u32,
) -> Result<StepList<'a>, TextError>
    ensures agents { IfOk result (λ steps. All (IsStepOf agents) steps) }
    ensures errors { IfErr result IsOfScript }
    ensures steps { GivesScript (λ steps. steps) result
        (steps_left StepKinds.All agents lines.old) }
{
    read_steps_of(alloc, lines, agents, StepKinds::All)
}

/// The step of one line, of a board that has this many agents (own). `Form`, the only error, if the
/// line is not a step, has more payload words than `PAYLOAD_WORDS`, or is one beside hardware or a
/// restart.
pub fn read_one_step(text: &[u8], agents: u32) -> Result<Step, LineError>
    ensures agent { IfOk result (IsStepOf agents) }
    ensures step { Gives (λ step. step) result (plain_step_of_line agents text.now) }
{
    read_step(text, agents, StepKinds::WithoutHardware)
}

/// The step of one line, as `read_one_step` gives it, or one beside hardware or a restart (own).
pub fn read_one_hardware_step(text: &[u8], agents: u32) -> Result<Step, LineError>
    ensures agent { IfOk result (IsStepOf agents) }
    ensures step { Gives (λ step. step) result (hardware_step_of_line agents text.now) }
{
    read_step(text, agents, StepKinds::All)
}

/// The steps of all lines that are left, of these kinds.
fn read_steps_of<'a>(
    alloc: Global,
    lines: &mut Lines<'a>,
    agents: u32,
    kinds: StepKinds,
) -> Result<StepList<'a>, TextError>
    ensures agents { IfOk result (λ steps. All (IsStepOf agents) steps) }
    ensures kinds { IfOk result (λ steps. All (Allows kinds) steps) }
    ensures errors { IfErr result IsOfScript }
    ensures steps { GivesScript (λ steps. steps) result (steps_left kinds agents lines.old) }
{
    let mut read = Vec::new(alloc);
    while let Some(line) = lines.next_line() {
        if let Err(error) = read_step(line.text, agents, kinds) {
            return Err(error.in_script(line.number));
        }
        let Ok(()) = read.push(line.text) else {
            return Err(TextError::Memory);
        };
    }
    Ok(StepList::of(read, agents, kinds))
}

/// The step of a line, of a script of these kinds. `Form` is the only error.
pub(crate) fn read_step(text: &[u8], agents: u32, kinds: StepKinds) -> Result<Step, LineError>
    ensures agent { IfOk result (IsStepOf agents) }
    ensures kinds { IfOk result (Allows kinds) }
    ensures step { Gives (λ step. step) result (step_of_line kinds agents text.now) }
{
    let mut items = Items::new(text);
    let head = read_head(&mut items, agents, kinds)?;
    let payload = read_payload_of(head, &mut items)?;
    Ok(step_with(head, payload))
}

/// The payload words of a step with this head, if it has some.
#[tactic(auto, unfolding(crate::specs::StepText::payload_of))]
fn read_payload_of(head: Head, items: &mut Items<'_>) -> Result<Payload, LineError>
    ensures { Gives (λ payload. payload.items) result
        (payload_of head (items_left items.old)) }
{
    if has_payload(head) {
        return read_payload(items);
    }
    items.finish()?;
    Ok(ArrayVec::new())
}
