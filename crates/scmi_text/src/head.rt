//! The line of a step but for its payload words, as it is read.
ghost use Rattle.std.specs.Prelude.{◌≡◌, List, ℕ, None, Some, IfOk};
ghost use Rattle.scmi_board.specs.Items.{items_left};
ghost use Rattle.scmi_board.specs.LineError.{Gives};
ghost use Rattle.scmi_text.specs.StepHead.{step_with};
ghost use Rattle.scmi_text.specs.Step.{Allows, IsStepOf, step_agent};
ghost use Rattle.scmi_text.specs.StepText.{advance_head, agent_head, command_head, failing_head, first_head, first_refusal, head_of};

use crate::fields::{read_agent, read_message, read_named_fault};
use crate::report::read_report_head;
use crate::step_form::{AgentForm, CommandForm, FAILED, REFUSED, STEP_FORMS, StepForm};
use crate::step_head::Head;
use crate::step_kinds::StepKinds;
use crate::word_row::form_in;
use scmi_board::{Items, LineError};
use scmi_codec::Fault;

/// What comes first in the line of a step of these kinds: all but its payload words.
#[tactic(auto, unfolding(crate::specs::StepText::first_head))]
pub(crate) fn read_head(
    items: &mut Items<'_>,
    agents: u32,
    kinds: StepKinds,
) -> Result<Head, LineError>
    ensures agent { IfOk result (λ head.
        (words : List ℕ) → IsStepOf agents (step_with head words)) }
    ensures kinds { IfOk result (λ head.
        (words : List ℕ) → Allows kinds (step_with head words)) }
    ensures head { Gives (λ head. (head, items_left items.new)) result
        (first_head kinds agents (items_left items.old)) }
{
    let form = form_in(&STEP_FORMS, items.next_item()?)?;
    read_head_of(form, items, agents, kinds)
}

/// What follows the first word.
#[tactic(auto, unfolding(crate::specs::StepText::head_of))]
fn read_head_of(
    form: StepForm,
    items: &mut Items<'_>,
    agents: u32,
    kinds: StepKinds,
) -> Result<Head, LineError>
    ensures agent { IfOk result (λ head.
        (words : List ℕ) → IsStepOf agents (step_with head words)) }
    ensures kinds { IfOk result (λ head.
        (words : List ℕ) → Allows kinds (step_with head words)) }
    ensures head { Gives (λ head. (head, items_left items.new)) result
        (head_of kinds agents form (items_left items.old)) }
{
    match form {
        StepForm::Advance => read_advance(items, kinds),
        StepForm::Report => read_report_head(items, kinds),
        StepForm::Of(form) => {
            let agent = read_agent(items, agents)?;
            read_agent_head(form, agent, items, kinds)
        }
    }
}

/// What follows `advance`.
#[tactic(auto, unfolding(crate::specs::StepText::advance_head))]
fn read_advance(items: &mut Items<'_>, kinds: StepKinds) -> Result<Head, LineError>
    ensures agent { IfOk result (λ head.
        (words : List ℕ) → step_agent (step_with head words) ≡ None) }
    ensures kinds { IfOk result (λ head.
        (words : List ℕ) → Allows kinds (step_with head words)) }
    ensures head { Gives (λ head. (head, items_left items.new)) result
        (advance_head kinds (items_left items.old)) }
{
    if items.finish().is_ok() {
        return Ok(Head::Advance);
    }
    kinds.need_hardware()?;
    let fault = read_refusal(items)?;
    Ok(Head::AdvanceFailed { fault })
}

/// `failed`, or `refused` and a status.
#[tactic(auto, unfolding(crate::specs::StepText::first_refusal))]
fn read_refusal(items: &mut Items<'_>) -> Result<Fault, LineError>
    ensures { Gives (λ fault. (fault, items_left items.new)) result
        (first_refusal (items_left items.old)) }
{
    let word = items.next_item()?;
    if word == FAILED {
        return Ok(Fault::HardwareError);
    }
    if word != REFUSED {
        return Err(LineError::Form);
    }
    read_named_fault(items)
}

/// What follows the agent.
#[tactic(auto, unfolding(crate::specs::StepText::agent_head))]
fn read_agent_head(
    form: AgentForm,
    agent: u32,
    items: &mut Items<'_>,
    kinds: StepKinds,
) -> Result<Head, LineError>
    ensures agent { IfOk result (λ head.
        (words : List ℕ) → step_agent (step_with head words) ≡ Some agent) }
    ensures kinds { IfOk result (λ head.
        (words : List ℕ) → Allows kinds (step_with head words)) }
    ensures head { Gives (λ head. (head, items_left items.new)) result
        (agent_head kinds form agent (items_left items.old)) }
{
    match form {
        AgentForm::Command(form) => read_command(form, agent, items, kinds),
        AgentForm::Raw => {
            let header = items.next_word()?;
            Ok(Head::Raw { agent, header })
        }
        AgentForm::Malformed => {
            let length = items.next_word()?;
            let header = items.next_word()?;
            Ok(Head::Malformed {
                agent,
                length,
                header,
            })
        }
        AgentForm::Collect => Ok(Head::Collect { agent }),
        AgentForm::P2a => Ok(Head::P2a { agent }),
        AgentForm::Close => Ok(Head::Close { agent }),
        AgentForm::Platform(step) => Ok(Head::Platform { agent, step }),
        AgentForm::Restart => {
            kinds.need_hardware()?;
            Ok(Head::Restart { agent })
        }
    }
}

/// The protocol and the message id of a command, after a status if the form has one.
#[tactic(auto, unfolding(crate::specs::StepText::command_head))]
fn read_command(
    form: CommandForm,
    agent: u32,
    items: &mut Items<'_>,
    kinds: StepKinds,
) -> Result<Head, LineError>
    ensures agent { IfOk result (λ head.
        (words : List ℕ) → step_agent (step_with head words) ≡ Some agent) }
    ensures kinds { IfOk result (λ head.
        (words : List ℕ) → Allows kinds (step_with head words)) }
    ensures head { Gives (λ head. (head, items_left items.new)) result
        (command_head kinds form agent (items_left items.old)) }
{
    match form {
        CommandForm::Do => {
            let (protocol, message) = read_message(items)?;
            Ok(Head::Do {
                agent,
                protocol,
                message,
            })
        }
        CommandForm::Call => {
            let (protocol, message) = read_message(items)?;
            Ok(Head::Call {
                agent,
                protocol,
                message,
            })
        }
        CommandForm::Fail => {
            kinds.need_hardware()?;
            read_failing(Fault::HardwareError, agent, items)
        }
        CommandForm::Refuse => {
            kinds.need_hardware()?;
            let fault = read_named_fault(items)?;
            read_failing(fault, agent, items)
        }
    }
}

/// The protocol and the message id of a command whose changes the hardware refuses.
fn read_failing(fault: Fault, agent: u32, items: &mut Items<'_>) -> Result<Head, LineError>
    ensures agent { IfOk result (λ head.
        (words : List ℕ) → step_agent (step_with head words) ≡ Some agent) }
    ensures head { Gives (λ head. (head, items_left items.new)) result
        (failing_head fault agent (items_left items.old)) }
{
    let (protocol, message) = read_message(items)?;
    Ok(Head::Fail {
        agent,
        fault,
        protocol,
        message,
    })
}
