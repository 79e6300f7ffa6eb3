//! The steps that lines with names encode.
ghost use Rattle.std.specs.Prelude.{◌≡◌, map, IfSome, List, ℕ, None, Some};
ghost use Rattle.std.specs.Option.{option_map};
ghost use Rattle.scmi_plan.specs.Agent.{IsAgent};
ghost use Rattle.scmi_plan.specs.RawPlan.{asked_board};
ghost use Rattle.scmi_text.specs.Step.{IsStepOf, step_agent};
ghost use Rattle.scmi_text.specs.StepText.{step_forms};
ghost use Rattle.scmi_text.specs.WordRow.{form_in};
ghost use Rattle.scmi_live.specs.NamedStep.{agent_of, alone, command_behind, malformed_of, named_step, raw_of, refused_of, step_behind, step_of_agent, step_of_form};

use crate::named::number_from;
use crate::named_call::call_of;
use crate::payload::numbers;
use crate::reports::report_meant;
use scmi_board::word;
use scmi_codec::{Fault, Header, Message};
use scmi_plan::RawPlan;
use scmi_text::{AgentForm, AgentStep, CommandForm, STEP_FORMS, Step, StepForm, form_in};

/// The step of items, on a board with this number of agents; `None` if they encode no step. The first
/// is the word of a form. They are a report of the hardware, or else the second is the agent.
pub(crate) fn named_step(board: &RawPlan, agents: u32, items: &[&[u8]]) -> Option<Step>
    ensures agent { IfSome result (IsStepOf agents) }
    ensures step { result ≡ named_step (asked_board board.now) agents
        (map (λ item. item.now) items.now) }
{
    match items {
        [word, rest @ ..] => step_of_form(board, agents, step_form(*word)?, rest),
        [] => None,
    }
}

/// The form of a line that begins with this word.
pub(crate) fn step_form(word: &[u8]) -> Option<StepForm>
    ensures { result ≡ form_in word.now step_forms }
{
    form_in(&STEP_FORMS, word).ok()
}

/// The step of a form, and of the items after its word.
fn step_of_form(board: &RawPlan, agents: u32, form: StepForm, items: &[&[u8]]) -> Option<Step>
    ensures agent { IfSome result (IsStepOf agents) }
    ensures step { result ≡ step_of_form (asked_board board.now) agents form
        (map (λ item. item.now) items.now) }
{
    match form {
        // It has no name in it.
        StepForm::Advance => None,
        StepForm::Report => {
            let report = report_meant(board, items)?;
            Some(Step::Report { report })
        }
        StepForm::Of(form) => step_of_agent(board, agents, form, items),
    }
}

/// The step of a form, an agent, and the items after it.
fn step_of_agent(board: &RawPlan, agents: u32, form: AgentForm, items: &[&[u8]]) -> Option<Step>
    ensures agent { IfSome result (IsStepOf agents) }
    ensures step { result ≡ step_of_agent (asked_board board.now) agents form
        (map (λ item. item.now) items.now) }
{
    match items {
        [who, rest @ ..] => step_behind(board, form, agent_of(board, agents, *who)?, rest),
        [] => None,
    }
}

/// The agent that an item encodes, on a board with this number of agents.
pub(crate) fn agent_of(board: &RawPlan, agents: u32, item: &[u8]) -> Option<u32>
    ensures within { IfSome result (IsAgent agents) }
    ensures agent { result ≡ agent_of (asked_board board.now) agents item.now }
{
    let number = match word(item) {
        Some(number) => number,
        None => number_from(1, &board.agents, item)?,
    };
    if number >= 1 && number <= agents {
        Some(number)
    } else {
        None
    }
}

/// What an agent does, by its form and the items after the agent.
fn step_behind(board: &RawPlan, form: AgentForm, agent: u32, items: &[&[u8]]) -> Option<Step>
    ensures agent { IfSome result (λ step. step_agent step ≡ Some agent) }
    ensures step { result ≡ step_behind (asked_board board.now) form agent
        (map (λ item. item.now) items.now) }
{
    match form {
        AgentForm::Command(form) => command_behind(board, form, agent, items),
        AgentForm::Raw => Some(of_agent(agent, raw_of(items)?)),
        AgentForm::Malformed => Some(of_agent(agent, malformed_of(items)?)),
        AgentForm::Collect => alone(of_agent(agent, AgentStep::Collect), items),
        AgentForm::P2a => alone(of_agent(agent, AgentStep::P2a), items),
        AgentForm::Close => alone(of_agent(agent, AgentStep::Close), items),
        AgentForm::Platform(step) => alone(Step::Platform { agent, step }, items),
        AgentForm::Restart => alone(Step::Restart { agent }, items),
    }
}

/// What an agent does with a command.
fn command_behind(board: &RawPlan, form: CommandForm, agent: u32, items: &[&[u8]]) -> Option<Step>
    ensures agent { IfSome result (λ step. step_agent step ≡ Some agent) }
    ensures step { result ≡ command_behind (asked_board board.now) form agent
        (map (λ item. item.now) items.now) }
{
    match form {
        CommandForm::Do => {
            let call = call_of(board, items)?;
            Some(Step::Do { agent, call })
        }
        CommandForm::Call => {
            let call = call_of(board, items)?;
            Some(of_agent(agent, AgentStep::Call(call)))
        }
        CommandForm::Fail => {
            let call = call_of(board, items)?;
            let fault = Fault::HardwareError;
            Some(Step::Fail { agent, fault, call })
        }
        CommandForm::Refuse => refused_of(board, agent, items),
    }
}

/// A status, and a command beside hardware that refuses each change with it.
fn refused_of(board: &RawPlan, agent: u32, items: &[&[u8]]) -> Option<Step>
    ensures agent { IfSome result (λ step. step_agent step ≡ Some agent) }
    ensures step { result ≡ refused_of (asked_board board.now) agent
        (map (λ item. item.now) items.now) }
{
    match items {
        [status, rest @ ..] => {
            let fault = Fault::of_name(status)?;
            let call = call_of(board, rest)?;
            Some(Step::Fail { agent, fault, call })
        }
        [] => None,
    }
}

fn of_agent(agent: u32, step: AgentStep) -> Step
    ensures { result ≡ Step.Agent agent step }
{
    Step::Agent { agent, step }
}

/// A step that nothing follows.
fn alone(step: Step, items: &[&[u8]]) -> Option<Step>
    ensures { result ≡ alone step (map (λ item. item.now) items.now) }
{
    if items.is_empty() { Some(step) } else { None }
}

/// A header word and a payload.
fn raw_of(items: &[&[u8]]) -> Option<AgentStep>
    ensures { result ≡ raw_of (map (λ item. item.now) items.now) }
{
    match items {
        [header, words @ ..] => {
            let header = Header::unpack(word(*header)?);
            let payload = numbers(words)?;
            Some(AgentStep::Raw(Message { header, payload }))
        }
        [] => None,
    }
}

/// A length and a header word.
fn malformed_of(items: &[&[u8]]) -> Option<AgentStep>
    ensures { result ≡ malformed_of (map (λ item. item.now) items.now) }
{
    match items {
        [length, header] => {
            let length = word(*length)?;
            let header = word(*header)?;
            Some(AgentStep::Malformed { length, header })
        }
        _ => None,
    }
}
