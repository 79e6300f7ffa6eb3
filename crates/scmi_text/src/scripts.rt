//! Scripts of agents that run in threads, as they are read.
ghost use Rattle.std.specs.Prelude.{◌≡◌, IfOk, IfErr};
ghost use Rattle.std.specs.List.{All};
ghost use Rattle.scmi_board.specs.Items.{items_left};
ghost use Rattle.scmi_board.specs.LineError.{Gives, GivesUnless};
ghost use Rattle.scmi_board.specs.TextError.{IsOfScript};
ghost use Rattle.scmi_plan.specs.Agent.{IsAgent};
ghost use Rattle.scmi_text.specs.ScriptText.{agent_at, order_at, scripts_left, scripts_of, with_form, with_line};
ghost use Rattle.scmi_text.specs.Scripts.{agents_of, AreOfDistinctAgents};
ghost use Rattle.scmi_text.specs.TextLines.{GivesScript};

use crate::fields::{read_agent, read_message, read_payload};
use crate::order_form::{OrderForm, SCRIPT_FORMS, ScriptForm};
use crate::script_list::ScriptList;
use crate::word_row::form_in;
use scmi_board::{Items, LineError, Lines, TextError};
use scmi_link::{Order, Script};
use std::alloc::Global;

/// The scripts that all remaining lines encode, in the order of their first lines (own). Each is of
/// an agent of the board, which has this many, numbered from 1, and no two are of one agent.
///
/// `Script` gives the number of the first line of another form, of an order before the first
/// `script`, with more payload words than `PAYLOAD_WORDS`, or of a script of an agent that the
/// board lacks or that has one already. `Memory` if memory is refused.
pub fn read_scripts(
    alloc: Global,
    lines: &mut Lines<'_>,
    agents: u32,
) -> Result<Vec<Script>, TextError>
    ensures agents { IfOk result (λ scripts. All (IsAgent agents) (agents_of scripts.items)) }
    ensures distinct { IfOk result (λ scripts. AreOfDistinctAgents scripts.items) }
    ensures errors { IfErr result IsOfScript }
    ensures scripts { GivesScript (λ scripts. scripts_of scripts.items) result
        (scripts_left agents lines.old) }
{
    let mut list = ScriptList::new(alloc, agents);
    while let Some(line) = lines.next_line() {
        if let Err(error) = read_script_line(alloc, &mut list, line.text) {
            return Err(error.in_script(line.number));
        }
    }
    Ok(list.into_scripts())
}

/// One line more of the scripts.
#[tactic(auto, unfolding(crate::specs::ScriptText::with_line))]
fn read_script_line(alloc: Global, list: &mut ScriptList, text: &[u8]) -> Result<(), LineError>
    ensures agents { list.new.agents ≡ list.old.agents }
    ensures line { GivesUnless (λ _. scripts_of list.new.scripts.items) result
        (with_line list.old.agents (scripts_of list.old.scripts.items) text.now) }
{
    let mut items = Items::new(text);
    let form = form_in(&SCRIPT_FORMS, items.next_item()?)?;
    add_line(alloc, list, form, &mut items)
}

/// A line of this form.
#[tactic(auto, unfolding(crate::specs::ScriptText::with_form))]
fn add_line(
    alloc: Global,
    list: &mut ScriptList,
    form: ScriptForm,
    items: &mut Items<'_>,
) -> Result<(), LineError>
    ensures agents { list.new.agents ≡ list.old.agents }
    ensures line { GivesUnless (λ _. scripts_of list.new.scripts.items) result
        (with_form list.old.agents (scripts_of list.old.scripts.items) form
        (items_left items.old)) }
{
    match form {
        ScriptForm::Script => {
            let agent = read_script_agent(items, list.agents())?;
            list.begin(alloc, agent)
        }
        ScriptForm::Order(form) => {
            let order = read_order(form, items)?;
            list.add(order)
        }
    }
}

/// What follows `script`: an agent of the board.
#[tactic(auto, unfolding(crate::specs::ScriptText::agent_at))]
fn read_script_agent(items: &mut Items<'_>, agents: u32) -> Result<u32, LineError>
    ensures within { IfOk result (IsAgent agents) }
    ensures agent { Gives (λ agent. agent) result (agent_at agents (items_left items.old)) }
{
    let agent = read_agent(items, agents)?;
    items.finish()?;
    Ok(agent)
}

/// An order of this form, and nothing after it.
#[tactic(auto, unfolding(crate::specs::ScriptText::order_at))]
fn read_order(form: OrderForm, items: &mut Items<'_>) -> Result<Order, LineError>
    ensures { Gives (λ order. order) result (order_at form (items_left items.old)) }
{
    match form {
        OrderForm::Call => {
            let (protocol, message) = read_message(items)?;
            let payload = read_payload(items)?;
            Ok(Order::Call(protocol, message, payload))
        }
        OrderForm::Until => {
            let domain = items.next_word()?;
            let state = items.next_word()?;
            items.finish()?;
            Ok(Order::Until(domain, state))
        }
        OrderForm::P2a => {
            let count = items.next_word()?;
            items.finish()?;
            Ok(Order::P2a(count))
        }
        OrderForm::Close => {
            items.finish()?;
            Ok(Order::Close)
        }
    }
}
