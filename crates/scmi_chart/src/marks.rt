//! The marks of a chart so far.
ghost use Rattle.std.specs.Prelude.{◌≡◌, [], ◌∷◌, ◌++◌, true, OnOk, Some, map};
ghost use Rattle.scmi_chart.specs.Signs.{detail_of, sign_of, sent};
ghost use Rattle.scmi_chart.specs.Service.{executed_by};

use crate::mark::{Mark, Message};
use std::alloc::{AllocError, Global};
use std::marker::Model;
use std::mem;

/// The marks of a chart so far. A contract sees what each of them shows of the run.
#[derive(Drop)]
pub(crate) struct Marks {
    marks: Vec<Mark>,
}

impl Model for Marks {
    ghost use Rattle.std.specs.Prelude.{List, map};
    ghost use Rattle.scmi_chart.specs.Signs.{Sign, sign_of};

    ghost Value = { List Sign };

    ghost view = { λ m. map sign_of m.marks.items };
}

impl Marks {
    pub fn new(alloc: Global) -> Marks
        ensures { result ≡ [] }
    {
        Marks {
            marks: Vec::new(alloc),
        }
    }

    pub fn add(&mut self, mark: Mark) -> Result<(), AllocError>
        ensures { OnOk result (self.new ≡ self.old ++ sign_of mark ∷ []) }
    {
        self.marks.push(mark)?;
        Ok(())
    }

    /// The platform took the command of an agent in this slot.
    pub fn serve(&mut self, agent: u8, slot: u16)
        ensures { self.new ≡ map (executed_by (Some agent)) self.old }
    {
        execute_all(&mut self.marks, agent, slot);
    }

    /// All marks, in order.
    pub fn into_vec(self) -> Vec<Mark>
        ensures { map sign_of result.items ≡ self }
    {
        self.marks
    }
}

/// Makes the commands of an agent that were not taken yet ones that were taken in this slot.
fn execute_all(marks: &mut [Mark], agent: u8, slot: u16)
    ensures { map sign_of marks.new ≡ map (executed_by (Some agent)) (map sign_of marks.old) }
{
    'marks: for i in 0..marks.len() {
        execute(&mut marks[i], agent, slot);
    }
}

/// Makes a command of an agent that was not taken yet one that was taken in this slot.
fn execute(mark: &mut Mark, agent: u8, slot: u16)
    ensures { sign_of mark.new ≡ executed_by (Some agent) (sign_of mark.old) }
{
    *mark = match mem::replace(mark, Mark::Posted { slot }) {
        Mark::Withdrawn { message, token } => {
            if message.agent == agent {
                executed_command(message, token, slot)
            } else {
                Mark::Withdrawn { message, token }
            }
        }
        other => other,
    };
}

/// A command that was taken in this slot.
fn executed_command(message: Message, token: Option<u16>, slot: u16) -> Mark
    ensures { sign_of result ≡ sent true message.agent token (detail_of message) }
{
    let mut message = message;
    message.taken = slot;
    Mark::Command { message, token }
}
