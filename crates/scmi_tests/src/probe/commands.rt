//! One command of a platform again and again, for `tools/bench` to count what it takes.

use crate::probe::board::new_plan;
use crate::probe::lines::Lines;
use crate::probe::registers::Registers;
use scmi_codec::{Frame, Header, Message, Payload};
use scmi_core::{Core, Hardware, NoHardware, Platform};
use scmi_plan::Plan;
use std::alloc::Global;
use std::io::Write;

/// What a command is executed beside.
#[derive(Clone, Copy)]
enum Beside {
    Nothing,
    NoHardware,
    Registers,
}

/// What the arguments `command platform COUNT PROTOCOL MESSAGE WORD ..` ask for; with `core` the
/// platform keeps its history, and with `+none` or `+driver` after that word the commands are
/// executed beside hardware that does nothing, or that writes a register for each change.
#[derive(Drop)]
pub struct Commands {
    keeps_history: bool,
    beside: Beside,
    count: u32,
    frame: Frame,
}

impl Commands {
    /// What is asked for by the words of the command line. `None` for others.
    pub fn asked_for(words: &[String]) -> Option<Commands> {
        let [_program, task, keeper, count, protocol, id, payload @ ..] = words else {
            return None;
        };
        if task.as_str() != "command" {
            return None;
        }
        let (keeps_history, beside) = executed_by(keeper.as_str())?;
        Some(Commands {
            keeps_history,
            beside,
            count: count.parse().ok()?,
            frame: Frame::Good(message_of(protocol, id, payload)?),
        })
    }

    /// Has them executed. The lines are of the board, the last reply, and the length of the
    /// history, if it is kept.
    pub fn make<W: Write>(&self, alloc: Global, lines: &mut Lines<'_, W>) {
        let Some(plan) = new_plan(alloc, lines) else {
            return;
        };
        if self.keeps_history {
            self.execute_on_core(lines, Core::new(alloc, plan));
        } else {
            self.execute_on_platform(lines, Platform::new(plan));
        }
    }

    fn execute_on_platform<W: Write>(&self, lines: &mut Lines<'_, W>, platform: Platform) {
        let mut platform = platform;
        let mut reply = Message::default();
        match self.beside {
            Beside::Nothing => {
                'commands: for _ in 0..self.count {
                    let _ = platform.command(1, &self.frame, &mut reply);
                }
            }
            Beside::NoHardware => self.platform_beside(&mut platform, &mut reply, NoHardware),
            Beside::Registers => self.platform_beside(&mut platform, &mut reply, Registers::new()),
        }
        lines.message("reply", &reply);
    }

    fn platform_beside<H: Hardware + Drop>(
        &self,
        platform: &mut Platform,
        reply: &mut Message,
        mut hardware: H,
    ) {
        'commands: for _ in 0..self.count {
            let _ = platform.command_on(&mut hardware, 1, &self.frame, reply);
        }
    }

    fn execute_on_core<W: Write>(&self, lines: &mut Lines<'_, W>, core: Core) {
        let mut core = core;
        let mut reply = Message::default();
        match self.beside {
            Beside::Nothing => {
                'commands: for _ in 0..self.count {
                    let _ = core.command_into(1, &self.frame, &mut reply);
                }
            }
            Beside::NoHardware => self.core_beside(&mut core, &mut reply, NoHardware),
            Beside::Registers => self.core_beside(&mut core, &mut reply, Registers::new()),
        }
        lines.message("reply", &reply);
        lines.number("trace", core.trace().len());
    }

    fn core_beside<H: Hardware + Drop>(
        &self,
        core: &mut Core,
        reply: &mut Message,
        mut hardware: H,
    ) {
        'commands: for _ in 0..self.count {
            let _ = core.command_on(&mut hardware, 1, &self.frame, reply);
        }
    }
}

/// Whether the platform keeps its history, and what it executes commands beside.
fn executed_by(word: &str) -> Option<(bool, Beside)> {
    Some(match word {
        "platform" => (false, Beside::Nothing),
        "platform+none" => (false, Beside::NoHardware),
        "platform+driver" => (false, Beside::Registers),
        "core" => (true, Beside::Nothing),
        "core+none" => (true, Beside::NoHardware),
        "core+driver" => (true, Beside::Registers),
        _ => return None,
    })
}

/// The message of a protocol, a message id and payload words.
fn message_of(protocol: &String, id: &String, words: &[String]) -> Option<Message> {
    let header = Header::command(protocol.parse().ok()?, 0, id.parse().ok()?);
    let mut payload = Payload::new();
    'words: for word in words {
        payload.try_push(word.parse().ok()?).ok()?;
    }
    Some(Message { header, payload })
}
