//! What is written and reported while a session runs.

use crate::STANDARD_INPUT;
use crate::opened::Opened;
use crate::record_cause::feeds_in;
use crate::remark::write_remark;
use crate::report::report_output;
use crate::serve_session::AskedSession;
use crate::session_help::report_help;
use crate::unknown_text::UnknownText;
use scmi_explain::{Expected, Fault, LastLine, explain};
use scmi_io::{FAILED_OUTPUT, write_fault};
use scmi_live::{Listener, LiveError, unknown_in};
use scmi_text::{PlainStep, Step, StepLine, write_step_line};
use std::alloc::Global;
use std::io::{Eprint, Write};

/// What a person sees before each line.
const PROMPT: &str = "scmi> ";

/// Writes the lines of a session, saves its steps as a script, and reports on standard error what
/// else there is to say.
#[derive(Drop)]
pub struct Teller<'a, T: Eprint, W: Write + Drop, S: Write + Drop> {
    rt: &'a T,
    alloc: Global,
    opened: &'a Opened,
    asked: AskedSession<'a>,
    output: LastLine<W>,
    saved: Option<LastLine<S>>,
    is_described: bool,
    has_quit: bool,
    /// The line of a fault could not be written.
    is_lost: bool,
}

impl<'a, T: Eprint, W: Write + Drop, S: Write + Drop> Teller<'a, T, W, S> {
    ghost use Rattle.std.specs.Prelude.{IfErr};
    ghost use Rattle.scmi_live.specs.LiveError.{IsRefused};

    /// Writes and reports a session on this board. A script in which it is saved has the lines of
    /// the board from here on.
    pub fn new(
        rt: &'a T,
        alloc: Global,
        opened: &'a Opened,
        asked: AskedSession<'a>,
        output: W,
        saved: Option<S>,
    ) -> Teller<'a, T, W, S> {
        let saved = match saved {
            Some(file) => Some(LastLine::new(file)),
            None => None,
        };
        let mut teller = Teller {
            rt,
            alloc,
            opened,
            asked,
            output: LastLine::new(output),
            saved,
            is_described: asked.terminal.is_typed,
            has_quit: false,
            is_lost: false,
        };
        teller.save_bytes(&opened.text);
        if asked.terminal.is_typed {
            let _ = eprintln!(rt;
                "Type a step, or help. Replies are described; quit, or Ctrl-D, ends the session."
            );
        }
        teller
    }

    /// The last line of the output.
    pub fn last_line(&self) -> &[u8] {
        self.output.line()
    }

    /// Reports what of a session that ends with this status could not be written, and gives the exit
    /// status.
    pub fn report(&mut self, status: u8) -> u8 {
        if let Some(error) = self.lost() {
            let name = self.asked.save.unwrap_or("");
            let _ = eprintln!(self.rt; "scmi: {name} could not be written: {error}");
            return FAILED_OUTPUT;
        }
        let status = if self.is_lost { FAILED_OUTPUT } else { status };
        report_output(self.rt, &mut self.output, status)
    }

    /// Why the script could not be saved.
    fn lost(&self) -> Option<std::io::Error> {
        match &self.saved {
            Some(saved) => saved.error(),
            None => None,
        }
    }

    /// Writes bytes to the script, whose writer keeps the error.
    fn save_bytes(&mut self, bytes: &[u8]) {
        if let Some(saved) = &mut self.saved {
            let _ = saved.write_all(bytes);
        }
    }

    /// Writes a step to the script. `Memory` when out of memory, and `Write` if it can't be written.
    fn save_step(&mut self, step: &Step) -> Result<(), LiveError>
        ensures errors { IfErr result IsRefused }
    {
        if self.saved.is_none() {
            return Ok(());
        }
        let Ok(line) = format!(in self.alloc; "{}\n", PlainStep(step)) else {
            return Err(LiveError::Memory);
        };
        self.save_bytes(line.as_bytes());
        if self.lost().is_some() {
            return Err(LiveError::Write);
        }
        Ok(())
    }

    /// Writes a line, and its message in words if that is asked for, and flushes what was written.
    /// The errors are those of `save_step`.
    fn write_answer(&mut self, line: &StepLine) -> Result<(), LiveError>
        ensures errors { IfErr result IsRefused }
    {
        if write_step_line(&mut self.output, line).is_err() {
            return Err(LiveError::Write);
        }
        if self.is_described {
            write_remark(self.alloc, &mut self.output, line)?;
        }
        match self.output.flush() {
            Ok(()) => Ok(()),
            Err(_) => Err(LiveError::Write),
        }
    }

    /// Explains a line as one of a script after the board.
    fn explain_numbers(&self, number: usize, text: &[u8]) {
        let board = &self.opened.text;
        let mut whole = Vec::new(self.alloc);
        if whole.extend_from_slice(board).is_err() || whole.extend_from_slice(text).is_err() {
            return;
        }
        let line = feeds_in(board).saturating_add(1);
        let fault = Fault::Script(as_line(line));
        let mut found = explain(self.alloc, Expected::Session, &whole, fault);
        found.line = Some(as_line(number));
        let _ = eprintln!(self.rt; "{STANDARD_INPUT}{found}");
    }
}

/// The number of a line; a higher one than there may be is the highest.
fn as_line(number: usize) -> u32 {
    number.min(u32::MAX as usize) as u32
}

impl<T: Eprint, W: Write + Drop, S: Write + Drop> Listener for Teller<'_, T, W, S> {
    ghost use Rattle.std.specs.Prelude.{None};

    ghost heard = { λ _. None };

    fn ready(&mut self) {
        if self.asked.terminal.is_typed {
            let _ = eprint!(self.rt; "{PROMPT}");
        }
    }

    fn took(&mut self, step: &Step, line: &StepLine) -> Result<(), LiveError> {
        self.save_step(step)?;
        self.write_answer(line)?;
        Ok(())
    }

    fn describe(&mut self, on: bool) {
        self.is_described = on;
    }

    fn help(&mut self, text: &[u8]) {
        report_help(self.rt, &self.opened.said.board, text);
    }

    fn quit(&mut self) {
        self.has_quit = true;
    }

    fn unknown(&mut self, number: usize, text: &[u8]) {
        let board = &self.opened.said.board;
        let agents = as_line(board.agents.len());
        match unknown_in(self.alloc, board, agents, text) {
            Some(unknown) => {
                let reason = UnknownText {
                    unknown,
                    board,
                    alloc: self.alloc,
                };
                let _ = eprintln!(self.rt; "{STANDARD_INPUT}:{number}: {reason}");
            }
            None => self.explain_numbers(number, text),
        }
    }

    fn dropped(&mut self, agent: u32, domain: u32) {
        let board = &self.opened.said.board;
        let who = board.agents.get((agent as usize).wrapping_sub(1));
        let what = board.domains.get(domain as usize);
        if let (Some(who), Some(what)) = (who, what) {
            let _ = eprintln!(self.rt;
                "dropped: agent {agent} {who} is not notified of domain {domain} {}: its outbox \
                has no room",
                what.name
            );
        }
    }

    fn ended(&mut self, line: &StepLine, dropped: usize) -> Result<(), LiveError> {
        // After Ctrl-D the prompt still waits on its line.
        if self.asked.terminal.is_typed && !self.has_quit {
            let _ = eprintln!(self.rt);
        }
        if dropped > 0 {
            let _ = eprintln!(self.rt; "dropped in all: {dropped}");
        }
        self.write_answer(line)?;
        Ok(())
    }

    fn failed(&mut self, fault: LiveError) {
        if fault != LiveError::Write {
            let status = write_fault(&mut self.output, &fault, fault.status());
            self.is_lost = status == FAILED_OUTPUT;
        }
    }
}
