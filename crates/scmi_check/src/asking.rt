//! The entries that lines show, and the commands among them that are answered later.
ghost use Rattle.std.specs.Prelude.{◌≡◌, ◌<◌, OnOk, IfSome, position};
ghost use Rattle.scmi_judge.specs.declared.outstanding.TheConstants.{OUTSTANDING as PLACES};
ghost use Rattle.scmi_check.specs.Asking.{asking_view, is_frame_judged, is_free, is_to_ask, nothing_asked, place_of_line, with_all_asked, with_all_given_up, with_asked, with_free, with_given_up, with_one};

use crate::left_out::{frame_protocol, is_judged};
use crate::record::Placed;
use crate::waiting::Waiting;
use scmi_codec::Frame;
use scmi_judge::{Entry, OUTSTANDING};
use std::alloc::{AllocError, Global};

/// The entries that lines show, and the places of the commands that are answered later. A command
/// has none as long as nothing is shown behind it: then it is one entry with its answer.
#[derive(Drop)]
pub(crate) struct Asking {
    pub entries: Vec<Placed>,
    // The line of the command at each place.
    pub asked: [Option<u32>; OUTSTANDING],
}

impl Asking {
    /// No entry. It takes no memory.
    pub fn new(alloc: Global) -> Asking
        ensures { asking_view result ≡ nothing_asked }
    {
        Asking {
            entries: Vec::new(alloc),
            asked: [None; OUTSTANDING],
        }
    }

    /// One entry more.
    pub fn push(&mut self, line: u32, entry: Entry) -> Result<(), AllocError>
        ensures { OnOk result (asking_view self.new
            ≡ with_one (asking_view self.old) line entry) }
    {
        self.entries.push(Placed { line, entry })?;
        Ok(())
    }

    /// The place of the command of this line, if it has one.
    pub fn place_of(&self, line: u32) -> Option<usize>
        ensures place { result ≡ place_of_line (asking_view self.now) line }
        ensures few { IfSome result (λ place. place < PLACES) }
    {
        self.asked.iter().position(|asked| *asked == Some(line))
    }

    /// A place is free again.
    pub fn free(&mut self, place: usize)
        ensures { asking_view self.new ≡ with_free (asking_view self.old) place }
    {
        if place < OUTSTANDING {
            self.asked[place] = None;
        }
    }

    /// These commands are answered later.
    pub fn ask_all(&mut self, judged: &[u8], commands: &[Waiting]) -> Result<(), AllocError>
        ensures { OnOk result (asking_view self.new
            ≡ with_all_asked judged.now (asking_view self.old) commands.now) }
    {
        let mut rest = commands;
        'commands: while let [command, others @ ..] = rest {
            self.ask(judged, command)?;
            rest = others;
        }
        Ok(())
    }

    /// No answers come to these commands.
    pub fn give_up_all(&mut self, commands: &[Waiting]) -> Result<(), AllocError>
        ensures { OnOk result (asking_view self.new
            ≡ with_all_given_up (asking_view self.old) commands.now) }
    {
        let mut rest = commands;
        'commands: while let [command, others @ ..] = rest {
            self.give_up(command)?;
            rest = others;
        }
        Ok(())
    }

    /// A command is answered later, unless it was asked before, or is not judged.
    #[tactic(auto, unfolding(crate::specs::Asking::with_asked))]
    pub fn ask(&mut self, judged: &[u8], command: &Waiting) -> Result<(), AllocError>
        ensures { OnOk result (asking_view self.new
            ≡ with_asked judged.now (asking_view self.old) command.now) }
    {
        if !self.is_to_ask(judged, command) {
            return Ok(());
        }
        let Some(place) = self.first_free() else {
            return Ok(());
        };
        let entry = Entry::Asked {
            place: place as u32,
            agent: command.agent,
            frame: command.frame.copy(),
        };
        self.push(command.line, entry)?;
        self.asked[place] = Some(command.line);
        Ok(())
    }

    /// Whether a command is judged, and has no place yet.
    fn is_to_ask(&self, judged: &[u8], command: &Waiting) -> bool
        ensures { result ≡ is_to_ask judged.now (asking_view self.now) command.now }
    {
        is_frame_judged(judged, &command.frame) && self.place_of(command.line).is_none()
    }

    /// The first place that is free.
    fn first_free(&self) -> Option<usize>
        ensures place { result ≡ position is_free self.now.asked }
        ensures few { IfSome result (λ place. place < PLACES) }
    {
        self.asked.iter().position(|asked| asked.is_none())
    }

    /// No answer comes to a command.
    #[tactic(auto, unfolding(crate::specs::Asking::with_given_up))]
    pub fn give_up(&mut self, command: &Waiting) -> Result<(), AllocError>
        ensures { OnOk result (asking_view self.new
            ≡ with_given_up (asking_view self.old) command.now) }
    {
        let Some(place) = self.place_of(command.line) else {
            return Ok(());
        };
        self.push(
            command.line,
            Entry::GivenUp {
                place: place as u32,
            },
        )?;
        self.free(place);
        Ok(())
    }
}

/// Whether commands of this frame are judged.
fn is_frame_judged(judged: &[u8], frame: &Frame) -> bool
    ensures { result ≡ is_frame_judged judged.now frame.now }
{
    match frame_protocol(frame) {
        Some(protocol) => is_judged(judged, protocol),
        None => true,
    }
}
