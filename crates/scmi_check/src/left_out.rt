//! What a record has that is not judged.
ghost use Rattle.std.specs.Prelude.{◌≡◌, OnOk};
ghost use Rattle.scmi_check.specs.LeftOut.{frame_protocol, is_judged, left_view, nothing_left, with_left, with_no_answer, with_no_answers, with_protocol, with_skipped};

use crate::note::{Note, NoteKind};
use crate::waiting::Waiting;
use scmi_codec::Frame;
use std::alloc::{AllocError, Global};

/// What a record has that is not judged.
#[derive(Drop)]
pub struct LeftOut {
    /// What is noted, in the order in which it was found.
    pub notes: Vec<Note>,
    /// How many entries and notes are of protocols that are not judged. It stays at 2^32 - 1.
    pub skipped: u32,
    /// These protocols, in the order in which they were found.
    pub protocols: Vec<u8>,
}

impl LeftOut {
    /// Nothing is left out. It takes no memory.
    pub(crate) fn new(alloc: Global) -> LeftOut
        ensures { left_view result ≡ nothing_left }
    {
        LeftOut {
            notes: Vec::new(alloc),
            skipped: 0,
            protocols: Vec::new(alloc),
        }
    }

    /// A note, which is of a message of this protocol, if it is of one: it is skipped unless the
    /// protocol is one that is judged.
    pub(crate) fn add(
        &mut self,
        judged: &[u8],
        protocol: Option<u8>,
        note: Note,
    ) -> Result<(), AllocError>
        ensures { OnOk result (left_view self.new ≡
            with_left judged.now (left_view self.old) protocol note) }
    {
        if let Some(protocol) = protocol
            && !is_judged(judged, protocol)
        {
            return self.skip(protocol);
        }
        self.notes.push(note)?;
        Ok(())
    }

    /// Something of a protocol that is not judged.
    pub(crate) fn skip(&mut self, protocol: u8) -> Result<(), AllocError>
        ensures { OnOk result (left_view self.new ≡ with_skipped (left_view self.old) protocol) }
    {
        self.skipped = self.skipped.saturating_add(1);
        if !is_judged(&self.protocols, protocol) {
            self.protocols.push(protocol)?;
        }
        Ok(())
    }

    /// These commands have no answer.
    pub(crate) fn add_unanswered(
        &mut self,
        judged: &[u8],
        commands: &[Waiting],
    ) -> Result<(), AllocError>
        ensures { OnOk result (left_view self.new ≡
            with_no_answers judged.now (left_view self.old) commands.now) }
    {
        let mut rest = commands;
        'commands: while let [command, others @ ..] = rest {
            self.add_command(judged, command)?;
            rest = others;
        }
        Ok(())
    }

    /// This command has no answer.
    pub(crate) fn add_command(&mut self, judged: &[u8], command: &Waiting) -> Result<(), AllocError>
        ensures { OnOk result (left_view self.new ≡
            with_no_answer judged.now (left_view self.old) command.now) }
    {
        let line = command.line;
        let kind = NoteKind::Unanswered;
        self.add(judged, frame_protocol(&command.frame), Note { line, kind })
    }
}

/// Whether a protocol is one of those that are judged.
pub(crate) fn is_judged(judged: &[u8], protocol: u8) -> bool
    ensures { result ≡ is_judged judged.now protocol }
{
    judged.contains(&protocol)
}

/// The protocol of a frame, if it is well formed.
pub(crate) fn frame_protocol(frame: &Frame) -> Option<u8>
    ensures { result ≡ frame_protocol frame.now }
{
    match frame {
        Frame::Good(message) => Some(message.header.protocol()),
        Frame::Malformed { .. } => None,
    }
}
