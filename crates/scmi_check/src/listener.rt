//! Who is given what is found of a record.
ghost use Rattle.std.specs.Prelude.{◌≡◌, [], ◌∷◌, List, Option, OnOk, IfErr};
ghost use Rattle.scmi_check.specs.CheckError.{IsRefused};
ghost use Rattle.scmi_check.specs.Listener.{Grows};

use crate::check_error::CheckError;
use crate::judged::Judged;
use crate::note::Note;

/// Who is given what is found of a record, as it is read. A contract sees the entries with the
/// verdicts on them that it was given, and the notes.
pub trait Listener {
    ghost use Rattle.scmi_check.specs.declared.judged.Judged.{Judged};
    ghost use Rattle.scmi_check.specs.declared.note.Note.{Note};

    // Each in order, if they are known: of a listener that keeps them.
    ghost judged: { Self → Option (List Judged) };

    ghost noted: { Self → Option (List Note) };

    /// What is found next is found at the line with this text.
    fn at_line(&mut self, text: &[u8])
        ensures judged { judged self.new ≡ judged self.old }
        ensures noted { noted self.new ≡ noted self.old };

    /// The next entry, with the verdict on it. If it differs, but would not if one of the last entries
    /// had been another, `unless` is the line of the last such one. `Write` if the output fails,
    /// `Memory` if out of memory.
    fn found(&mut self, one: &Judged, unless: Option<u32>) -> Result<(), CheckError>
        ensures judged { OnOk result (Grows (judged self.old) (judged self.new) (one.now ∷ [])) }
        ensures noted { OnOk result (noted self.new ≡ noted self.old) }
        ensures errors { IfErr result IsRefused };

    /// What is not judged. `Write` and `Memory` as above.
    fn left_out(&mut self, note: &Note) -> Result<(), CheckError>
        ensures judged { OnOk result (judged self.new ≡ judged self.old) }
        ensures noted { OnOk result (Grows (noted self.old) (noted self.new) (note.now ∷ [])) }
        ensures errors { IfErr result IsRefused };
}
