//! What takes the findings in an input.
ghost use Rattle.std.specs.Prelude.{◌≡◌, ◌∷◌, [], List, Option, OnOk, IfErr};
ghost use Rattle.scmi_decode.specs.Reported.{Reported};

use crate::decode_error::DecodeError;
use crate::finding::Finding;

/// Takes the findings in an input, one by one.
pub trait Findings {
    ghost use Rattle.scmi_decode.specs.declared.finding.Finding.{Finding};

    // The findings that it took, in order, if they are known: of one that keeps a list, that list.
    ghost taken: { Self → Option (List Finding) };

    /// Takes a finding. `text` is its line, if that is a dump of its own, or else empty. `Write` if the
    /// output fails.
    fn take(&mut self, finding: &Finding, text: &[u8]) -> Result<(), DecodeError>
        ensures taken { OnOk result
            (Reported (taken self.old) (taken self.new) (finding.now ∷ [])) }
        ensures errors { IfErr result (λ e. e ≡ DecodeError.Write) };
}
