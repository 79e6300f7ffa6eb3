//! Names in the lines of a record.
ghost use Rattle.std.specs.Prelude.{◌≡◌, ℕ, List, IfOk, MatchOption, string_bytes};

use std::alloc::{AllocError, Global};

/// What the lines of a record are read as, such as lines with numbers in place of names.
pub trait Names {
    // A text, and what may be read in its place.
    ghost means: { Self → List ℕ → List ℕ → Type 0 };

    /// What is read in place of a line. `None` if it is the line as it is.
    fn line(&self, alloc: Global, text: &[u8]) -> Result<Option<String>, AllocError>
        ensures { IfOk result (λ line. MatchOption line (means self.now text.now text.now)
            (λ line. means self.now text.now (string_bytes line))) };
}

/// No names: each line is read as it is.
#[derive(Clone, Copy)]
pub struct NoNames;

impl Names for NoNames {
    ghost use Rattle.std.specs.Prelude.{◌≡◌};

    ghost means = { λ _ text line. line ≡ text };

    fn line(&self, _alloc: Global, _text: &[u8]) -> Result<Option<String>, AllocError> {
        Ok(None)
    }
}
