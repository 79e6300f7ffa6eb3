//! Tables of first words, and what a line that begins with one is.
ghost use Rattle.std.specs.Prelude.{map};
ghost use Rattle.scmi_board.specs.LineError.{Gives};
ghost use Rattle.scmi_text.specs.WordRow.{form_in, said};

use scmi_board::LineError;

/// A word, and the form of a line that begins with it.
///
/// It is generic because a constant has a name in definitions only if its struct holds no reference
/// of its own.
#[derive(Clone, Copy)]
pub struct WordRow<W, F> {
    pub word: W,
    pub form: F,
}

/// A row of a table.
pub type HeldRow<F> = WordRow<&'static [u8], F>;

/// Rows by their words and forms.
macro_rules! rows {
    ($($word:literal $form:expr;)*) => {
        [$($crate::word_row::WordRow { word: $word, form: $form }),*]
    };
}

pub(crate) use rows;

/// The form of a line that begins with this word. `Form` if no row has it.
pub fn form_in<F: Copy>(mut rows: &[HeldRow<F>], word: &[u8]) -> Result<F, LineError>
    ensures { Gives (λ form. form) result (form_in word.now (map said rows.entry.now)) }
{
    while let [row, rest @ ..] = rows {
        if row.word == word {
            return Ok(row.form);
        }
        rows = rest;
    }
    Err(LineError::Form)
}
