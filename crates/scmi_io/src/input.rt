//! The input, whose first line is read before the rest.
ghost use Rattle.std.specs.Prelude.{◌≡◌, ◌≢◌, ◌<◌, ◌≤◌, ◌+◌, ◌⊎◌, length, take, Err, Some, IfOk, IfErr, IfNone, IsErrOf, OnOk, IfSome, MatchOption, ◌∷◌, ◌++◌, []};
ghost use Rattle.std.specs.Io.{ReadsAtMost};
ghost use Rattle.std.specs.Io.KnownBytes.{Consumes, IsAtEnd, Keeps, ReadConsumes, prepend_known};
ghost use Rattle.std.specs.Option.{IsSomeAnd};
ghost use Rattle.scmi_io.specs.Lines.{first_line, after_line, has_line_feed, IsFurther};
ghost use Rattle.scmi_io.specs.Reads.{StopsAtFailure, failures};

use crate::ahead::Ahead;
use crate::counted_read::CountedRead;
use crate::input_error::InputError;
use crate::read_error::ReadError;
use arrayvec::ArrayVec;
use std::marker::Model;

/// The most bytes of the first line, without its line feed, and of what follows it (own).
pub const INPUT_BYTES: usize = 1_048_576;

/// The most bytes of a first line that are kept: more than any mode's text has.
pub const KEPT_BYTES: usize = 16;

/// A reader, and the bytes that were read ahead. It is itself a reader, of what is left after the
/// first line.
#[derive(Drop)]
pub struct Input<R: CountedRead + Drop> {
    reader: R,
    ahead: Ahead,
}

impl<R: CountedRead + Drop> Model for Input<R> {
    ghost use Rattle.std.specs.Io.KnownBytes.{prepend_known};
    ghost use Rattle.scmi_io.specs.Reads.{ReadsView};

    ghost Value = { ReadsView };

    ghost view = { λ i. record {
      left = prepend_known i.ahead (R.remaining i.reader);
      reads = R.reads i.reader;
      since_failure = R.since_failure i.reader;
    } };
}

impl<R: CountedRead + Drop> Input<R> {
    /// The input of a reader.
    pub fn new(reader: R) -> Input<R>
        ensures left { result.left ≡ R.remaining reader }
        ensures reads { result.reads ≡ R.reads reader }
        ensures since_failure { result.since_failure ≡ R.since_failure reader }
    {
        Input {
            reader,
            ahead: Ahead::new(),
        }
    }

    /// The next byte, or `None` at the end. At most `tries` reads may be tried for it.
    pub(crate) fn next_byte(&mut self, tries: &mut usize) -> Result<Option<u8>, InputError>
        ensures reads { self.new.reads + tries.new ≤ self.old.reads + tries.old }
        ensures stops { StopsAtFailure result self.old.since_failure self.new.since_failure }
        ensures byte { IfOk result (λ next. MatchOption next
            (Consumes self.old.left self.new.left [] × IsAtEnd self.new.left)
            (λ byte. Consumes self.old.left self.new.left (byte ∷ []))) }
        ensures errors { IfErr result (λ e. e ≡ InputError.Read) }
    {
        refill(&mut self.ahead, &mut self.reader, tries)?;
        Ok(self.ahead.take_byte())
    }

    /// Moves the next bytes of the first line behind those of `line`. Once it is whole, whether a line
    /// feed ended it; `None` while more of it may follow. At most `tries` reads may be tried for it.
    pub(crate) fn next_piece(
        &mut self,
        line: &mut Vec<u8>,
        tries: &mut usize,
    ) -> Result<Option<bool>, InputError>
        ensures reads { self.new.reads + tries.new ≤ self.old.reads + tries.old }
        ensures stops { StopsAtFailure result self.old.since_failure self.new.since_failure }
        ensures line { IfOk result (λ whole. IfSome whole (λ ended.
            IfSome self.old.left (λ input. line.new.items ≡ line.old.items ++ first_line input))) }
        ensures rest { IfOk result (λ whole. IfSome whole (λ ended.
            IfSome self.old.left (λ input. self.new.left ≡ Some (after_line input)))) }
        ensures ended { IfOk result (λ whole. IfSome whole (λ ended.
            IfSome self.old.left (λ input. ended ≡ has_line_feed input))) }
        ensures more { IfOk result (λ whole. IfNone whole
            (length line.old.items < length line.new.items)) }
        ensures further { IfOk result (λ whole. IfNone whole
            (IfSome self.old.left (λ input. IsSomeAnd self.new.left (λ rest.
            IsFurther input line.old.items rest line.new.items)))) }
        ensures errors { result ≢ Err InputError.Size }
    {
        refill(&mut self.ahead, &mut self.reader, tries)?;
        if self.ahead.is_empty() {
            return Ok(Some(false));
        }
        if take_line(&mut self.ahead, line)? {
            return Ok(Some(true));
        }
        Ok(None)
    }

    /// The first bytes of the first line, at most `KEPT_BYTES` of them, by at most
    /// `INPUT_BYTES + 1` reads. What is left is what comes after its line feed. `Size` if the line
    /// is longer than `INPUT_BYTES`; `Read` at a read that fails, or if reads are interrupted so
    /// often that these are not enough.
    pub fn read_first_line(&mut self) -> Result<ArrayVec<u8, KEPT_BYTES>, InputError>
        ensures reads { self.new.reads ≤ self.old.reads + (INPUT_BYTES + 1) }
        ensures stops { StopsAtFailure result self.old.since_failure self.new.since_failure }
        ensures line { IfOk result (λ kept. IfSome self.old.left (λ input.
            kept.items ≡ take KEPT_BYTES (first_line input))) }
        ensures rest { OnOk result
            (IfSome self.old.left (λ input. self.new.left ≡ Some (after_line input))) }
        ensures size { IsErrOf result InputError.Size →
            IfSome self.old.left (λ input. INPUT_BYTES < length (first_line input)) }
        ensures errors { IfErr result (λ e. (e ≡ InputError.Size) ⊎ (e ≡ InputError.Read)) }
    {
        let mut kept = ArrayVec::new();
        let mut tries = INPUT_BYTES + 1;
        'bytes: for _ in 0..INPUT_BYTES + 1 {
            let Some(byte) = self.next_byte(&mut tries)? else {
                return Ok(kept);
            };
            if byte == b'\n' {
                return Ok(kept);
            }
            keep(&mut kept, byte);
        }
        Err(InputError::Size)
    }
}

impl<R: CountedRead + Drop> CountedRead for Input<R> {
    ghost remaining = { λ i. i.left };

    ghost reads = { λ i. i.reads };

    ghost since_failure = { λ i. i.since_failure };

    fn read(&mut self, buffer: &mut [u8]) -> Result<usize, ReadError> {
        if self.ahead.is_empty() {
            return self.reader.read(buffer);
        }
        Ok(self.ahead.take_into(buffer))
    }
}

/// Reads ahead if nothing is left from before, by at most `tries` tries. `Read` at a read that
/// fails, and if each try was interrupted.
fn refill<R: CountedRead>(
    ahead: &mut Ahead,
    reader: &mut R,
    tries: &mut usize,
) -> Result<(), InputError>
    ensures reads { R.reads reader.new + tries.new ≤ R.reads reader.old + tries.old }
    ensures stops { StopsAtFailure result (R.since_failure reader.old)
        (R.since_failure reader.new) }
    ensures bytes { OnOk result (Keeps (prepend_known ahead.old (R.remaining reader.old))
        (prepend_known ahead.new (R.remaining reader.new))) }
    ensures end { OnOk result (ahead.new ≡ [] → IsAtEnd (R.remaining reader.new)) }
    ensures errors { IfErr result (λ e. e ≡ InputError.Read) }
{
    if !ahead.is_empty() {
        return Ok(());
    }
    'tries: while *tries > 0 {
        *tries -= 1;
        match ahead.fill(reader) {
            Ok(()) => return Ok(()),
            Err(ReadError::Interrupted) => {}
            Err(ReadError::Failed) => return Err(InputError::Read),
        }
    }
    Err(InputError::Read)
}

/// Keeps a byte if there is room.
fn keep(kept: &mut ArrayVec<u8, KEPT_BYTES>, byte: u8)
    ensures { kept.new.items ≡ take KEPT_BYTES (kept.old.items ++ byte ∷ []) }
{
    if !kept.is_full() {
        kept.push(byte);
    }
}

/// As `Ahead::take_line`; `Memory` when out of memory.
fn take_line(ahead: &mut Ahead, line: &mut Vec<u8>) -> Result<bool, InputError>
    ensures line { OnOk result (line.new.items ≡ line.old.items ++ first_line ahead.old) }
    ensures rest { OnOk result (ahead.new ≡ after_line ahead.old) }
    ensures ended { IfOk result (λ ended. ended ≡ has_line_feed ahead.old) }
    ensures errors { IfErr result (λ e. e ≡ InputError.Memory) }
{
    match ahead.take_line(line) {
        Ok(ended) => Ok(ended),
        Err(_) => Err(InputError::Memory),
    }
}
