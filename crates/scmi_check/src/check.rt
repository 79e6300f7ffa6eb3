//! The texts of a board and of a record, and what is found of them.
ghost use Rattle.std.specs.Prelude.{◌≡◌, ℕ, ◌+◌, [], List, length, OnOk, IfOk, IfErr, IfSome};
ghost use Rattle.scmi_plan.specs.Board.{Board};
ghost use Rattle.scmi_judge.specs.Judging.{Knows};
ghost use Rattle.scmi_judge.specs.declared.unseen.Unseen.{Unseen as Hidden};
ghost use Rattle.scmi_check.specs.Check.{GivesCheckedRecord, GivesFound, IsFaultOf, IsFaultOfBoard, IsFaultOfRecord, IsOfBoard, IsPlanText, GivesBefore, GivesBeforeFault, IsAtLine};
ghost use Rattle.scmi_check.specs.CheckError.{line_error};
ghost use Rattle.scmi_check.specs.RecordText.{nothing_shown};
ghost use Rattle.scmi_check.specs.UnderWay.{IsUnderWay};

use crate::check_error::CheckError;
use crate::checked::Checked;
use crate::listener::Listener;
use crate::names::Names;
use crate::options::CheckOptions;
use crate::under_way::Check;
use scmi_board::{TextLine, read_valid_board};
use scmi_core::CoreError;
use scmi_io::{CountedReader, Input, InputError, read_rest};
use scmi_judge::{GOING_ON, Judge, Unseen};
use scmi_plan::Plan;
use std::alloc::Global;
use std::io::Read;

/// The most platforms that are kept, beside one, of those that may be behind a record.
pub const PLACES: usize = 255;

/// Checks a record of a platform of a board, line by line, however long it is. The listener is given
/// the verdict on each entry, and each note, as soon as the line is read.
///
/// `Size`, `Board` and `Plan` are of the board's text: the listener was given nothing. `Long`,
/// `Record` and `Empty` are of the record's: it was given what is found of the lines before.
/// `Read` is of either; there, and at `Memory` and `Write`, no clause says what it was given.
pub fn check_record<B: Read, R: Read, N: Names, L: Listener>(
    alloc: Global,
    board: &mut B,
    source: &mut R,
    options: CheckOptions<'_>,
    names: &N,
    listener: &mut L,
) -> Result<Checked, CheckError>
    ensures checked { IfOk result (GivesCheckedRecord (N.means names.now) options.entry
        (B.remaining board.old) (R.remaining source.old) (L.judged listener.old)
        (L.judged listener.new) (L.noted listener.old) (L.noted listener.new)) }
    ensures faults { IfErr result (IsFaultOf (N.means names.now) options.entry
        (B.remaining board.old) (R.remaining source.old)) }
    ensures alone { IfErr result (λ e. IsOfBoard e → listener.new ≡ listener.old) }
    ensures before { IfErr result (λ e. IsAtLine e → GivesBeforeFault (N.means names.now)
        options.entry (B.remaining board.old) (R.remaining source.old) e (L.judged listener.old)
        (L.judged listener.new) (L.noted listener.old) (L.noted listener.new)) }
{
    let Said { text, plan } = read_board(alloc, board)?;
    let judge = judge_of(alloc, &text, &plan, options.unseen)?;
    let check = Check::new(alloc, options.protocols, plan.agents(), judge);
    check_lines(alloc, source, names, check, listener)
}

/// Reads the lines of a record up to its end, and checks each.
fn check_lines<R: Read, N: Names, L: Listener>(
    alloc: Global,
    source: &mut R,
    names: &N,
    mut check: Check<'_>,
    listener: &mut L,
) -> Result<Checked, CheckError>
    ensures found { (protocols : List ℕ) (may : Hidden) (board : Board)
        → IsUnderWay may board (nothing_shown protocols) [] [] check.entry
        → IfOk result (GivesFound (N.means names.now) protocols may board
        (R.remaining source.old) (L.judged listener.old) (L.judged listener.new)
        (L.noted listener.old) (L.noted listener.new)) }
    ensures faults { (protocols : List ℕ) (may : Hidden) (board : Board)
        → IsUnderWay may board (nothing_shown protocols) [] [] check.entry
        → IfErr result (λ e. IfSome (R.remaining source.old)
        (λ text. IsFaultOfRecord (N.means names.now) protocols board text e)) }
    ensures alone { (protocols : List ℕ) (may : Hidden) (board : Board)
        → IsUnderWay may board (nothing_shown protocols) [] [] check.entry
        → IfErr result (λ e. ¬ (IsOfBoard e)) }
    ensures before { (protocols : List ℕ) (may : Hidden) (board : Board)
        → IsUnderWay may board (nothing_shown protocols) [] [] check.entry
        → IfErr result (λ e. IsAtLine e → IfSome (R.remaining source.old)
        (λ text. GivesBefore (N.means names.now) protocols may board e text
        (L.judged listener.old) (L.judged listener.new) (L.noted listener.old)
        (L.noted listener.new))) }
{
    let reader = CountedReader::new(source);
    let mut input = Input::new(reader);
    let mut text = Vec::new(alloc);
    let mut number = 0u32;
    'lines: for _ in 0..u64::MAX {
        number = number.saturating_add(1);
        let ended = match input.read_line(&mut text) {
            Ok(ended) => ended,
            Err(error) => return Err(line_error(error, number)),
        };
        let line = TextLine {
            number,
            text: text.as_slice(),
        };
        if let Err(error) = check.add(alloc, names, line, listener) {
            return Err(error);
        }
        if !ended {
            return check.finish(listener);
        }
    }
    Err(CheckError::Read)
}

/// Why the line of this number is not read.
fn line_error(error: InputError, number: u32) -> CheckError
    ensures { result ≡ line_error error number }
{
    match error {
        InputError::Size => CheckError::Long(number),
        InputError::Read => CheckError::Read,
        InputError::Memory => CheckError::Memory,
    }
}

/// A judge of a platform of this board, before the first entry. `Memory` is the only error.
fn judge_of(alloc: Global, text: &[u8], plan: &Plan, unseen: Unseen) -> Result<Judge, CoreError>
    requires { IsPlanText text.now plan.now }
    ensures knows { IfOk result (λ judge. Knows judge []) }
    ensures board { IfOk result (λ judge. judge.board ≡ plan.now) }
    ensures unseen { IfOk result (λ judge. judge.unseen ≡ unseen) }
    ensures places { IfOk result (λ judge.
        length judge.guesses + length judge.spare ≡ 1 + PLACES) }
    ensures errors { IfErr result (λ e. e ≡ CoreError.Memory) }
{
    let first = again(alloc, text, plan)?;
    let place = again(alloc, text, plan)?;
    let mut judge = Judge::new(alloc, first, place, unseen)?;
    add_places(alloc, text, plan, &mut judge)?;
    Ok(judge)
}

/// Makes the places of a judge of this board. `Memory` is the only error.
fn add_places(alloc: Global, text: &[u8], plan: &Plan, judge: &mut Judge) -> Result<(), CoreError>
    requires text { IsPlanText text.now plan.now }
    requires board { judge.old.board ≡ plan.now }
    requires knows { Knows judge.old [] }
    requires place { length judge.old.guesses + length judge.old.spare ≡ 1 }
    ensures knows { OnOk result (Knows judge.new []) }
    ensures board { OnOk result (judge.new.board ≡ plan.now) }
    ensures unseen { OnOk result (judge.new.unseen ≡ judge.old.unseen) }
    ensures places { OnOk result (length judge.new.guesses + length judge.new.spare ≡ 1 + PLACES) }
    ensures errors { IfErr result (λ e. e ≡ CoreError.Memory) }
{
    'places: for _place in 0..PLACES {
        judge.add_place(again(alloc, text, plan)?)?;
    }
    'kept: for _kept in 0..GOING_ON {
        let before = again(alloc, text, plan)?;
        let between = again(alloc, text, plan)?;
        judge.add_look_back(before, between)?;
    }
    Ok(())
}

/// The plan of a board with this text again. `Memory` is the only error.
fn again(alloc: Global, text: &[u8], plan: &Plan) -> Result<Plan, CoreError>
    requires { IsPlanText text.now plan.now }
    ensures same { IfOk result (λ made. made ≡ plan.now) }
    ensures errors { IfErr result (λ e. e ≡ CoreError.Memory) }
{
    match plan_of(alloc, text) {
        Ok(made) => Ok(made),
        Err(_) => Err(CoreError::Memory),
    }
}

/// The text of a board with its plan.
#[derive(Drop)]
struct Said {
    text: Vec<u8>,
    plan: Plan,
}

/// The board of a text, with the text.
fn read_board<B: Read>(alloc: Global, board: &mut B) -> Result<Said, CheckError>
    ensures board { IfOk result (λ said. IfSome (B.remaining board.old)
        (λ text. IsPlanText text said.plan)) }
    ensures said { IfOk result (λ said. IsPlanText said.text.items said.plan) }
    ensures faults { IfErr result (λ e. IfSome (B.remaining board.old)
        (λ text. IsFaultOfBoard text e)) }
    ensures before { IfErr result (λ e. ¬ (IsAtLine e)) }
{
    let text = read_rest(alloc, &mut CountedReader::new(board))?;
    let plan = plan_of(alloc, &text)?;
    Ok(Said { text, plan })
}

/// The plan of the board of a text.
fn plan_of(alloc: Global, text: &[u8]) -> Result<Plan, CheckError>
    ensures board { IfOk result (IsPlanText text.now) }
    ensures faults { IfErr result (IsFaultOfBoard text.now) }
{
    let valid = read_valid_board(alloc, text)?;
    Ok(valid.plan)
}
