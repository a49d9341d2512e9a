// The line of a task.
ghost use Rattle.std.specs.Prelude.{◌≡◌, ◌+◌, ◌≤◌, ◌<◌, [], ◌∷◌, ◌++◌, length};
ghost use Rattle.std.specs.Float.{binary64};
ghost use Rattle.arithmetic_questions.specs.Answers.{numbered, reported};
ghost use Rattle.arithmetic_questions.specs.Result.{refused};
ghost use Rattle.sheet_encoding.specs.Limits.{line_limit};
ghost use Rattle.sheet_encoding.specs.Parse.{sheet_numbered};
ghost use Rattle.sheet_encoding.specs.Text.{refused_line, done_head, done_line, result_line, carrying};
ghost use Rattle.sheet_encoding.specs.Kernels.{Wrote, Lined, LineRoom};

use crate::parse::SheetRefusal;
use crate::writing::{
    put_byte, put_decimal, put_detail, put_details, put_entry, put_numbers, put_word,
};
use arithmetic_questions::answer::{Outcome, Refusal};

// The number of a refusal and its two details, 0 where there are none.
#[derive(Clone, Copy)]
pub struct Code {
    pub number: usize,
    pub first: usize,
    pub second: usize,
}

// The line of a refused task or sheet.
fn put_refused(out: &mut [u8], at: usize, task: usize, code: Code) -> usize
    requires { at + 87 ≤ length out.old }
    ensures wrote { Wrote out.old at (refused_line task code.number code.first code.second) out.new result }
    ensures upper_bound { result ≤ at + 87 }
{
    let e = put_decimal(out, at, task);
    let f = put_word(out, e, b"no");
    let g = put_details(out, f, code.number, code.first, code.second);
    put_byte(out, g, b'\n')
}

// What stands before the numbers of a task that is done.
fn put_head(out: &mut [u8], at: usize, task: usize, halvings: usize) -> usize
    requires { (at + 44 ≤ length out.old) × (task < 100) × (halvings < 100) }
    ensures wrote { Wrote out.old at (done_head task halvings) out.new result }
    ensures upper_bound { result ≤ at + 8 }
{
    let e = put_decimal(out, at, task);
    let f = put_word(out, e, b"ok");
    put_detail(out, f, halvings)
}

// The line of a task that is done, with the numbers of its outputs and then its smallest pivot.
fn put_done(
    out: &mut [u8],
    at: usize,
    task: usize,
    halvings: usize,
    first: &[f64],
    second: &[f64],
    smallest: f64,
) -> usize
    requires { (at + line_limit ≤ length out.old) × (task < 100) × (halvings < 100) × (length first.now + length second.now ≤ 128) }
    ensures { Lined out.old at (done_line binary64 task halvings (first.now ++ second.now ++ (smallest ∷ []))) out.new result }
{
    let e = put_head(out, at, task, halvings);
    let f = put_numbers(out, e, first);
    let g = put_numbers(out, f, second);
    let z = put_entry(out, g, smallest);
    put_byte(out, z, b'\n')
}

// A refusal with this number and these details.
fn coded(number: usize, first: usize, second: usize) -> Code
    ensures { (result.number ≡ number) × (result.first ≡ first) × (result.second ≡ second) }
{
    Code {
        number,
        first,
        second,
    }
}

// The number and the details of a refusal.
impl From<Refusal> for Code {
    ghost from_gives = { λ why code. numbered why ≡ refused code.number code.first code.second };

    fn from(why: Refusal) -> Code {
        match why {
            Refusal::EmptyMatrix => coded(1, 0, 0),
            Refusal::NotSquare(x, y) => coded(2, x, y),
            Refusal::CompanionShape(x, y) => coded(3, x, y),
            Refusal::TooLarge(x, y) => coded(4, x, y),
            Refusal::WrongLength(x, y) => coded(5, x, y),
            Refusal::EntryNotFinite(x, y) => coded(6, x, y),
            Refusal::DirectionNotFinite(x, y) => coded(7, x, y),
            Refusal::ExponentNotFinite => coded(8, 0, 0),
            Refusal::PivotOutOfRange(x, y) => coded(9, x, y),
            Refusal::NotDefined => coded(10, 0, 0),
            Refusal::OrderOne => coded(11, 0, 0),
            Refusal::NormNotFinite => coded(12, 0, 0),
            Refusal::NotConverged => coded(13, 0, 0),
            Refusal::SingularColumn(x) => coded(14, x, 0),
            Refusal::TooManyHalvings(x) => coded(17, x, 0),
        }
    }
}

// The number and the details of a sheet's refusal.
impl From<SheetRefusal> for Code {
    ghost from_gives = { λ why code. sheet_numbered why ≡ refused code.number code.first code.second };

    fn from(why: SheetRefusal) -> Code {
        match why {
            SheetRefusal::ByteMissingOrExtra(p) => coded(15, p, 0),
            SheetRefusal::OutOfRange(p) => coded(16, p, 0),
            SheetRefusal::WrongLength(x, y) => coded(5, x, y),
        }
    }
}

// The line of a refused sheet, from the start of an output. Its task number is 0.
pub fn put_sheet_refused(out: &mut [u8], why: SheetRefusal) -> usize
    requires { 87 ≤ length out.old }
    ensures wrote { Wrote out.old 0 (result_line binary64 0 (carrying [] (sheet_numbered why))) out.new result }
    ensures upper_bound { result ≤ 87 }
{
    put_refused(out, 0, 0, Code::from(why))
}

// The line of a task with this outcome; where it is done, its outputs are written and then its smallest pivot.
pub fn put_answer(
    out: &mut [u8],
    at: usize,
    task: usize,
    outcome: Outcome,
    first: &[f64],
    second: &[f64],
    smallest: f64,
) -> usize
    requires { LineRoom out.old at task outcome first.now second.now }
    ensures { Lined out.old at (result_line binary64 task (carrying (first.now ++ second.now ++ (smallest ∷ [])) (reported outcome))) out.new result }
{
    match outcome {
        Ok(halvings) => { put_done(out, at, task, halvings as usize, first, second, smallest) }
        Err(why) => put_refused(out, at, task, Code::from(why)),
    }
}
