// Running the recorded vectors of one function after another.
#![tactic(auto, using(crate::proofs::Ends::end_end))]

ghost use Rattle.vectors_recorded.specs.Remaining.{IsEndOf};

use crate::reader::{is_of, split_line};
use crate::tally::{Tally, Verdict, next, write_tally};
use std::alloc::AllocError;
use std::io;
use std::io::Write;

// The vectors that were not run: the text that they are, and the line on which it starts.
#[derive(Clone, Copy)]
pub struct Progress<'a> {
    pub rest: &'a [u8],
    pub line: u64,
}

// Runs the function's vectors that come next, up to the first line that is none.
pub fn run_lines<F: Fn(&[u8]) -> Result<Verdict, AllocError>>(
    name: &[u8],
    progress: &mut Progress,
    run: F,
) -> Result<Tally, AllocError>
    requires { F.IsAlwaysCallable run }
    ensures { IsEndOf progress.old.rest.now progress.new.rest.now }
{
    let mut tally = Tally::default();
    while let Some((line, rest)) = split_line(progress.rest) {
        if !is_of(line, name) {
            break;
        }
        tally = tally.with(run(line)?, progress.line);
        progress.rest = rest;
        progress.line = next(progress.line);
    }
    Ok(tally)
}

// Runs the function's vectors that come next, and writes how many there are and how many differ.
pub fn run_function<W: Write, F: Fn(&[u8]) -> Result<Verdict, AllocError>>(
    out: &mut W,
    name: &[u8],
    progress: &mut Progress,
    run: F,
) -> io::Result<()>
    requires { F.IsAlwaysCallable run }
    ensures { IsEndOf progress.old.rest.now progress.new.rest.now }
{
    let tally = run_lines(name, progress, run)?;
    write_tally(out, name, tally)
}

// Says where vectors stand that were not run, if any.
pub fn write_rest<W: Write>(out: &mut W, progress: Progress) -> io::Result<()> {
    let line = progress.line;
    if !progress.rest.is_empty() {
        write!(out, "not run from line {line} on\n")?;
    }
    Ok(())
}
