// Runs the lines of document 01's trial bench that have no star; those with a star are proved. It writes for each whether the outcome, the
// outputs and what is left in the workspace are as document 01 says, compared bit for bit, and then how many lines there are and how many differ.
// The values stand here and are not read, so no difference is planted.
#![tactic(auto)]

ghost use Rattle.std.specs.Prelude.{◌≡◌, ◌<◌, length};

mod compare;

use compare::{LENT, LENT_BYTE, LENT_ROOM, is_done, is_identity, is_not_converged};
use functions::{cond_expm, powm};
use sheet::axis_sheet;
use std::io;
use std::io::Write;
use vectors_recorded::tally::{Tally, Verdict, next};
use vectors_recorded::{are_all, is_cleared, same};

// A workspace with one number more than a call clears.
fn workspace_room() -> [f64; 8193]
    ensures { 8193 ≡ length result }
{
    [LENT_ROOM; 8193]
}

// The fewest bytes that may be lent to a sheet's lines.
fn line_room() -> [u8; 35500]
    ensures { 35500 ≡ length result }
{
    [LENT_BYTE; 35500]
}

// Whether w is a workspace that a call has cleared: its first 8,192 numbers are +0, the last is as it was lent.
fn is_workspace_cleared(w: &[f64]) -> bool {
    is_cleared(w, 8192, LENT_ROOM)
}

// powm of the zero matrix a of order n, p = -1: refused by 13, the output as it was lent.
fn inverse_is_refused(n: usize, a: &[f64], out: &mut [f64], w: &mut [f64]) -> bool {
    let answer = powm(n, n, a, -1.0, out, w);
    is_not_converged(answer.outcome) && are_all(out, LENT) && is_workspace_cleared(w)
}

// powm of the zero matrix a of order n, p = 0: the identity.
fn power_is_identity(n: usize, a: &[f64], out: &mut [f64], w: &mut [f64]) -> bool
    requires { 0 < n }
{
    let answer = powm(n, n, a, 0.0, out, w);
    is_done(answer.outcome) && is_identity(out, n) && is_workspace_cleared(w)
}

// cond_expm of the zero matrix a of order 4: 0.5, the derivative's norm 1 over the exponential's 2.
fn ratio_is_half(a: &[f64], w: &mut [f64]) -> bool {
    let answer = cond_expm(4, 4, a, w);
    let condition = answer.condition;
    let norms = same(condition.derivative_norm, 1.0) && same(condition.exponential_norm, 2.0);
    is_done(answer.outcome) && same(condition.ratio, 0.5) && norms && is_workspace_cleared(w)
}

// The entry on a sheet: the line is written and counted, and no byte after it.
fn line_is_written(sheet: &[u8], line: &[u8], out: &mut [u8]) -> bool {
    let n = axis_sheet(sheet, out);
    let (written, others) = out.split_at(n);
    written == line && others.iter().all(|byte| *byte == LENT_BYTE)
}

fn run_inverse() -> bool {
    let mut out = [LENT; 4];
    let mut w = workspace_room();
    inverse_is_refused(2, &[0.0; 4], &mut out, &mut w)
}

fn run_identity() -> bool {
    let mut out = [LENT; 4];
    let mut w = workspace_room();
    power_is_identity(2, &[0.0; 4], &mut out, &mut w)
}

fn run_wide_identity() -> bool {
    let mut out = [LENT; 64];
    let mut w = workspace_room();
    power_is_identity(8, &[0.0; 64], &mut out, &mut w)
}

fn run_condition() -> bool {
    let mut w = workspace_room();
    ratio_is_half(&[0.0; 16], &mut w)
}

// The 46 bytes: order 2 and A = [[1, 1], [0, 1]], row by row; no directions; one exponent, 3; one task, code 3 with index 0.
fn run_sheet() -> bool {
    let mut out = line_room();
    line_is_written(
        b"\x02\
        \0\0\0\0\0\0\xf0\x3f\0\0\0\0\0\0\xf0\x3f\
        \0\0\0\0\0\0\0\0\0\0\0\0\0\0\xf0\x3f\
        \0\x01\0\0\0\0\0\0\x08\x40\
        \x01\x03\0",
        b"1 ok 0 3ff0000000000000 4008000000000000 0000000000000000 3ff0000000000000 7ff0000000000000\n",
        &mut out,
    )
}

// Writes whether the line of this name is as wanted, and counts it.
fn report<W: Write>(out: &mut W, tally: Tally, name: &[u8], as_wanted: bool) -> io::Result<Tally> {
    out.write_all(name)?;
    if as_wanted {
        out.write_all(b": as wanted\n")?;
    } else {
        out.write_all(b": differs\n")?;
    }
    Ok(tally.with(Verdict::from(as_wanted), next(tally.calls)))
}

fn run_lines<W: Write>(out: &mut W) -> io::Result<Tally> {
    let none = Tally::default();
    let a = report(out, none, b"powm of zero, order 2, p -1", run_inverse())?;
    let b = report(out, a, b"powm of zero, order 2, p 0", run_identity())?;
    let c = report(out, b, b"powm of zero, order 8, p 0", run_wide_identity())?;
    let d = report(out, c, b"cond_expm of zero, order 4", run_condition())?;
    report(out, d, b"axis on 46 bytes", run_sheet())
}

fn main(rt: HostRuntime) -> io::Result<()> {
    let tally = run_lines(&mut io::writer(&rt))?;
    let calls = tally.calls;
    let differ = tally.differ;
    println!(rt; "{calls} lines, {differ} differ")
}
