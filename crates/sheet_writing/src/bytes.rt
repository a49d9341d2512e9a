// The bytes of a sheet, written into an output at a cursor. Each function answers where the next byte goes.
ghost use Rattle.std.specs.Prelude.{◌≡◌, ◌∷◌, ◌+◌, ◌*◌, ◌^◌, ◌≤◌, ◌<◌, length};
ghost use Rattle.sheet_encoding.specs.Kernels.{Wrote};
ghost use Rattle.sheet_writing.specs.Sections.{given, word_bytes, number_bytes, sheet_bytes};
ghost use Rattle.sheet_writing.specs.Written.{Below};
ghost use Rattle.sheet_writing.specs.Kernels.{SheetRoom, Words};

use crate::sections::Sections;
use sheet_encoding::writing::{put_byte, put_bytes};

// The 8 bytes of v, lowest first.
fn put_bits(out: &mut [u8], at: usize, v: u64) -> usize
    requires { at + 8 ≤ length out.old }
    ensures wrote { Wrote out.old at (word_bytes 8 v) out.new result }
    ensures value { result ≡ at + 8 }
{
    put_bytes(out, at, &v.to_le_bytes())
}

// The bytes of the numbers of m, each given as its bits.
fn put_numbers(out: &mut [u8], at: usize, m: &[u64]) -> usize
    requires { at + 8 * length m.now ≤ length out.old }
    ensures wrote { Wrote out.old at (number_bytes m.now) out.new result }
    ensures value { result ≡ at + 8 * length m.now }
    ensures words { Below (256 ^ 8) m.now }
{
    let mut e = at;
    for x in m {
        e = put_bits(out, e, *x);
    }
    e
}

// A section: a count below 256, and the numbers of m.
fn put_section(out: &mut [u8], at: usize, count: usize, m: &[u64]) -> usize
    requires { (count < 256) × (at + 1 + 8 * length m.now ≤ length out.old) }
    ensures wrote { Wrote out.old at (count ∷ number_bytes m.now) out.new result }
    ensures value { result ≡ at + 1 + 8 * length m.now }
    ensures words { Below (256 ^ 8) m.now }
{
    let e = put_byte(out, at, count as u8);
    put_numbers(out, e, m)
}

// The section of the tasks: their count, and their codes and indices.
fn put_tasks(out: &mut [u8], at: usize, count: usize, task: &[u8]) -> usize
    requires { (count < 256) × (at + 1 + length task.now ≤ length out.old) }
    ensures { Wrote out.old at (count ∷ task.now) out.new result }
{
    let e = put_byte(out, at, count as u8);
    put_bytes(out, e, task)
}

// The four sections from the start of an output.
pub fn put_sheet(sections: &Sections<'_>, out: &mut [u8]) -> usize
    requires { SheetRoom (given sections.now) (length out.old) }
    ensures wrote { Wrote out.old 0 (sheet_bytes (given sections.now)) out.new result }
    ensures words { Words (given sections.now) }
{
    let d = put_section(out, 0, sections.order, sections.matrix);
    let e = put_section(out, d, sections.directions, sections.direction);
    let t = put_section(out, e, sections.exponents, sections.exponent);
    put_tasks(out, t, sections.tasks, sections.task)
}
