// The four sections of a sheet, read from left to right.
ghost use Rattle.std.specs.Prelude.{◌≡◌, ◌+◌, ◌*◌, ◌≤◌, ◌<◌, IfOk};
ghost use Rattle.sheet_encoding.specs.Limits.{task_limit};
ghost use Rattle.sheet_encoding.specs.Parse.{value_in, byte_in, bytes_after, takes_direction, index_limit, parse_sheet, order as order_of, section as section_of, task as task_of, tasks as tasks_of};

use crate::position::{direction_at, exponent_at};

// Why a sheet, or a call that makes one, is refused: the position of the first missing or extra byte; that of a count, code or index out of range; or a
// length found, and the one wanted.
#[derive(Clone, Copy)]
pub enum SheetRefusal {
    ByteMissingOrExtra(usize),
    OutOfRange(usize),
    WrongLength(usize, usize),
}

// The codes of tasks are those below.
pub const CODE_LIMIT: usize = 11;

// What the four count bytes of a sheet say.
#[derive(Clone, Copy)]
pub struct Counts {
    pub order: usize,
    pub directions: usize,
    pub exponents: usize,
    pub tasks: usize,
}

// v, the value of the byte at p, from lo up to, not including, hi.
pub fn value_in(v: usize, p: usize, lo: usize, hi: usize) -> Result<usize, SheetRefusal>
    ensures value { result ≡ value_in v p lo hi }
    ensures result_bound { IfOk result (λ v. v < hi) }
{
    if v < lo || hi <= v {
        return Err(SheetRefusal::OutOfRange(p));
    }
    Ok(v)
}

// The byte at p, from lo up to, not including, hi.
fn byte_in(s: &[u8], p: usize, lo: usize, hi: usize) -> Result<usize, SheetRefusal>
    ensures value { result ≡ byte_in s.now p lo hi }
    ensures result_bound { IfOk result (λ v. v < hi) }
{
    if s.len() <= p {
        return Err(SheetRefusal::ByteMissingOrExtra(p));
    }
    let v = s[p] as usize;
    value_in(v, p, lo, hi)
}

// v, where k bytes from p on are there.
fn bytes_after(s: &[u8], p: usize, k: usize, v: usize) -> Result<usize, SheetRefusal>
    requires { (p ≤ 10000) × (k ≤ 10000) }
    ensures value { result ≡ bytes_after s.now p k v }
    ensures result_bound { IfOk result (λ r. r ≤ v) }
{
    if s.len() < p + k {
        return Err(SheetRefusal::ByteMissingOrExtra(s.len()));
    }
    Ok(v)
}

// The order, with its matrix.
fn order(s: &[u8]) -> Result<usize, SheetRefusal>
    ensures value { result ≡ order_of s.now }
    ensures result_bound { IfOk result (λ v. v < 9) }
{
    let n = byte_in(s, 0, 1, 9)?;
    bytes_after(s, 1, 8 * (n * n), n)
}

// A count below 9, with its items.
fn section(s: &[u8], p: usize, size: usize) -> Result<usize, SheetRefusal>
    requires { (p < 10000) × (size ≤ 512) }
    ensures value { result ≡ section_of s.now p size }
    ensures result_bound { IfOk result (λ v. v < 9) }
{
    let v = byte_in(s, p, 0, 9)?;
    bytes_after(s, p + 1, v * size, v)
}

// Whether the index of a task with this code names a direction.
pub fn takes_direction(code: usize) -> bool
    ensures { result ≡ takes_direction code }
{
    code == 10 || (6 <= code && code <= 8)
}

// How many values the index of a task may have.
pub fn index_limit(code: usize, d: usize, e: usize) -> usize
    ensures { result ≡ index_limit code d e }
{
    if code == 3 {
        return e;
    }
    if takes_direction(code) { d } else { 1 }
}

// One task: its code and its index.
fn task(s: &[u8], q: usize, d: usize, e: usize) -> Result<usize, SheetRefusal>
    requires { q ≤ 10000 }
    ensures { result ≡ task_of s.now q d e }
{
    let code = byte_in(s, q, 0, CODE_LIMIT)?;
    byte_in(s, q + 1, 0, index_limit(code, d, e))
}

// The tasks from q on, count of them.
fn tasks(s: &[u8], q: usize, d: usize, e: usize, count: usize) -> Result<usize, SheetRefusal>
    requires { (q ≤ 9000) × (count ≤ task_limit) }
    ensures { result ≡ tasks_of s.now q d e count }
{
    for k in 0..count {
        task(s, q + 2 * k, d, e)?;
    }
    Ok(0)
}

// What a sheet's bytes are: its sections from left to right, and nothing after the tasks.
pub fn parse_sheet(s: &[u8]) -> Result<Counts, SheetRefusal>
    ensures { result ≡ parse_sheet s.now }
{
    let n = order(s)?;
    let size = 8 * (n * n);
    let d = section(s, 1 + size, size)?;
    let e = section(s, direction_at(n, d), 8)?;
    let p = exponent_at(n, d, e);
    let t = byte_in(s, p, 1, 17)?;
    tasks(s, p + 1, d, e, t)?;
    let end = p + 1 + 2 * t;
    if end < s.len() {
        return Err(SheetRefusal::ByteMissingOrExtra(end));
    }
    Ok(Counts {
        order: n,
        directions: d,
        exponents: e,
        tasks: t,
    })
}
