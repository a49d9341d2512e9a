// What the writer asks: 16 of counts, codes and indices, and 5 of lengths.
ghost use Rattle.std.specs.Prelude.{◌≡◌, ◌≤◌};
ghost use Rattle.sheet_encoding.specs.Limits.{task_limit};
ghost use Rattle.sheet_writing.specs.Sections.{given};
ghost use Rattle.sheet_writing.specs.Written.{given_in, given_task, given_tasks, task_ranges, at_least, ranges as ranges_of, exactly as exactly_of, lengths as lengths_of, questions as questions_of};
ghost use Rattle.sheet_writing.specs.Kernels.{InRange};

use crate::sections::Sections;
use sheet_encoding::parse::{CODE_LIMIT, SheetRefusal, index_limit, value_in};
use sheet_encoding::position::{direction_at, exponent_at};

// Byte j of the tasks, which would stand at p, lies below hi; it is not asked where the slice ends before it.
fn given_in(task: &[u8], j: usize, p: usize, hi: usize) -> Result<usize, SheetRefusal>
    ensures { result ≡ given_in task.now j p hi }
{
    if task.len() <= j {
        return Ok(0);
    }
    let v = task[j] as usize;
    value_in(v, p, 0, hi)
}

// The task at j of the tasks, the first of which would stand at q: its code and its index.
fn given_task(task: &[u8], q: usize, d: usize, e: usize, j: usize) -> Result<usize, SheetRefusal>
    requires { (q ≤ 9000) × (j ≤ 100) }
    ensures { result ≡ given_task task.now q d e j }
{
    let code = given_in(task, j, q + j, CODE_LIMIT)?;
    given_in(task, j + 1, q + j + 1, index_limit(code, d, e))
}

// The first count of the tasks.
fn given_tasks(
    task: &[u8],
    q: usize,
    d: usize,
    e: usize,
    count: usize,
) -> Result<usize, SheetRefusal>
    requires { (q ≤ 9000) × (count ≤ task_limit) }
    ensures { result ≡ given_tasks task.now q d e 0 count }
{
    for k in 0..count {
        given_task(task, q, d, e, 2 * k)?;
    }
    Ok(0)
}

// The count of the tasks, and the tasks, of a sheet of order n with d directions and e exponents.
fn task_ranges(
    tasks: usize,
    task: &[u8],
    n: usize,
    d: usize,
    e: usize,
) -> Result<usize, SheetRefusal>
    requires { (n ≤ 8) × (d ≤ 8) × (e ≤ 8) }
    ensures { result ≡ task_ranges tasks task.now n d e }
{
    let p = exponent_at(n, d, e);
    let t = value_in(tasks, p, 1, 17)?;
    given_tasks(task, p + 1, d, e, t)
}

// Question 16, which the numbers do not enter.
fn ranges(sections: &Sections<'_>) -> Result<usize, SheetRefusal>
    ensures { result ≡ ranges_of (given sections.now) }
{
    let n = value_in(sections.order, 0, 1, 9)?;
    let d = value_in(sections.directions, 1 + 8 * (n * n), 0, 9)?;
    let e = value_in(sections.exponents, direction_at(n, d), 0, 9)?;
    task_ranges(sections.tasks, sections.task, n, d, e)
}

// A length that has to be the one wanted.
fn exactly(wanted: usize, found: usize) -> Result<usize, SheetRefusal>
    ensures { result ≡ exactly_of wanted found }
{
    if found != wanted {
        return Err(SheetRefusal::WrongLength(found, wanted));
    }
    Ok(found)
}

// A length that has to be the one wanted, or more.
fn at_least(wanted: usize, found: usize) -> Result<usize, SheetRefusal>
    ensures { result ≡ at_least wanted found }
{
    if found < wanted {
        return Err(SheetRefusal::WrongLength(found, wanted));
    }
    Ok(found)
}

// Question 5, of counts in range.
fn lengths(sections: &Sections<'_>, room: usize) -> Result<usize, SheetRefusal>
    requires { InRange (given sections.now) }
    ensures { result ≡ lengths_of (given sections.now) room }
{
    let n = sections.order;
    let d = sections.directions;
    let e = sections.exponents;
    let t = sections.tasks;
    exactly(n * n, sections.matrix.len())?;
    exactly(d * (n * n), sections.direction.len())?;
    exactly(e, sections.exponent.len())?;
    exactly(2 * t, sections.task.len())?;
    at_least(exponent_at(n, d, e) + 1 + 2 * t, room)
}

// All questions, of an output of room bytes.
pub fn questions(sections: &Sections<'_>, room: usize) -> Result<usize, SheetRefusal>
    ensures { result ≡ questions_of (given sections.now) room }
{
    ranges(sections)?;
    lengths(sections, room)
}
