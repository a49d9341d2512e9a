// Recorded calls of LU and of the Kronecker functions: each call is made with slices of the recorded lengths, and what it gives is compared.
use arithmetic_questions::answer::Answer;
use functions::{kron, kron_sum};
use std::alloc::{AllocError, Global};
use std::io;
use std::io::Write;
use vectors_recorded::call::{Shape, read_shape};
use vectors_recorded::outcome::{LENT_PIVOT, lent, same_call, same_values};
use vectors_recorded::reader::{Reader, list};
use vectors_recorded::run::{Progress, run_function, write_rest};
use vectors_recorded::tally::Verdict;
use vectors_recorded::width::Width;

#[derive(Clone, Copy)]
enum Function {
    Compute,
    Solve,
    Determinant,
    Kron,
    KronSum,
}

impl Function {
    // The word with which a vector of the function begins.
    fn name(self) -> &'static [u8] {
        match self {
            Function::Compute => b"lu_compute",
            Function::Solve => b"lu_solve",
            Function::Determinant => b"lu_determinant",
            Function::Kron => b"kron",
            Function::KronSum => b"kron_sum",
        }
    }
}

// The longest list of numbers, list of pivots and workspace that are run.
const NUMBERS: usize = 4352;

const PIVOTS: usize = 72;

const ROOM: usize = 8320;

// A vector's counts and lists, and the text of its outcome and its outputs.
#[derive(Drop)]
struct Vector<'a, T> {
    shape: Shape<T>,
    a: Vec<T>,
    b: Vec<T>,
    pivots: Vec<usize>,
    want: &'a [u8],
}

// The vector on a line, or nothing where a list is longer than what is run.
fn read_vector<T: Width>(alloc: Global, line: &[u8]) -> Result<Option<Vector<'_, T>>, AllocError> {
    let mut reader = Reader { rest: line };
    reader.skip_past(b' ');
    let shape = read_shape(&mut reader);
    let Some(a) = list(&mut reader, alloc, NUMBERS, |bits| T::of_bits(bits))? else {
        return Ok(None);
    };
    let Some(b) = list(&mut reader, alloc, NUMBERS, |bits| T::of_bits(bits))? else {
        return Ok(None);
    };
    let Some(pivots) = list(&mut reader, alloc, PIVOTS, |number| number as usize)? else {
        return Ok(None);
    };
    reader.skip_past(b' ');
    Ok(Some(Vector {
        shape,
        a,
        b,
        pivots,
        want: reader.rest,
    }))
}

fn run_compute<T: Width>(alloc: Global, vector: &Vector<T>) -> Result<Verdict, AllocError> {
    let shape = vector.shape;
    if NUMBERS < shape.output || ROOM < shape.room {
        return Ok(Verdict::Skipped);
    }
    let mut factors = vec![in alloc; lent(); shape.output]?;
    let mut pivots = vec![in alloc; LENT_PIVOT; vector.pivots.len()]?;
    let mut w = vec![in alloc; lent(); shape.room]?;
    let answer = lu::compute(
        shape.rows,
        shape.columns,
        &vector.a,
        &mut factors,
        &mut pivots,
        &mut w,
    );
    Ok(Verdict::from(same_call(
        vector.want,
        answer.outcome,
        answer.report,
        &factors,
        &[],
        &pivots,
        &w,
    )))
}

// Runs a call that writes one matrix and has no workspace.
fn run_one<T: Width, F: FnOnce(&mut [T]) -> Answer>(
    alloc: Global,
    vector: &Vector<T>,
    call: F,
) -> Result<Verdict, AllocError>
    requires { F.IsAlwaysCallable call }
{
    if NUMBERS < vector.shape.output {
        return Ok(Verdict::Skipped);
    }
    let mut out = vec![in alloc; lent(); vector.shape.output]?;
    let answer = call(&mut out);
    Ok(Verdict::from(same_call(
        vector.want,
        answer.outcome,
        answer.report,
        &out,
        &[],
        &[],
        &[],
    )))
}

fn run_determinant<T: Width>(alloc: Global, vector: &Vector<T>) -> Result<Verdict, AllocError> {
    let answer = lu::determinant(
        vector.shape.rows,
        vector.shape.columns,
        &vector.a,
        &vector.pivots,
    );
    let mut value = Vec::new(alloc);
    value.push(answer.value)?;
    Ok(Verdict::from(same_values(vector.want, answer.outcome, answer.report, &value, &[])))
}

// Runs a vector that has been read.
fn run_call<T: Width>(
    alloc: Global,
    function: Function,
    vector: &Vector<T>,
) -> Result<Verdict, AllocError> {
    let Shape {
        rows,
        columns,
        height,
        width,
        ..
    } = vector.shape;
    let a = vector.a.as_slice();
    let b = vector.b.as_slice();
    let pivots = vector.pivots.as_slice();
    match function {
        Function::Compute => run_compute(alloc, vector),
        Function::Solve => run_one(alloc, vector, |out| {
            lu::solve(rows, columns, a, pivots, height, width, b, out)
        }),
        Function::Determinant => run_determinant(alloc, vector),
        Function::Kron => run_one(alloc, vector, |out| {
            kron(rows, columns, a, height, width, b, out)
        }),
        Function::KronSum => run_one(alloc, vector, |out| {
            kron_sum(rows, columns, a, height, width, b, out)
        }),
    }
}

// Runs the vector on a line.
fn run_vector<T: Width>(
    alloc: Global,
    function: Function,
    line: &[u8],
) -> Result<Verdict, AllocError> {
    match read_vector::<T>(alloc, line)? {
        Some(vector) => run_call(alloc, function, &vector),
        None => Ok(Verdict::Skipped),
    }
}

// Runs the vectors of each function in turn.
pub fn run_text<T: Width, W: Write>(alloc: Global, out: &mut W, text: &[u8]) -> io::Result<()> {
    let mut progress = Progress {
        rest: text,
        line: 1,
    };
    for function in [
        Function::Compute,
        Function::Solve,
        Function::Determinant,
        Function::Kron,
        Function::KronSum,
    ] {
        run_function(out, function.name(), &mut progress, |line| {
            run_vector::<T>(alloc, function, line)
        })?;
    }
    write_rest(out, progress)
}
