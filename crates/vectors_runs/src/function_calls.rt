// Recorded calls of the functions of matrices: each call is made with slices of the recorded lengths, and what it gives is compared.
use arithmetic_questions::answer::Answer;
use functions::{
    cond_expm, cosm, expm, frechet_expm, frechet_logm, frechet_sqrtm, frechet_sqrtm_sylvester,
    logm, powm, sinm, sqrtm,
};
use std::alloc::{AllocError, Global};
use std::io;
use std::io::Write;
use vectors_recorded::call::{Shape, read_shape};
use vectors_recorded::outcome::{lent, same_call, same_values};
use vectors_recorded::reader::{Reader, list};
use vectors_recorded::run::{Progress, run_function, write_rest};
use vectors_recorded::tally::Verdict;
use vectors_recorded::width::Width;

#[derive(Clone, Copy)]
enum Function {
    Expm,
    Logm,
    Sqrtm,
    Powm,
    Cosm,
    Sinm,
    FrechetExpm,
    FrechetLogm,
    FrechetSqrtm,
    CondExpm,
    FrechetSqrtmSylvester,
}

impl Function {
    // The word with which a vector of the function begins.
    fn name(self) -> &'static [u8] {
        match self {
            Function::Expm => b"expm",
            Function::Logm => b"logm",
            Function::Sqrtm => b"sqrtm",
            Function::Powm => b"powm",
            Function::Cosm => b"cosm",
            Function::Sinm => b"sinm",
            Function::FrechetExpm => b"frechet_expm",
            Function::FrechetLogm => b"frechet_logm",
            Function::FrechetSqrtm => b"frechet_sqrtm",
            Function::CondExpm => b"cond_expm",
            Function::FrechetSqrtmSylvester => b"frechet_sqrtm_sylvester",
        }
    }
}

// The longest list of numbers and the longest workspace that are run.
const NUMBERS: usize = 160;

const ROOM: usize = 8320;

// A vector's counts, its matrix and its direction, and the text of its outcome and its outputs.
#[derive(Drop)]
struct Vector<'a, T> {
    shape: Shape<T>,
    a: Vec<T>,
    e: Vec<T>,
    want: &'a [u8],
}

// What a call is lent to write to.
#[derive(Drop)]
struct Lent<T> {
    first: Vec<T>,
    second: Vec<T>,
    w: Vec<T>,
}

// The vector on a line, or nothing where a list is longer than what is run.
fn read_vector<T: Width>(alloc: Global, line: &[u8]) -> Result<Option<Vector<'_, T>>, AllocError> {
    let mut reader = Reader { rest: line };
    reader.skip_past(b' ');
    let shape = read_shape(&mut reader);
    let Some(a) = list(&mut reader, alloc, NUMBERS, |bits| T::of_bits(bits))? else {
        return Ok(None);
    };
    let Some(e) = list(&mut reader, alloc, NUMBERS, |bits| T::of_bits(bits))? else {
        return Ok(None);
    };
    reader.skip_past(b'|');
    reader.skip_past(b' ');
    Ok(Some(Vector {
        shape,
        a,
        e,
        want: reader.rest,
    }))
}

// Whether a call with one output gives what is recorded.
fn one_agrees<T: Width, F: FnOnce(&mut [T], &mut [T]) -> Answer>(
    vector: &Vector<T>,
    mut lent: Lent<T>,
    call: F,
) -> bool
    requires { F.IsAlwaysCallable call }
{
    let answer = call(&mut lent.first, &mut lent.w);
    same_call(
        vector.want,
        answer.outcome,
        answer.report,
        &lent.first,
        &[],
        &[],
        &lent.w,
    )
}

// Whether a call with two outputs gives what is recorded.
fn both_agree<T: Width, F: FnOnce(&mut [T], &mut [T], &mut [T]) -> Answer>(
    vector: &Vector<T>,
    mut lent: Lent<T>,
    call: F,
) -> bool
    requires { F.IsAlwaysCallable call }
{
    let answer = call(&mut lent.first, &mut lent.second, &mut lent.w);
    same_call(
        vector.want,
        answer.outcome,
        answer.report,
        &lent.first,
        &lent.second,
        &[],
        &lent.w,
    )
}

// The recorded outputs are the ratio, the derivative's norm and the exponential's.
fn condition_agrees<T: Width>(
    alloc: Global,
    vector: &Vector<T>,
    mut lent: Lent<T>,
) -> Result<bool, AllocError> {
    let answer = cond_expm(
        vector.shape.rows,
        vector.shape.columns,
        &vector.a,
        &mut lent.w,
    );
    let condition = answer.condition;
    let mut values = Vec::new(alloc);
    values.push(condition.ratio)?;
    values.push(condition.derivative_norm)?;
    values.push(condition.exponential_norm)?;
    Ok(same_values(vector.want, answer.outcome, answer.report, &values, &lent.w))
}

// Whether the vector's call gives what is recorded.
fn agrees<T: Width>(
    alloc: Global,
    function: Function,
    vector: &Vector<T>,
    lent: Lent<T>,
) -> Result<bool, AllocError> {
    let Shape {
        rows: m,
        columns: n,
        height: h,
        width: k,
        exponent: p,
        ..
    } = vector.shape;
    let a = vector.a.as_slice();
    let e = vector.e.as_slice();
    Ok(match function {
        Function::Expm => one_agrees(vector, lent, |x, w| expm(m, n, a, x, w)),
        Function::Logm => one_agrees(vector, lent, |x, w| logm(m, n, a, x, w)),
        Function::Sqrtm => one_agrees(vector, lent, |x, w| sqrtm(m, n, a, x, w)),
        Function::Powm => one_agrees(vector, lent, |x, w| powm(m, n, a, p, x, w)),
        Function::Cosm => one_agrees(vector, lent, |x, w| cosm(m, n, a, x, w)),
        Function::Sinm => one_agrees(vector, lent, |x, w| sinm(m, n, a, x, w)),
        Function::FrechetExpm => both_agree(vector, lent, |x, y, w| {
            frechet_expm(m, n, a, h, k, e, x, y, w)
        }),
        Function::FrechetLogm => both_agree(vector, lent, |x, y, w| {
            frechet_logm(m, n, a, h, k, e, x, y, w)
        }),
        Function::FrechetSqrtm => both_agree(vector, lent, |x, y, w| {
            frechet_sqrtm(m, n, a, h, k, e, x, y, w)
        }),
        Function::CondExpm => condition_agrees(alloc, vector, lent)?,
        Function::FrechetSqrtmSylvester => both_agree(vector, lent, |x, y, w| {
            frechet_sqrtm_sylvester(m, n, a, h, k, e, x, y, w)
        }),
    })
}

// Runs a vector that has been read.
fn run_call<T: Width>(
    alloc: Global,
    function: Function,
    vector: &Vector<T>,
) -> Result<Verdict, AllocError> {
    let shape = vector.shape;
    if NUMBERS < shape.output || NUMBERS < shape.second || ROOM < shape.room {
        return Ok(Verdict::Skipped);
    }
    let lent = Lent {
        first: vec![in alloc; lent(); shape.output]?,
        second: vec![in alloc; lent(); shape.second]?,
        w: vec![in alloc; lent(); shape.room]?,
    };
    Ok(Verdict::from(agrees(alloc, function, vector, lent)?))
}

// Runs the vector on a line.
fn run_vector<T: Width>(
    alloc: Global,
    function: Function,
    line: &[u8],
) -> Result<Verdict, AllocError> {
    match read_vector::<T>(alloc, line)? {
        Some(vector) => run_call(alloc, function, &vector),
        None => Ok(Verdict::Skipped),
    }
}

// Runs the vectors of each function in turn.
pub fn run_text<T: Width, W: Write>(alloc: Global, out: &mut W, text: &[u8]) -> io::Result<()> {
    let mut progress = Progress {
        rest: text,
        line: 1,
    };
    for function in [
        Function::Expm,
        Function::Logm,
        Function::Sqrtm,
        Function::Powm,
        Function::Cosm,
        Function::Sinm,
        Function::FrechetExpm,
        Function::FrechetLogm,
        Function::FrechetSqrtm,
        Function::CondExpm,
        Function::FrechetSqrtmSylvester,
    ] {
        run_function(out, function.name(), &mut progress, |line| {
            run_vector::<T>(alloc, function, line)
        })?;
    }
    write_rest(out, progress)
}
