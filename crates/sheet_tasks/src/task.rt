// One task: its function is called, and its line written. The workspace w is the sheet's own and is not cleared from task to task.
// The others are arrays of a line's own, and not fields beside w in one struct: two fields behind one `&mut` cannot be lent at once yet.
ghost use Rattle.std.specs.Prelude.{◌≡◌, false, ◌+◌, ◌*◌, ◌≤◌, ◌<◌, length};
ghost use Rattle.std.specs.Float.{binary64};
ghost use Rattle.arithmetic_questions.specs.Outputs.{OneOutputWith, TwoOutputsWith};
ghost use Rattle.arithmetic_questions.specs.Reports.{report_at};
ghost use Rattle.sheet_encoding.specs.Bytes.{byte_at};
ghost use Rattle.sheet_encoding.specs.Text.{result_line};
ghost use Rattle.sheet_encoding.specs.Parse.{matrix_size, direction_at, exponent_at};
ghost use Rattle.sheet_tasks.specs.Tasks.{workspace_length, value_for, value_report, derivative_for, derivative_report, exponent_for, task_numbers};
ghost use Rattle.sheet_tasks.specs.Functions.{value_code, derivative_code};
ghost use Rattle.sheet_tasks.specs.Kernels.{TaskRoom, TaskReady, SheetMatrix, value_numbers, derivative_numbers, condition_numbers};
ghost use Rattle.sheet_encoding.specs.Kernels.{Lined};

use crate::function::{Derivative, Function, Value};
use arithmetic_matrices::workspace::small_room;
use arithmetic_questions::answer::Answer;
use functions_exponential::expm::expm_with;
use functions_exponential_derivative::condition::cond_expm_with;
use functions_exponential_derivative::frechet::frechet_expm_with;
use functions_logarithms::{frechet_logm_with, logm_with};
use functions_powers::powm_with;
use functions_root_derivatives::{frechet_sqrtm_sylvester_with, frechet_sqrtm_with};
use functions_roots::sqrtm_with;
use functions_trigonometric::{cosm_with, sinm_with};
use sheet_encoding::line::put_answer;
use sheet_encoding::parse::Counts;
use sheet_encoding::position::{direction_at, exponent_at};
use sheet_encoding::reading::{read_number, read_numbers};

// A sheet's bytes, what their count bytes say, and the numbers of the sheet's matrix.
#[derive(Clone, Copy)]
pub struct Sheet<'a> {
    pub bytes: &'a [u8],
    pub counts: Counts,
    pub matrix: &'a [f64],
}

// The function of the n by n matrix a is written to x. p is the exponent of powm.
fn value(function: Value, n: usize, a: &[f64], p: f64, x: &mut [f64], w: &mut [f64]) -> Answer
    requires { (length x.old ≡ n * n) × (length w.old ≡ workspace_length) }
    ensures one_output_with { OneOutputWith false (value_for binary64 n a.now p (value_code function)) result.outcome x.old x.new w.old w.new }
    ensures report_value { result.report ≡ report_at (value_for binary64 n a.now p (value_code function)) (value_report binary64 n a.now p (value_code function)) }
{
    match function {
        Value::Expm => expm_with(n, n, a, x, w, false),
        Value::Logm => logm_with(n, n, a, x, w, false),
        Value::Sqrtm => sqrtm_with(n, n, a, x, w, false),
        Value::Powm => powm_with(n, n, a, p, x, w, false),
        Value::Cosm => cosm_with(n, n, a, x, w, false),
        Value::Sinm => sinm_with(n, n, a, x, w, false),
    }
}

// The function of the n by n matrix a and its derivative in the direction e are written to x and y.
fn derivative(
    function: Derivative,
    n: usize,
    a: &[f64],
    e: &[f64],
    x: &mut [f64],
    y: &mut [f64],
    w: &mut [f64],
) -> Answer
    requires { (length x.old ≡ n * n) × (length y.old ≡ n * n) × (length w.old ≡ workspace_length) }
    ensures two_outputs_with { TwoOutputsWith false (derivative_for binary64 n a.now e.now (derivative_code function)) result.outcome x.old x.new y.old y.new w.old w.new }
    ensures report_value { result.report ≡ report_at (derivative_for binary64 n a.now e.now (derivative_code function)) (derivative_report binary64 n a.now e.now (derivative_code function)) }
{
    match function {
        Derivative::FrechetExpm => frechet_expm_with(n, n, a, n, n, e, x, y, w, false),
        Derivative::FrechetLogm => frechet_logm_with(n, n, a, n, n, e, x, y, w, false),
        Derivative::FrechetSqrtm => frechet_sqrtm_with(n, n, a, n, n, e, x, y, w, false),
        Derivative::FrechetSqrtmSylvester => {
            frechet_sqrtm_sylvester_with(n, n, a, n, n, e, x, y, w, false)
        }
    }
}

// The exponent at p where the function is powm.
fn exponent_for(s: &[u8], function: Value, p: usize) -> f64
    requires { value_code function ≡ 3 → p + 8 ≤ length s.now }
    ensures { result ≡ exponent_for binary64 s.now (value_code function) p }
{
    match function {
        Value::Powm => read_number(s, p),
        _ => 0.0,
    }
}

// The line of a function with one output, and its index.
fn value_line(
    sheet: &Sheet<'_>,
    function: Value,
    index: usize,
    w: &mut [f64],
    out: &mut [u8],
    at: usize,
    task: usize,
) -> usize
    requires task_room { TaskRoom out.old at task sheet.now w.old }
    requires index_bound { (sheet.now.counts.directions ≤ 8) × (index < 256) × (value_code function ≡ 3 → exponent_at sheet.now.counts.order sheet.now.counts.directions index + 8 ≤ length sheet.now.bytes.now) }
    ensures { Lined out.old at (result_line binary64 task (value_numbers sheet.now (value_code function) index)) out.new result }
{
    let n = sheet.counts.order;
    let q = exponent_at(n, sheet.counts.directions, index);
    let p = exponent_for(sheet.bytes, function, q);
    let mut first = small_room();
    let x = &mut first[..n * n];
    let answer = value(function, n, sheet.matrix, p, x, w);
    put_answer(
        out,
        at,
        task,
        answer.outcome,
        x,
        &[],
        answer.report.smallest,
    )
}

// The line of a function with a derivative, and its index, which names the direction.
fn derivative_line(
    sheet: &Sheet<'_>,
    function: Derivative,
    index: usize,
    w: &mut [f64],
    out: &mut [u8],
    at: usize,
    task: usize,
) -> usize
    requires task_room { TaskRoom out.old at task sheet.now w.old }
    requires index_bound { (index ≤ 8) × (direction_at sheet.now.counts.order index + matrix_size sheet.now.counts.order ≤ length sheet.now.bytes.now) }
    ensures { Lined out.old at (result_line binary64 task (derivative_numbers sheet.now (derivative_code function) index)) out.new result }
{
    let n = sheet.counts.order;
    let mut direction = small_room();
    let mut first = small_room();
    let mut second = small_room();
    let e = &mut direction[..n * n];
    let x = &mut first[..n * n];
    let y = &mut second[..n * n];
    read_numbers(sheet.bytes, direction_at(n, index), e);
    let answer = derivative(function, n, sheet.matrix, e, x, y, w);
    put_answer(out, at, task, answer.outcome, x, y, answer.report.smallest)
}

// The line of cond_expm.
fn condition_line(sheet: &Sheet<'_>, w: &mut [f64], out: &mut [u8], at: usize, task: usize) -> usize
    requires { TaskRoom out.old at task sheet.now w.old }
    ensures { Lined out.old at (result_line binary64 task (condition_numbers sheet.now)) out.new result }
{
    let n = sheet.counts.order;
    let answer = cond_expm_with(n, n, sheet.matrix, w, false);
    let ratio = [answer.condition.ratio; 1];
    put_answer(
        out,
        at,
        task,
        answer.outcome,
        &ratio,
        &[],
        answer.report.smallest,
    )
}

// The line of the task at q.
pub fn run_task(
    sheet: &Sheet<'_>,
    q: usize,
    w: &mut [f64],
    out: &mut [u8],
    at: usize,
    task: usize,
) -> usize
    requires task_room { TaskRoom out.old at task sheet.now w.old }
    requires task_ready { TaskReady sheet.now.bytes.now q sheet.now.counts.order sheet.now.counts.directions }
    requires sheet_matrix { SheetMatrix sheet.now }
    ensures { Lined out.old at (result_line binary64 task (task_numbers binary64 sheet.now.bytes.now sheet.now.counts.order sheet.now.counts.directions (byte_at sheet.now.bytes.now q) (byte_at sheet.now.bytes.now (q + 1)))) out.new result }
{
    let index = sheet.bytes[q + 1] as usize;
    match Function::from(sheet.bytes[q]) {
        Function::Value(function) => value_line(sheet, function, index, w, out, at, task),
        Function::Derivative(function) => {
            derivative_line(sheet, function, index, w, out, at, task)
        }
        Function::CondExpm => condition_line(sheet, w, out, at, task),
    }
}
