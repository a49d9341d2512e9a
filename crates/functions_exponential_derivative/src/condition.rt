// The condition of the exponential at A, in the one direction I / root of n.
ghost use Rattle.std.specs.Prelude.{◌≡◌, cond, ◌*◌, ◌+◌, ◌≤◌, ltb, length};
ghost use Rattle.std.specs.Float.Ieee.{div, lt};
ghost use Rattle.arithmetic_floats.specs.Float.{+zero, one};
ghost use Rattle.arithmetic_matrices.specs.Norm.{frobenius};
ghost use Rattle.arithmetic_matrices.specs.Workspace.{Room, Only, store};
ghost use Rattle.arithmetic_questions.specs.Answers.{numbered, reported};
ghost use Rattle.arithmetic_questions.specs.Result.{workspace};
ghost use Rattle.arithmetic_questions.specs.Outputs.{WorkspaceLeft};
ghost use Rattle.arithmetic_questions.specs.Reports.{refused_report, report_at};
ghost use Rattle.functions_definitions.specs.Derivatives.{unit_direction, condition_of, cond_exp_m};
ghost use Rattle.functions_exponential_derivative.specs.Kernels.{rated};
ghost use Rattle.functions_definitions.specs.Conditions.{no_condition, Conditioned};
ghost use Rattle.functions_definitions.specs.Calls.{cond_expm};
ghost use Rattle.functions_definitions.specs.Reports.{cond_exp_report};

use crate::frechet::frechet_expm_in;
use arithmetic_floats::real::Real;
use arithmetic_matrices::norm::sum_of_squares;
use arithmetic_matrices::workspace::{clear_where, copy_out, diagonal, small_room};
use arithmetic_questions::answer::{Answer, Outcome, Refusal, Report, refused};
use arithmetic_questions::question::ask_cond_expm;

// The ratio of the norms, and the Frobenius norms of the derivative and of the exponential.
#[derive(Clone, Copy)]
pub struct Condition<T> {
    pub ratio: T,
    pub derivative_norm: T,
    pub exponential_norm: T,
}

// The answer of `cond_expm`; +0 three times beside a refusal.
#[derive(Clone, Copy)]
pub struct ConditionAnswer<T> {
    pub outcome: Outcome,
    pub condition: Condition<T>,
    pub report: Report,
}

// The direction I / root of n is written to out, and to slot 0.
fn unit_direction<T: Real>(w: &mut [T], n: usize, out: &mut [T])
    requires room { Room n (T.floats w.old) }
    requires out_len { length out.old ≡ n * n }
    ensures out_after { T.floats out.new ≡ unit_direction T.format n }
    ensures w_after { T.floats w.new ≡ store (T.floats w.old) 0 (unit_direction T.format n) }
{
    diagonal(w, 0, T::ONE / T::of_small(n).sqrt(), n);
    copy_out(w, 0, out);
}

// d over x, or 1 where x is not above 0.
fn ratio_of<T: Real>(x: T, d: T) -> T
    ensures { T.float result ≡ cond (lt +zero (T.float x)) (div T.format (T.float d) (T.float x)) one }
{
    if T::ZERO < x { d / x } else { T::ONE }
}

// The condition, from the exponential x and the derivative d of order n.
fn condition_of<T: Real>(x: &[T], d: &[T], n: usize) -> Condition<T>
    requires { (length x.now ≡ n * n) × (length d.now ≡ n * n) × (n ≤ 8) }
    ensures { record { ratio = T.float result.ratio; derivative_norm = T.float result.derivative_norm; exponential_norm = T.float result.exponential_norm } ≡ condition_of T.format (frobenius T.format n (T.floats x.now)) (frobenius T.format n (T.floats d.now)) }
{
    let exponential_norm = sum_of_squares(x, 0, n * n).sqrt();
    let derivative_norm = sum_of_squares(d, 0, n * n).sqrt();
    Condition {
        ratio: ratio_of(exponential_norm, derivative_norm),
        derivative_norm,
        exponential_norm,
    }
}

// The answer that carries a refusal.
fn refused_condition<T: Real>(why: Refusal) -> ConditionAnswer<T>
    ensures outcome_value { reported result.outcome ≡ numbered why }
    ensures exponential_norm_value { record { ratio = T.float result.condition.ratio; derivative_norm = T.float result.condition.derivative_norm; exponential_norm = T.float result.condition.exponential_norm } ≡ no_condition }
    ensures report_value { result.report ≡ refused_report }
{
    let condition = Condition {
        ratio: T::ZERO,
        derivative_norm: T::ZERO,
        exponential_norm: T::ZERO,
    };
    let answer = refused(why);
    let outcome = answer.outcome;
    let report = answer.report;
    ConditionAnswer {
        outcome,
        condition,
        report,
    }
}

// The answer of the condition, from that of the derivative and, where it is done, the exponential x and the derivative d of order n.
fn condition_answer<T: Real>(answer: Answer, x: &[T], d: &[T], n: usize) -> ConditionAnswer<T>
    requires { (length x.now ≡ n * n) × (length d.now ≡ n * n) × (n ≤ 8) }
    ensures conditioned { Conditioned (rated (condition_of T.format (frobenius T.format n (T.floats x.now)) (frobenius T.format n (T.floats d.now))) (reported answer.outcome)) result.outcome (record { ratio = T.float result.condition.ratio; derivative_norm = T.float result.condition.derivative_norm; exponential_norm = T.float result.condition.exponential_norm }) }
    ensures report_value { result.report ≡ report_at (reported answer.outcome) answer.report }
{
    let outcome = answer.outcome;
    match outcome {
        Ok(halvings) => {
            let condition = condition_of(x, d, n);
            let report = answer.report;
            ConditionAnswer {
                outcome: Ok(halvings),
                condition,
                report,
            }
        }
        Err(why) => refused_condition(why),
    }
}

// The condition of the exponential at the n by n matrix a. e, x and d are room for a direction, the exponential and the derivative.
fn cond_expm_in<T: Real>(
    n: usize,
    a: &[T],
    e: &mut [T],
    x: &mut [T],
    d: &mut [T],
    w: &mut [T],
) -> ConditionAnswer<T>
    requires room { Room (n + n) (T.floats w.old) }
    requires n_bound { (n ≤ 8) × (length a.now ≡ n * n) × (length e.old ≡ n * n) × (length x.old ≡ n * n) × (length d.old ≡ n * n) }
    ensures conditioned { Conditioned (cond_exp_m T.format n (T.floats a.now)) result.outcome (record { ratio = T.float result.condition.ratio; derivative_norm = T.float result.condition.derivative_norm; exponential_norm = T.float result.condition.exponential_norm }) }
    ensures only { Only (λ s. ltb s 32) (T.floats w.old) (T.floats w.new) }
    ensures report_value { result.report ≡ report_at (cond_exp_m T.format n (T.floats a.now)) (cond_exp_report T.format n (T.floats a.now)) }
{
    unit_direction(w, n, e);
    let answer = frechet_expm_in(n, a, e, x, d, w);
    condition_answer(answer, x, d, n)
}

// `cond_expm_in` with room of its own.
fn cond_expm_with_room<T: Real>(n: usize, a: &[T], w: &mut [T]) -> ConditionAnswer<T>
    requires room { Room (n + n) (T.floats w.old) }
    requires n_bound { (n ≤ 8) × (length a.now ≡ n * n) }
    ensures conditioned { Conditioned (cond_exp_m T.format n (T.floats a.now)) result.outcome (record { ratio = T.float result.condition.ratio; derivative_norm = T.float result.condition.derivative_norm; exponential_norm = T.float result.condition.exponential_norm }) }
    ensures only { Only (λ s. ltb s 32) (T.floats w.old) (T.floats w.new) }
    ensures report_value { result.report ≡ report_at (cond_exp_m T.format n (T.floats a.now)) (cond_exp_report T.format n (T.floats a.now)) }
{
    let count = n * n;
    let mut e = small_room();
    let mut x = small_room();
    let mut d = small_room();
    cond_expm_in(n, a, &mut e[..count], &mut x[..count], &mut d[..count], w)
}

// `cond_expm`, where the workspace is cleared only if `clears` is true.
pub fn cond_expm_with<T: Real>(
    rows: usize,
    columns: usize,
    a: &[T],
    w: &mut [T],
    clears: bool,
) -> ConditionAnswer<T>
    ensures conditioned { Conditioned (cond_expm T.format rows columns (T.floats a.now) (length w.old)) result.outcome (record { ratio = T.float result.condition.ratio; derivative_norm = T.float result.condition.derivative_norm; exponential_norm = T.float result.condition.exponential_norm }) }
    ensures workspace_left { WorkspaceLeft clears (cond_expm T.format rows columns (T.floats a.now) (length w.old)) (T.floats w.old) (T.floats w.new) }
    ensures report_value { result.report ≡ report_at (cond_expm T.format rows columns (T.floats a.now) (length w.old)) (cond_exp_report T.format rows (T.floats a.now)) }
{
    match ask_cond_expm(rows, columns, a, w.len()) {
        Err(why) => refused_condition(why),
        Ok(()) => {
            let answer = cond_expm_with_room(rows, a, w);
            clear_where(w, clears);
            answer
        }
    }
}

// The condition of the exponential at the matrix a.
pub fn cond_expm<T: Real>(rows: usize, columns: usize, a: &[T], w: &mut [T]) -> ConditionAnswer<T>
    ensures conditioned { Conditioned (cond_expm T.format rows columns (T.floats a.now) (length w.old)) result.outcome (record { ratio = T.float result.condition.ratio; derivative_norm = T.float result.condition.derivative_norm; exponential_norm = T.float result.condition.exponential_norm }) }
    ensures w_after { T.floats w.new ≡ workspace (cond_expm T.format rows columns (T.floats a.now) (length w.old)) (T.floats w.old) }
    ensures report_value { result.report ≡ report_at (cond_expm T.format rows columns (T.floats a.now) (length w.old)) (cond_exp_report T.format rows (T.floats a.now)) }
{
    cond_expm_with(rows, columns, a, w, true)
}
