// The logarithm, in a workspace: the matrix stands in slot 0, and slots 1 to 3 are scratch. Square roots are taken until it is near I; then comes the
// series of log (I + X), with X in slot 0, a power of it in slot 1, the sum in slot 2 and a term in slot 3; then a power of two.
ghost use Rattle.std.specs.Prelude.{◌≡◌, [], ◌∷◌, ◌≤◌};
ghost use Rattle.std.specs.Float.Ieee.{le, mul};
ghost use Rattle.arithmetic_floats.specs.Float.{epsilon};
ghost use Rattle.arithmetic_matrices.specs.Norm.{frobenius as frobenius_of};
ghost use Rattle.arithmetic_matrices.specs.Workspace.{Room, slot};
ghost use Rattle.arithmetic_questions.specs.Kernels.{Replaced};
ghost use Rattle.arithmetic_questions.specs.Reports.{report_at};
ghost use Rattle.functions_definitions.specs.Logarithm.{is_far, series_step, series_coefficient, logarithm};
ghost use Rattle.functions_definitions.specs.Reports.{log_report};
ghost use Rattle.functions_roots.specs.Kernels.{tested, OnePass};
ghost use Rattle.functions_logarithms.specs.Kernels.{RootingPass, RootsTaken, series_in, TermsAdded, SeriesSummed, LogarithmNear};

use crate::newton::newton_root;
use arithmetic_floats::real::Real;
use arithmetic_matrices::norm::{norm_1_minus_identity, sums_of_squares};
use arithmetic_matrices::workspace::{add, copy, minus_identity, mult, scale, times, zero};
use arithmetic_questions::answer::{Answer, Refusal, Report, beside, iterated, nothing, refused};
use functions_roots::pass::{Pass, Passed, answers};

// How many roots were taken, and what they report.
#[derive(Clone, Copy)]
pub struct TakenRoots {
    pub count: u64,
    pub report: Report,
}

// Whether the 1-norm of the matrix less I exceeds 0.1.
fn is_far<T: Real>(w: &[T], n: usize) -> bool
    requires { Room n (T.floats w.now) }
    ensures { result ≡ is_far T.format n (slot n (T.floats w.now) 0) }
{
    T::TENTH < norm_1_minus_identity(w, 0, n)
}

// The matrix is replaced by its root, unless it is near I.
fn rooting_pass<T: Real>(w: &mut [T], n: usize) -> Passed
    requires { Room n (T.floats w.old) }
    ensures { RootingPass T.format n result (T.floats w.old) (T.floats w.new) }
{
    if is_far(w, n) {
        let root = newton_root(w, n);
        let pass = root.pass;
        if answers(pass) {
            copy(w, 1, 0, n);
            let report = root.report;
            Passed {
                pass: Pass::Running,
                report,
            }
        } else {
            Passed {
                pass: Pass::Failed,
                report: nothing(),
            }
        }
    } else {
        Passed {
            pass: Pass::Stopped,
            report: nothing(),
        }
    }
}

// At most 100 roots, or None where LU refused a matrix on the way to one. Where so many are taken, it is asked for the report alone whether the matrix is near I.
fn take_roots<T: Real>(w: &mut [T], n: usize) -> Option<TakenRoots>
    requires { Room n (T.floats w.old) }
    ensures { RootsTaken T.format n result (T.floats w.old) (T.floats w.new) }
{
    let mut report = nothing();
    for k in 0..100u64 {
        let made = rooting_pass(w, n);
        report = beside(report, made.report);
        let pass = made.pass;
        match pass {
            Pass::Running => {}
            Pass::Stopped => {
                return Some(TakenRoots { count: k, report });
            }
            Pass::Failed => {
                return None;
            }
        }
    }
    let near = !is_far(w, n);
    Some(TakenRoots {
        count: 100,
        report: beside(report, iterated(0, near)),
    })
}

// The coefficient of power k: 1 / k, negated at even k.
fn series_coefficient<T: Real>(k: usize) -> T
    requires { k ≤ 60 }
    ensures { T.float result ≡ series_coefficient T.format k }
{
    if k % 2 == 0 {
        -T::ONE / T::of_small(k)
    } else {
        T::ONE / T::of_small(k)
    }
}

// A term is the last where its Frobenius norm is at most `EPSILON` times the sum's.
fn is_last<T: Real>(w: &[T], n: usize) -> bool
    requires { Room n (T.floats w.now) }
    ensures { result ≡ le (frobenius_of T.format n (slot n (T.floats w.now) 3)) (mul T.format (epsilon T.format) (frobenius_of T.format n (slot n (T.floats w.now) 2))) }
{
    let sums = sums_of_squares(w, 768, 512, n * n);
    sums.first.sqrt() <= T::EPSILON * sums.second.sqrt()
}

// The next power's term, which is term k + 2, is added. Whether it is the last.
fn series_pass<T: Real>(w: &mut [T], k: usize, n: usize) -> bool
    requires room { Room n (T.floats w.old) }
    requires k_bound { k ≤ 58 }
    ensures { OnePass (series_step T.format n (slot n (T.floats w.old) 0) k) (series_in n) (1 ∷ 2 ∷ 3 ∷ []) (tested result) (T.floats w.old) (T.floats w.new) }
{
    mult(w, 1, 0, 3, n);
    copy(w, 3, 1, n);
    times(w, 1, 3, series_coefficient(k + 2), n);
    add(w, 2, 3, n);
    is_last(w, n)
}

// The terms 2 to 60, or up to the last.
fn add_terms<T: Real>(w: &mut [T], n: usize) -> Report
    requires { Room n (T.floats w.old) }
    ensures { TermsAdded T.format n result (T.floats w.old) (T.floats w.new) }
{
    for k in 0..59 {
        if series_pass(w, k, n) {
            return iterated(k as u64 + 1, true);
        }
    }
    iterated(59, false)
}

// The sum of the series of log (I + X). The first term is added to +0.
fn sum_series<T: Real>(w: &mut [T], n: usize) -> Report
    requires { Room n (T.floats w.old) }
    ensures { SeriesSummed T.format n result (T.floats w.old) (T.floats w.new) }
{
    copy(w, 0, 1, n);
    zero(w, 2, n);
    add(w, 2, 1, n);
    add_terms(w, n)
}

// The logarithm of a matrix near I, times 2^roots, takes its place. The report is that of the series.
fn near_logarithm<T: Real>(w: &mut [T], n: usize, roots: u64) -> Report
    requires room { Room n (T.floats w.old) }
    requires roots_bound { roots ≤ 100 }
    ensures { LogarithmNear T.format n roots result (T.floats w.old) (T.floats w.new) }
{
    minus_identity(w, 0, n);
    let report = sum_series(w, n);
    scale(w, 2, T::power_of_two(roots), n);
    copy(w, 2, 0, n);
    report
}

// The logarithm of the matrix of order n in slot 0 takes its place. Running out of roots or terms still answers.
pub fn logm_in<T: Real>(w: &mut [T], n: usize) -> Answer
    requires { Room n (T.floats w.old) }
    ensures replaced { Replaced (0 ∷ 1 ∷ 2 ∷ 3 ∷ []) n (logarithm T.format n (slot n (T.floats w.old) 0)) result.outcome (T.floats w.old) (T.floats w.new) }
    ensures report_value { result.report ≡ report_at (logarithm T.format n (slot n (T.floats w.old) 0)) (log_report T.format n (slot n (T.floats w.old) 0)) }
{
    match take_roots(w, n) {
        Some(taken) => {
            let series = near_logarithm(w, n, taken.count);
            Answer {
                outcome: Ok(0),
                report: beside(taken.report, series),
            }
        }
        None => refused(Refusal::NotConverged),
    }
}
