// Newton's iteration for a square root, in a workspace: the matrix a of order n stands in slot 0, x in slot 1, and slots 2 and 3 are scratch.
ghost use Rattle.std.specs.Prelude.{◌≡◌, [], ◌∷◌};
ghost use Rattle.arithmetic_matrices.specs.Workspace.{Room, slot};
ghost use Rattle.functions_definitions.specs.Reports.{lu_report};
ghost use Rattle.functions_definitions.specs.Roots.{pass_limit, newton_step, newton_scale};
ghost use Rattle.functions_roots.specs.Kernels.{NewtonMean, ReportedPass, ReportedPasses};
ghost use Rattle.functions_logarithms.specs.Kernels.{ReportedNewton};

use arithmetic_floats::real::Real;
use arithmetic_matrices::norm::{sum_of_squared_differences, trace};
use arithmetic_matrices::workspace::{copy, diagonal, mean};
use arithmetic_questions::answer::{beside, iterated, nothing};
use arithmetic_questions::report::factored;
use functions_roots::division::divide_slot;
use functions_roots::pass::{Pass, Passed, root_verdict};

// x becomes the mean of itself and y, which stands in slot 3.
fn newton_mean<T: Real>(w: &mut [T], n: usize) -> Pass
    requires { Room n (T.floats w.old) }
    ensures { NewtonMean T.format n result (T.floats w.old) (T.floats w.new) }
{
    mean(w, 1, 3, 2, n);
    let sum = sum_of_squared_differences(w, 256, 512, n * n);
    copy(w, 2, 1, n);
    root_verdict(sum)
}

// One pass: x becomes the mean of itself and y, where x y = a. It reports the factoring of x.
fn newton_pass<T: Real>(w: &mut [T], n: usize) -> Passed
    requires { Room n (T.floats w.old) }
    ensures { ReportedPass (newton_step T.format n (slot n (T.floats w.old) 0)) (lu_report T.format n) (λ v. slot n v 1) (1 ∷ 2 ∷ 3 ∷ []) result (T.floats w.old) (T.floats w.new) }
{
    copy(w, 1, 2, n);
    copy(w, 0, 3, n);
    let division = divide_slot(w, 3, n);
    let outcome = division.outcome;
    match outcome {
        Ok(()) => {
            let pass = newton_mean(w, n);
            Passed {
                pass,
                report: factored(division.smallest),
            }
        }
        Err(_) => Passed {
            pass: Pass::Failed,
            report: nothing(),
        },
    }
}

// At most 100 passes.
fn newton_passes<T: Real>(w: &mut [T], n: usize) -> Passed
    requires { Room n (T.floats w.old) }
    ensures { ReportedPasses (λ _. newton_step T.format n (slot n (T.floats w.old) 0)) (lu_report T.format n) pass_limit (λ v. slot n v 1) (1 ∷ 2 ∷ 3 ∷ []) result (T.floats w.old) (T.floats w.new) }
{
    let mut report = nothing();
    for i in 0..100u64 {
        let made = newton_pass(w, n);
        report = beside(report, made.report);
        let pass = made.pass;
        match pass {
            Pass::Running => {}
            Pass::Stopped => {
                return Passed {
                    pass: Pass::Stopped,
                    report: beside(report, iterated(i + 1, true)),
                };
            }
            Pass::Failed => {
                return Passed {
                    pass: Pass::Failed,
                    report,
                };
            }
        }
    }
    Passed {
        pass: Pass::Running,
        report: beside(report, iterated(100, false)),
    }
}

// The start is this times the identity: the root of trace / n, or 1 unless that exceeds `EPSILON`.
fn newton_scale<T: Real>(w: &[T], n: usize) -> T
    requires { Room n (T.floats w.now) }
    ensures { T.float result ≡ newton_scale T.format n (slot n (T.floats w.now) 0) }
{
    let root = (trace(w, 0, n) / T::of_small(n)).sqrt();
    if T::EPSILON < root { root } else { T::ONE }
}

// The root of a goes to slot 1. A pass fails where LU refuses x.
pub fn newton_root<T: Real>(w: &mut [T], n: usize) -> Passed
    requires { Room n (T.floats w.old) }
    ensures { ReportedNewton T.format n result (T.floats w.old) (T.floats w.new) }
{
    let scale = newton_scale(w, n);
    diagonal(w, 1, scale, n);
    newton_passes(w, n)
}
