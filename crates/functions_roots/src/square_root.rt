// The square root by the iteration of Denman and Beavers, in a workspace: y stands in slot 0 and z in slot 1. y goes to the root and z to its inverse.
// Slots 2 to 5 are scratch.
ghost use Rattle.std.specs.Prelude.{◌≡◌, [], ◌∷◌};
ghost use Rattle.arithmetic_matrices.specs.Workspace.{Room, slot};
ghost use Rattle.arithmetic_questions.specs.Kernels.{Replaced};
ghost use Rattle.arithmetic_questions.specs.Reports.{report_at};
ghost use Rattle.functions_definitions.specs.Roots.{pass_limit, denman_beavers_step, square_root};
ghost use Rattle.functions_definitions.specs.Reports.{lu_report, pair_report, root_report};
ghost use Rattle.functions_roots.specs.Kernels.{Reports, ReportedPass, ReportedPasses, pair_in, Means, SecondInverse};

use crate::division::divide_slot;
use crate::pass::{Pass, Passed, answers, root_verdict};
use arithmetic_floats::real::Real;
use arithmetic_matrices::norm::sum_of_squared_differences;
use arithmetic_matrices::workspace::{copy, identity, mean};
use arithmetic_questions::answer::{Answer, Refusal, beside, done, iterated, nothing, refused};
use arithmetic_questions::report::factored;

// y becomes the mean of itself and 1 / z, which stands in slot 3, and z that of itself and 1 / y, which stands in slot 4.
fn means<T: Real>(w: &mut [T], n: usize) -> Pass
    requires { Room n (T.floats w.old) }
    ensures { Means T.format n result (T.floats w.old) (T.floats w.new) }
{
    mean(w, 0, 3, 2, n);
    mean(w, 1, 4, 5, n);
    let sum = sum_of_squared_differences(w, 0, 512, n * n);
    copy(w, 2, 0, n);
    copy(w, 5, 1, n);
    root_verdict(sum)
}

// The pass from the inverse of y on. 1 / z stands in slot 3.
fn second_inverse<T: Real>(w: &mut [T], n: usize) -> Passed
    requires { Room n (T.floats w.old) }
    ensures second_inverse { SecondInverse T.format n result.pass (T.floats w.old) (T.floats w.new) }
    ensures reports { Reports 0 result (lu_report T.format n (slot n (T.floats w.old) 0)) }
{
    copy(w, 0, 2, n);
    identity(w, 4, n);
    let d = divide_slot(w, 4, n);
    let outcome = d.outcome;
    match outcome {
        Ok(()) => {
            let pass = means(w, n);
            Passed {
                pass,
                report: factored(d.smallest),
            }
        }
        Err(_) => Passed {
            pass: Pass::Failed,
            report: nothing(),
        },
    }
}

// One pass. z is inverted first.
fn root_pass<T: Real>(w: &mut [T], n: usize) -> Passed
    requires { Room n (T.floats w.old) }
    ensures { ReportedPass (denman_beavers_step T.format n) (pair_report T.format n) (pair_in n) (0 ∷ 1 ∷ 2 ∷ 3 ∷ 4 ∷ 5 ∷ []) result (T.floats w.old) (T.floats w.new) }
{
    copy(w, 1, 2, n);
    identity(w, 3, n);
    let d = divide_slot(w, 3, n);
    let outcome = d.outcome;
    match outcome {
        Ok(()) => {
            let first = factored(d.smallest);
            let rest = second_inverse(w, n);
            let pass = rest.pass;
            Passed {
                pass,
                report: beside(first, rest.report),
            }
        }
        Err(_) => Passed {
            pass: Pass::Failed,
            report: nothing(),
        },
    }
}

// At most 100 passes.
fn root_passes<T: Real>(w: &mut [T], n: usize) -> Passed
    requires { Room n (T.floats w.old) }
    ensures { ReportedPasses (λ _. denman_beavers_step T.format n) (pair_report T.format n) pass_limit (pair_in n) (0 ∷ 1 ∷ 2 ∷ 3 ∷ 4 ∷ 5 ∷ []) result (T.floats w.old) (T.floats w.new) }
{
    let mut report = nothing();
    for i in 0..100u64 {
        let made = root_pass(w, n);
        report = beside(report, made.report);
        let pass = made.pass;
        match pass {
            Pass::Running => {}
            Pass::Stopped => {
                return Passed {
                    pass: Pass::Stopped,
                    report: beside(report, iterated(i + 1, true)),
                };
            }
            Pass::Failed => {
                return Passed {
                    pass: Pass::Failed,
                    report,
                };
            }
        }
    }
    Passed {
        pass: Pass::Running,
        report: beside(report, iterated(100, false)),
    }
}

// The square root of the matrix of order n in slot 0 takes its place; at order 1 it is the root of the number. Running out of passes still answers.
pub fn sqrtm_in<T: Real>(w: &mut [T], n: usize) -> Answer
    requires { Room n (T.floats w.old) }
    ensures replaced { Replaced (0 ∷ 1 ∷ 2 ∷ 3 ∷ 4 ∷ 5 ∷ []) n (square_root T.format n (slot n (T.floats w.old) 0)) result.outcome (T.floats w.old) (T.floats w.new) }
    ensures report_value { result.report ≡ report_at (square_root T.format n (slot n (T.floats w.old) 0)) (root_report T.format n (slot n (T.floats w.old) 0)) }
{
    if n == 1 {
        w[0] = w[0].sqrt();
        return done(0);
    }
    identity(w, 1, n);
    let made = root_passes(w, n);
    let pass = made.pass;
    if answers(pass) {
        let report = made.report;
        Answer {
            outcome: Ok(0),
            report,
        }
    } else {
        refused(Refusal::NotConverged)
    }
}
