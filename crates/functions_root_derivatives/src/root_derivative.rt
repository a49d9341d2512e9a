// The derivative of the square root, in a workspace: the root S stands in slot 0 and the direction E in slot 6. The derivative goes to slot 1. The system
// S X + X T' = E of order n * n stands from slot 8 on, and its right-hand column in slot 7. T is S, or its transpose where `transposed` is true; T' is the
// transpose of T.
ghost use Rattle.std.specs.Prelude.{◌≡◌, true, ◌∷◌, ◌*◌, ◌≤◌, length};
ghost use Rattle.arithmetic_matrices.specs.Workspace.{Room, slot, store};
ghost use Rattle.arithmetic_questions.specs.Kernels.{ReplacedBoth};
ghost use Rattle.arithmetic_questions.specs.Reports.{report_at};
ghost use Rattle.lu_factoring.specs.Pivots.{smallest_pivot};
ghost use Rattle.functions_definitions.specs.Derivatives.{sylvester_matrix, scalar_derivative, root_derivative, root_with_derivative, sylvester as sylvester_of};
ghost use Rattle.functions_definitions.specs.Reports.{lu_report, root_derivative_report, root_with_derivative_report};
ghost use Rattle.functions_root_derivatives.specs.Kernels.{second_of, SystemSolved, Derived, derived_slots};

use crate::sylvester::sylvester_into;
use arithmetic_floats::real::Real;
use arithmetic_matrices::workspace::{copy_out, small_room, transpose};
use arithmetic_questions::answer::{Answer, Refusal, Report, beside, nothing, refused};
use arithmetic_questions::report::factored;
use functions_roots::square_root::sqrtm_in;
use lu_factoring::room::pivot_room;
use lu_systems::workspace::{Division, divide_reporting};

// Whether LU accepts the system of a derivative, and what its factoring reports. After a refusal the report does not matter.
#[derive(Clone, Copy)]
struct Derivation {
    accepted: bool,
    report: Report,
}

// The system's matrix is written from slot 8 on. s is room for S.
fn fill_system<T: Real>(w: &mut [T], n: usize, transposed: bool, s: &mut [T])
    requires { (n ≤ 8) × (n * n ≤ 64) × (8192 ≤ length w.old) × (length s.old ≡ n * n) }
    ensures { T.floats w.new ≡ store (T.floats w.old) 8 (sylvester_matrix T.format n (slot n (T.floats w.old) 0) (second_of transposed n (slot n (T.floats w.old) 0))) }
{
    copy_out(w, 0, s);
    let end = 2048 + (n * n) * (n * n);
    sylvester_into(n, s, transposed, &mut w[2048..end]);
}

// `fill_system` with room of its own.
fn load_system<T: Real>(w: &mut [T], n: usize, transposed: bool)
    requires { (n ≤ 8) × (n * n ≤ 64) × (8192 ≤ length w.old) }
    ensures { T.floats w.new ≡ store (T.floats w.old) 8 (sylvester_matrix T.format n (slot n (T.floats w.old) 0) (second_of transposed n (slot n (T.floats w.old) 0))) }
{
    let size = n * n;
    let mut s = small_room();
    fill_system(w, n, transposed, &mut s[..size]);
}

// The right-hand column becomes the solution, where LU accepts the system's matrix.
fn solve_system<T: Real>(w: &mut [T], n: usize) -> Division<T>
    requires { (n ≤ 8) × (n * n ≤ 64) × (8192 ≤ length w.old) }
    ensures system_solved { SystemSolved T.format n result.outcome (T.floats w.old) (T.floats w.new) }
    ensures smallest_value { T.float result.smallest ≡ smallest_pivot T.format (n * n) (slot (n * n) (T.floats w.old) 8) }
{
    let size = n * n;
    let mut rows = pivot_room();
    divide_reporting(w, 2048, 1792, size, 1, &mut rows[..size])
}

// The columns of X, one below the other, are the solution for those of E.
fn sylvester<T: Real>(w: &mut [T], n: usize, transposed: bool) -> Derivation
    requires room { Room n (T.floats w.old) }
    requires n_bound { (n ≤ 8) × (n * n ≤ 64) }
    ensures derived { Derived n (sylvester_of T.format n (slot n (T.floats w.old) 0) (second_of transposed n (slot n (T.floats w.old) 0)) (slot n (T.floats w.old) 6)) result.accepted (T.floats w.old) (T.floats w.new) }
    ensures report_value { result.accepted ≡ true → result.report ≡ lu_report T.format (n * n) (sylvester_matrix T.format n (slot n (T.floats w.old) 0) (second_of transposed n (slot n (T.floats w.old) 0))) }
{
    load_system(w, n, transposed);
    transpose(w, 6, 7, n);
    let d = solve_system(w, n);
    let outcome = d.outcome;
    match outcome {
        Ok(()) => {
            transpose(w, 7, 1, n);
            Derivation {
                accepted: true,
                report: factored(d.smallest),
            }
        }
        Err(_) => Derivation {
            accepted: false,
            report: nothing(),
        },
    }
}

// Of order 1: e / (2 r), or +0 where the root r is not above 0.
pub fn scalar_derivative<T: Real>(r: T, e: T) -> T
    ensures { T.float result ≡ scalar_derivative T.format (T.float r) (T.float e) }
{
    if T::ZERO < r {
        e / (T::power_of_two(1) * r)
    } else {
        T::ZERO
    }
}

// The derivative goes to slot 1. At order 1 there is no system.
fn derive_root<T: Real>(w: &mut [T], n: usize, transposed: bool) -> Derivation
    requires room { Room n (T.floats w.old) }
    requires n_bound { (n ≤ 8) × (n * n ≤ 64) }
    ensures derived { Derived n (root_derivative T.format n (slot n (T.floats w.old) 0) (second_of transposed n (slot n (T.floats w.old) 0)) (slot n (T.floats w.old) 6)) result.accepted (T.floats w.old) (T.floats w.new) }
    ensures report_value { result.accepted ≡ true → result.report ≡ root_derivative_report T.format n (slot n (T.floats w.old) 0) (second_of transposed n (slot n (T.floats w.old) 0)) }
{
    if n == 1 {
        w[256] = scalar_derivative(w[0], w[1536]);
        return Derivation {
            accepted: true,
            report: nothing(),
        };
    }
    sylvester(w, n, transposed)
}

// The square root goes to slot 0, and its derivative in the direction of slot 6 to slot 1.
pub fn root_derivative_in<T: Real>(w: &mut [T], n: usize, transposed: bool) -> Answer
    requires room { Room n (T.floats w.old) }
    requires n_bound { (n ≤ 8) × (n * n ≤ 64) }
    ensures replaced_both { ReplacedBoth (0 ∷ 2 ∷ 3 ∷ 4 ∷ 5 ∷ derived_slots) n (root_with_derivative T.format n (second_of transposed n) (slot n (T.floats w.old) 0) (slot n (T.floats w.old) 6)) result.outcome (T.floats w.old) (T.floats w.new) }
    ensures report_value { result.report ≡ report_at (root_with_derivative T.format n (second_of transposed n) (slot n (T.floats w.old) 0) (slot n (T.floats w.old) 6)) (root_with_derivative_report T.format n (second_of transposed n) (slot n (T.floats w.old) 0)) }
{
    let root = sqrtm_in(w, n);
    let outcome = root.outcome;
    match outcome {
        Ok(_) => {
            let derivation = derive_root(w, n, transposed);
            if derivation.accepted {
                Answer {
                    outcome: Ok(0),
                    report: beside(root.report, derivation.report),
                }
            } else {
                refused(Refusal::NotConverged)
            }
        }
        Err(why) => refused(why),
    }
}
