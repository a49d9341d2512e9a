// The exponential at a given number of halvings, in a workspace: the matrix of order n stands in slot 0, a power of it in slot 1, the Padé numerator in
// slot 2, the denominator in slot 3 and their quotient in slot 5. Slot 4 is scratch.
ghost use Rattle.std.specs.Prelude.{◌≡◌, ◌*◌, ◌<◌, ◌≤◌, length};
ghost use Rattle.arithmetic_matrices.specs.Workspace.{Room, slot, store};
ghost use Rattle.lu_factoring.specs.Pivots.{smallest_pivot};
ghost use Rattle.lu_factoring.specs.Solve.{stand_in};
ghost use Rattle.functions_definitions.specs.Exponential.{denominator, next_coefficient, flip as flip_of};
ghost use Rattle.functions_definitions.specs.Reports.{exponential_report, lu_report};
ghost use Rattle.functions_exponential.specs.Kernels.{Raised, Summed, PadeQuotient, Approximated, Exponentiated};

use arithmetic_floats::real::Real;
use arithmetic_matrices::workspace::{
    accumulate, copy, copy_in, identity, mult, scale, square, zero,
};
use arithmetic_questions::answer::Report;
use arithmetic_questions::report::factored;
use lu_factoring::Singular;
use lu_factoring::part::quotient_or_numerator;
use lu_factoring::room::pivot_room;
use lu_systems::workspace::{Division, divide_reporting};

// The Padé coefficient after c, which is coefficient k.
pub fn next_coefficient<T: Real>(c: T, k: usize) -> T
    requires { k < 14 }
    ensures { T.float result ≡ next_coefficient T.format k (T.float c) }
{
    c * T::of_small(13 - k) / T::of_small((k + 1) * (26 - k))
}

// c, negated at odd k.
pub fn flip<T: Real>(c: T, k: usize) -> T
    ensures { T.float result ≡ flip_of k (T.float c) }
{
    if k % 2 == 0 { c } else { -c }
}

// Power k in slot 1 becomes power k + 1.
pub fn raise<T: Real>(w: &mut [T], k: usize, n: usize)
    requires { Room n (T.floats w.old) }
    ensures { Raised T.format n k (T.floats w.old) (T.floats w.new) }
{
    if k == 0 {
        copy(w, 0, 1, n);
    } else {
        mult(w, 1, 0, 4, n);
        copy(w, 4, 1, n);
    }
}

// The Padé numerator and denominator, summed from +0 term by term.
pub fn pade_sums<T: Real>(w: &mut [T], n: usize)
    requires { Room n (T.floats w.old) }
    ensures { Summed T.format n (T.floats w.old) (T.floats w.new) }
{
    identity(w, 1, n);
    zero(w, 2, n);
    zero(w, 3, n);
    let mut c = T::ONE;
    for k in 0..14 {
        accumulate(w, 2, 1, c, n);
        accumulate(w, 3, 1, flip(c, k), n);
        raise(w, k, n);
        c = next_coefficient(c, k);
    }
}

// Slot 5 becomes the quotient of the numerator in slot 2 by the denominator in slot 3, or the numerator where LU refuses the denominator.
// `pivots` is room for n pivots.
fn pade_divide<T: Real>(w: &mut [T], n: usize, pivots: &mut [usize]) -> Division<T>
    requires room { Room n (T.floats w.old) }
    requires pivots_len { length pivots.old ≡ n }
    ensures pade_quotient { PadeQuotient T.format n (T.floats w.old) (T.floats w.new) result.outcome }
    ensures smallest_value { T.float result.smallest ≡ smallest_pivot T.format n (slot n (T.floats w.old) 3) }
{
    copy(w, 2, 5, n);
    divide_reporting(w, 768, 1280, n, n, pivots)
}

// Copies the part of the workspace that holds the quotient, or the part that holds the numerator.
fn copy_quotient<T: Real>(w: &[T], n: usize, outcome: Result<(), Singular>, out: &mut [T])
    requires room { Room n (T.floats w.now) }
    requires out_len { length out.old ≡ n * n }
    ensures { T.floats out.new ≡ stand_in outcome (slot n (T.floats w.now) 5) (slot n (T.floats w.now) 2) }
{
    let count = out.len();
    let quotient = quotient_or_numerator(&w[1280..], &w[512..], count, outcome);
    out.copy_from_slice(quotient);
}

// Room for a matrix of order up to 16.
fn matrix_room<T: Real>() -> [T; 256]
    ensures { 256 ≡ length result }
{
    [T::ZERO; 256]
}

// Slot 0 becomes the quotient, or the numerator where LU refused the denominator. It is copied by way of `room`.
fn move_quotient<T: Real>(w: &mut [T], n: usize, outcome: Result<(), Singular>, room: &mut [T])
    requires room { Room n (T.floats w.old) }
    requires room_len { length room.old ≡ n * n }
    ensures { T.floats w.new ≡ store (T.floats w.old) 0 (stand_in outcome (slot n (T.floats w.old) 5) (slot n (T.floats w.old) 2)) }
{
    copy_quotient(w, n, outcome, room);
    copy_in(w, 0, room);
}

// `move_quotient` with room of its own.
fn take_quotient<T: Real>(w: &mut [T], n: usize, outcome: Result<(), Singular>)
    requires { Room n (T.floats w.old) }
    ensures { T.floats w.new ≡ store (T.floats w.old) 0 (stand_in outcome (slot n (T.floats w.old) 5) (slot n (T.floats w.old) 2)) }
{
    let mut room = matrix_room();
    move_quotient(w, n, outcome, &mut room[..n * n]);
}

// The Padé quotient of the matrix in slot 0 takes its place.
fn pade<T: Real>(w: &mut [T], n: usize, pivots: &mut [usize]) -> Report
    requires room { Room n (T.floats w.old) }
    requires pivots_len { length pivots.old ≡ n }
    ensures approximated { Approximated T.format n (T.floats w.old) (T.floats w.new) }
    ensures value { result ≡ lu_report T.format n (denominator T.format n (slot n (T.floats w.old) 0)) }
{
    pade_sums(w, n);
    let d = pade_divide(w, n, pivots);
    let outcome = d.outcome;
    take_quotient(w, n, outcome);
    factored(d.smallest)
}

// The exponential of the matrix in slot 0 at s halvings takes its place.
fn exponential_in<T: Real>(w: &mut [T], n: usize, s: u64, pivots: &mut [usize]) -> Report
    requires room { Room n (T.floats w.old) }
    requires s_bound { (s ≤ 64) × (length pivots.old ≡ n) }
    ensures exponentiated { Exponentiated T.format n s (T.floats w.old) (T.floats w.new) }
    ensures value { result ≡ exponential_report T.format n s (slot n (T.floats w.old) 0) }
{
    scale(w, 0, T::inverse_power_of_two(s), n);
    let report = pade(w, n, pivots);
    square(w, 0, 4, n, s);
    report
}

// `exponential_in` with room of its own.
pub fn exponential_at<T: Real>(w: &mut [T], n: usize, s: u64) -> Report
    requires room { Room n (T.floats w.old) }
    requires s_bound { s ≤ 64 }
    ensures exponentiated { Exponentiated T.format n s (T.floats w.old) (T.floats w.new) }
    ensures value { result ≡ exponential_report T.format n s (slot n (T.floats w.old) 0) }
{
    let mut pivots = pivot_room();
    exponential_in(w, n, s, &mut pivots[..n])
}
