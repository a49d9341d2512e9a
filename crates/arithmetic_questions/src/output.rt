// The end of a call: its outputs are written where it is done, and the workspace is cleared where `clears` says so.
ghost use Rattle.std.specs.Prelude.{◌≡◌, ◌≤◌, length};
ghost use Rattle.arithmetic_matrices.specs.Matrix.{part};
ghost use Rattle.arithmetic_questions.specs.Kernels.{Delivered, DeliveredBoth};

use crate::answer::Answer;
use arithmetic_floats::real::Real;
use arithmetic_matrices::workspace::{clear_where, copy_out};

// What stands from slot 0 on is written to out, where the answer is done. The answer is handed on.
pub fn deliver<T: Real>(answer: Answer, out: &mut [T], w: &mut [T], clears: bool) -> Answer
    requires { (length out.old ≤ 8192) × (8192 ≤ length w.old) }
    ensures delivered { Delivered clears answer.outcome result.outcome (part (T.floats w.old) 0 (length out.old)) (T.floats out.old) (T.floats out.new) (T.floats w.old) (T.floats w.new) }
    ensures report_value { result.report ≡ answer.report }
{
    let outcome = answer.outcome;
    match outcome {
        Ok(_) => {
            copy_out(w, 0, out);
            clear_where(w, clears);
            answer
        }
        Err(_) => {
            clear_where(w, clears);
            answer
        }
    }
}

// What stands in slot 0 is written to first, and what stands in slot 1 to second.
pub fn deliver_both<T: Real>(
    answer: Answer,
    first: &mut [T],
    second: &mut [T],
    w: &mut [T],
    clears: bool,
) -> Answer
    requires { (length first.old ≤ 256) × (length second.old ≤ 256) × (8192 ≤ length w.old) }
    ensures delivered_both { DeliveredBoth clears answer.outcome result.outcome (part (T.floats w.old) 0 (length first.old)) (part (T.floats w.old) 256 (length second.old)) (T.floats first.old) (T.floats first.new) (T.floats second.old) (T.floats second.new) (T.floats w.old) (T.floats w.new) }
    ensures report_value { result.report ≡ answer.report }
{
    let outcome = answer.outcome;
    match outcome {
        Ok(_) => {
            copy_out(w, 0, first);
            copy_out(w, 1, second);
            clear_where(w, clears);
            answer
        }
        Err(_) => {
            clear_where(w, clears);
            answer
        }
    }
}
