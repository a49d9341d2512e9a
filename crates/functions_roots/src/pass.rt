// The passes of an iteration that stops early or fails.
ghost use Rattle.std.specs.Prelude.{◌≡◌};
ghost use Rattle.std.specs.Float.Ieee.{lt};
ghost use Rattle.arithmetic_floats.specs.Root.{sqrt_of};
ghost use Rattle.functions_definitions.specs.Roots.{root_tolerance};
ghost use Rattle.functions_roots.specs.Kernels.{tested, answered};

use arithmetic_floats::real::Real;
use arithmetic_questions::answer::Report;

// What a pass makes of its iteration.
#[derive(Clone, Copy)]
pub enum Pass {
    Running,
    Stopped,
    Failed,
}

// What a pass, or several, make of their iteration, and what they report. After a failure the report does not matter.
#[derive(Clone, Copy)]
pub struct Passed {
    pub pass: Pass,
    pub report: Report,
}

// A root's pass is the last where the Frobenius norm of the change, the root of `sum`, is below 100 times the distance from 1 to the next number.
// Where the root is plainly larger it is not worked out.
pub fn root_verdict<T: Real>(sum: T) -> Pass
    ensures { result ≡ tested (lt (sqrt_of T.format (T.float sum)) (root_tolerance T.format)) }
{
    if sum.has_large_root() {
        return Pass::Running;
    }
    if sum.sqrt() < T::EPSILON * T::of_small(100) {
        Pass::Stopped
    } else {
        Pass::Running
    }
}

// Whether an iteration has a result: running out of passes still answers.
pub fn answers(pass: Pass) -> bool
    ensures { result ≡ answered pass }
{
    match pass {
        Pass::Running => true,
        Pass::Stopped => true,
        Pass::Failed => false,
    }
}
