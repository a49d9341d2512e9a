// The report of a factoring, from a pivot of this width.
ghost use Rattle.std.specs.Prelude.{◌≡◌};
ghost use Rattle.arithmetic_questions.specs.Reports.{factored as factored_with};

use crate::answer::Report;
use arithmetic_floats::real::Real;

// The report of one factoring with this smallest pivot.
pub fn factored<T: Real>(smallest: T) -> Report
    ensures { result ≡ factored_with (T.float smallest) }
{
    Report {
        smallest: smallest.widened(),
        steps: 0,
        settled: true,
    }
}
