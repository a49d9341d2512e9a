// How often a matrix is halved before its series, and questions 12 and 17, which decide whether it may be.
ghost use Rattle.std.specs.Prelude.{◌≡◌};
ghost use Rattle.arithmetic_questions.specs.Answers.{reported};
ghost use Rattle.functions_definitions.specs.Powers.{halvings_report};

use arithmetic_floats::real::Real;
use arithmetic_questions::answer::Outcome;
use arithmetic_questions::question::{ask_halvings, ask_norm};

// The halvings that a norm sets, or refusal 12 or 17.
pub fn halvings_for<T: Real>(norm: T) -> Outcome
    ensures { reported result ≡ halvings_report (T.float norm) }
{
    ask_norm(norm)?;
    let halvings = norm.halvings();
    ask_halvings(halvings)?;
    Ok(halvings)
}
