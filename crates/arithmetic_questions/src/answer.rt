// What a call answers: done, with its halvings, or refused, with the details of the refusal; and what its run reports. A report is the same in both widths.
ghost use Rattle.std.specs.Prelude.{◌≡◌, ◌+◌, ◌<◌};
ghost use Rattle.std.specs.Float.{binary64};
ghost use Rattle.std.specs.Float.Ieee.{to_bits};
ghost use Rattle.arithmetic_questions.specs.Result.{done as done_with};
ghost use Rattle.arithmetic_questions.specs.Answers.{numbered, reported};
ghost use Rattle.arithmetic_questions.specs.Reports.{nothing as nothing_reported, iterated as iterated_of, beside as beside_of, refused_report, report_at};

use arithmetic_floats::compare::smaller;
use arithmetic_floats::double::bits_of;

// Why a call is refused. specs/Answers.antt gives each case its number.
#[derive(Clone, Copy)]
pub enum Refusal {
    EmptyMatrix,
    NotSquare(usize, usize),
    CompanionShape(usize, usize),
    TooLarge(usize, usize),
    WrongLength(usize, usize),
    EntryNotFinite(usize, usize),
    DirectionNotFinite(usize, usize),
    ExponentNotFinite,
    PivotOutOfRange(usize, usize),
    NotDefined,
    OrderOne,
    NormNotFinite,
    NotConverged,
    SingularColumn(usize),
    TooManyHalvings(usize),
}

// How a call ended: done, with its halvings, or refused.
pub type Outcome = Result<u64, Refusal>;

// What an answer reports beside its outcome.
// smallest: the smallest magnitude of a pivot over all LU factorings of the run that succeeded, NaN pivots skipped; plus infinity where there is none, and
// in a refused call.
// steps: the passes of all root iterations and the terms of all series after the first, the last ones included; 0 in a refused call.
// settled: whether each iteration was ended by its own test, and each logarithm's roots left a matrix near I; yes where there is none, no in a refused call.
#[derive(Clone, Copy)]
pub struct Report {
    pub smallest: f64,
    pub steps: u64,
    pub settled: bool,
}

#[derive(Clone, Copy)]
pub struct Answer {
    pub outcome: Outcome,
    pub report: Report,
}

// The bits of the smallest pivot.
pub fn smallest_bits(report: Report) -> u64
    ensures { result ≡ to_bits binary64 report.smallest }
{
    bits_of(report.smallest)
}

// The report of the steps of an iteration, beside what they factor.
pub fn iterated(steps: u64, settled: bool) -> Report
    ensures { result ≡ iterated_of steps settled }
{
    Report {
        smallest: 1.0 / 0.0,
        steps,
        settled,
    }
}

// The report of a part that factors nothing and has no iteration.
pub fn nothing() -> Report
    ensures { result ≡ nothing_reported }
{
    iterated(0, true)
}

// The report of two parts of a run.
pub fn beside(a: Report, b: Report) -> Report
    requires { a.steps + b.steps < 18446744073709551616 }
    ensures { result ≡ beside_of a b }
{
    Report {
        smallest: smaller(a.smallest, b.smallest),
        steps: a.steps + b.steps,
        settled: a.settled && b.settled,
    }
}

// The report of a refused call.
fn refused_report() -> Report
    ensures { result ≡ refused_report }
{
    iterated(0, false)
}

// The answer that carries a refusal.
pub fn refused(why: Refusal) -> Answer
    ensures outcome_value { reported result.outcome ≡ numbered why }
    ensures report_value { result.report ≡ refused_report }
{
    Answer {
        outcome: Err(why),
        report: refused_report(),
    }
}

// The answer of a call that is done, factored nothing and had no iteration.
pub fn done(halvings: u64) -> Answer
    ensures outcome_value { reported result.outcome ≡ done_with halvings tt }
    ensures report_value { result.report ≡ nothing_reported }
{
    Answer {
        outcome: Ok(halvings),
        report: nothing(),
    }
}

// The answer with this outcome, which reports `report` where it is done.
pub fn answering(outcome: Outcome, report: Report) -> Answer
    ensures outcome_value { result.outcome ≡ outcome }
    ensures report_value { result.report ≡ report_at (reported outcome) report }
{
    match outcome {
        Ok(halvings) => Answer {
            outcome: Ok(halvings),
            report,
        },
        Err(why) => Answer {
            outcome: Err(why),
            report: refused_report(),
        },
    }
}
