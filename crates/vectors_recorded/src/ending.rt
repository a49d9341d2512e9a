// A call's outcome and report as they are recorded.
ghost use Rattle.vectors_recorded.specs.Remaining.{IsEndOf};

use crate::reader::Reader;
use arithmetic::{Outcome, Refusal, Report, smallest_bits};

// An outcome: number 0 and the halvings, or the refusal's number and its two details.
#[derive(Clone, Copy, PartialEq, Eq)]
pub struct Ending {
    pub number: u64,
    pub first: u64,
    pub second: u64,
}

// An outcome and a report, of which the smallest pivot is its bits.
#[derive(Clone, Copy, PartialEq, Eq)]
pub struct Recorded {
    pub ending: Ending,
    pub smallest: u64,
    pub steps: u64,
    pub settled: bool,
}

// The bits of plus infinity, which a refused call reports.
pub const INFINITY: u64 = 0x7ff0_0000_0000_0000;

// A refusal has its number in documents 01 and 02.
impl From<Refusal> for Ending {
    fn from(why: Refusal) -> Ending {
        let (number, first, second) = match why {
            Refusal::EmptyMatrix => (1, 0, 0),
            Refusal::NotSquare(rows, columns) => (2, rows, columns),
            Refusal::CompanionShape(rows, columns) => (3, rows, columns),
            Refusal::TooLarge(count, limit) => (4, count, limit),
            Refusal::WrongLength(count, wanted) => (5, count, wanted),
            Refusal::EntryNotFinite(i, j) => (6, i, j),
            Refusal::DirectionNotFinite(i, j) => (7, i, j),
            Refusal::ExponentNotFinite => (8, 0, 0),
            Refusal::PivotOutOfRange(k, pivot) => (9, k, pivot),
            Refusal::NotDefined => (10, 0, 0),
            Refusal::OrderOne => (11, 0, 0),
            Refusal::NormNotFinite => (12, 0, 0),
            Refusal::NotConverged => (13, 0, 0),
            Refusal::SingularColumn(k) => (14, k, 0),
            Refusal::TooManyHalvings(s) => (17, s, 0),
        };
        Ending {
            number,
            first: first as u64,
            second: second as u64,
        }
    }
}

impl From<Outcome> for Ending {
    fn from(outcome: Outcome) -> Ending {
        match outcome {
            Ok(halvings) => Ending {
                number: 0,
                first: halvings,
                second: 0,
            },
            Err(why) => Ending::from(why),
        }
    }
}

impl Recorded {
    // A call's outcome and report, as they would be recorded.
    pub fn of(outcome: Outcome, report: Report) -> Recorded {
        Recorded {
            ending: Ending::from(outcome),
            smallest: smallest_bits(report),
            steps: report.steps,
            settled: report.settled,
        }
    }
}

// Reads a recorded outcome: `ok HALVINGS SMALLEST STEPS SETTLED`, or `no NUMBER DETAIL DETAIL`.
pub fn read_recorded(reader: &mut Reader) -> Recorded
    ensures { IsEndOf reader.old.rest.now reader.new.rest.now }
{
    let is_done = reader.rest.starts_with(b"ok ");
    reader.skip_past(b' ');
    if is_done {
        Recorded {
            ending: Ending {
                number: 0,
                first: reader.word(),
                second: 0,
            },
            smallest: reader.word(),
            steps: reader.word(),
            settled: reader.word() == 1,
        }
    } else {
        Recorded {
            ending: Ending {
                number: reader.word(),
                first: reader.word(),
                second: reader.word(),
            },
            smallest: INFINITY,
            steps: 0,
            settled: false,
        }
    }
}
