// The two entries, which sheet_c exports: one runs a sheet's tasks and writes a line for each, the other writes a sheet from its sections.
#![tactic(auto)]

ghost use Rattle.std.specs.Prelude.{◌≡◌, length};
ghost use Rattle.std.specs.Float.{binary64};
ghost use Rattle.arithmetic_questions.specs.Result.{outcome};
ghost use Rattle.sheet_writing.specs.Sections.{sections_of};
ghost use Rattle.sheet_writing.specs.Written.{written, why_of, WroteSheet};
ghost use Rattle.sheet.specs.Lines.{Entered};

use sheet_encoding::line::Code;

mod run;

pub use sheet_writing::{Sections, write_sheet};

// The lines of the sheet's tasks are written to out, and the number of bytes written is reported. An out of fewer than 35,500 bytes is refused
// before the sheet is read: 0 is reported, and no byte written.
pub fn axis_sheet(sheet: &[u8], out: &mut [u8]) -> usize
    ensures { Entered binary64 sheet.now out.old out.new result }
{
    if out.len() < 35500 {
        return 0;
    }
    run::run(sheet, out)
}

// `write_sheet` for another language: the length of the sheet is reported, and 0 beside a refusal, whose number and details are left in why. Where the sheet
// is written, why has three zeros. C passes no struct of slices, so the sections are eight parameters here.
pub fn axis_write(
    order: usize,
    matrix: &[u64],
    directions: usize,
    direction: &[u64],
    exponents: usize,
    exponent: &[u64],
    tasks: usize,
    task: &[u8],
    out: &mut [u8],
    why: &mut [u64; 3],
) -> usize
    ensures wrote_sheet { WroteSheet (sections_of order matrix.now directions direction.now exponents exponent.now tasks task.now) out.old out.new result }
    ensures why_after { why.new ≡ why_of (outcome (written (sections_of order matrix.now directions direction.now exponents exponent.now tasks task.now) (length out.old))) }
{
    let sections = Sections {
        order,
        matrix,
        directions,
        direction,
        exponents,
        exponent,
        tasks,
        task,
    };
    match write_sheet(&sections, out) {
        Ok(length) => {
            *why = [0; 3];
            length
        }
        Err(refusal) => {
            let code = Code::from(refusal);
            *why = [code.number as u64, code.first as u64, code.second as u64];
            0
        }
    }
}
