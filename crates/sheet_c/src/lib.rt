// The entries of the crate sheet under their names for C: tools/static-libraries makes libsheet.a of this crate, and host/include/axis.h declares them.
#![tactic(auto)]

ghost use Rattle.std.specs.Prelude.{◌≡◌, length};
ghost use Rattle.std.specs.Float.{binary64};
ghost use Rattle.arithmetic_questions.specs.Result.{outcome};
ghost use Rattle.sheet_writing.specs.Sections.{sections_of};
ghost use Rattle.sheet_writing.specs.Written.{written, why_of, WroteSheet};
ghost use Rattle.sheet.specs.Lines.{Entered};

// `axis_sheet` of the crate sheet.
#[unsafe(no_mangle)]
pub extern "C" fn axis_sheet(sheet: &[u8], out: &mut [u8]) -> usize
    ensures { Entered binary64 sheet.now out.old out.new result }
{
    sheet::axis_sheet(sheet, out)
}

// `axis_write` of the crate sheet.
#[unsafe(no_mangle)]
pub extern "C" fn axis_write(
    order: usize,
    matrix: &[u64],
    directions: usize,
    direction: &[u64],
    exponents: usize,
    exponent: &[u64],
    tasks: usize,
    task: &[u8],
    out: &mut [u8],
    why: &mut [u64; 3],
) -> usize
    ensures wrote_sheet { WroteSheet (sections_of order matrix.now directions direction.now exponents exponent.now tasks task.now) out.old out.new result }
    ensures why_after { why.new ≡ why_of (outcome (written (sections_of order matrix.now directions direction.now exponents exponent.now tasks task.now) (length out.old))) }
{
    sheet::axis_write(
        order, matrix, directions, direction, exponents, exponent, tasks, task, out, why,
    )
}
