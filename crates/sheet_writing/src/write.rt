// The call that writes a sheet.
ghost use Rattle.std.specs.Prelude.{◌≡◌, length};
ghost use Rattle.arithmetic_questions.specs.Result.{outcome};
ghost use Rattle.sheet_writing.specs.Sections.{given};
ghost use Rattle.sheet_writing.specs.Written.{written, found, length_by, WroteSheet};

use crate::bytes::put_sheet;
use crate::questions::questions;
use crate::sections::Sections;
use sheet_encoding::parse::SheetRefusal;

// Writes the sheet of these sections to out: the length of the sheet, or why none was written.
pub fn write_sheet(sections: &Sections<'_>, out: &mut [u8]) -> Result<usize, SheetRefusal>
    ensures result_value { found result ≡ outcome (written (given sections.now) (length out.old)) }
    ensures wrote_sheet { WroteSheet (given sections.now) out.old out.new (length_by result) }
{
    questions(sections, out.len())?;
    Ok(put_sheet(sections, out))
}
