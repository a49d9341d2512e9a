// A sheet from its bytes to its lines.
ghost use Rattle.std.specs.Prelude.{◌≡◌, ◌≤◌, length};
ghost use Rattle.std.specs.Float.{binary64};
ghost use Rattle.sheet_encoding.specs.Limits.{output_limit};
ghost use Rattle.sheet_encoding.specs.Parse.{SheetIs};
ghost use Rattle.sheet_tasks.specs.Tasks.{workspace_length};
ghost use Rattle.sheet.specs.Lines.{task_lines, counted_lines, sheet_lines};
ghost use Rattle.sheet.specs.Kernels.{TasksRoom};
ghost use Rattle.sheet_encoding.specs.Kernels.{AllLines};

use arithmetic_matrices::workspace::small_room;
use sheet_encoding::line::put_sheet_refused;
use sheet_encoding::parse::{Counts, parse_sheet};
use sheet_encoding::position::exponent_at;
use sheet_encoding::reading::read_numbers;
use sheet_tasks::{Sheet, run_task};

// The lines of the sheet's tasks, the first at q. A refused task has its line like any other, and the next is run.
fn run_tasks(sheet: &Sheet<'_>, q: usize, w: &mut [f64], out: &mut [u8]) -> usize
    requires { TasksRoom sheet.now q out.old w.old }
    ensures { AllLines out.old (task_lines binary64 sheet.now.bytes.now sheet.now.counts.order sheet.now.counts.directions q sheet.now.counts.tasks) out.new result }
{
    let mut at = 0;
    for k in 0..sheet.counts.tasks {
        at = run_task(sheet, q + 2 * k, w, out, at, k + 1);
    }
    at
}

// Room for a workspace.
fn workspace_room() -> [f64; 8192]
    ensures { workspace_length ≡ length result }
{
    [0.0f64; 8192]
}

// The lines of an accepted sheet with these counts.
fn run_accepted(s: &[u8], counts: Counts, out: &mut [u8]) -> usize
    requires sheet_is { SheetIs s.now counts.order counts.directions counts.exponents counts.tasks }
    requires output_limit_in_bounds { output_limit ≤ length out.old }
    ensures { AllLines out.old (counted_lines binary64 s.now counts) out.new result }
{
    let n = counts.order;
    let mut numbers = small_room();
    read_numbers(s, 1, &mut numbers[..n * n]);
    let sheet = Sheet {
        bytes: s,
        counts,
        matrix: &numbers[..n * n],
    };
    let q = exponent_at(n, counts.directions, counts.exponents) + 1;
    run_tasks(&sheet, q, &mut workspace_room(), out)
}

// The lines of a sheet.
pub fn run(s: &[u8], out: &mut [u8]) -> usize
    requires { output_limit ≤ length out.old }
    ensures { AllLines out.old (sheet_lines binary64 s.now) out.new result }
{
    match parse_sheet(s) {
        Ok(counts) => run_accepted(s, counts, out),
        Err(why) => put_sheet_refused(out, why),
    }
}
