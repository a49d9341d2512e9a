// Systems in slots of a workspace, with room of their own for pivots.
ghost use Rattle.std.specs.Prelude.{◌≡◌, false, ◌<◌, eqb};
ghost use Rattle.arithmetic_matrices.specs.Workspace.{Room, slot};
ghost use Rattle.lu_factoring.specs.Pivots.{smallest_pivot};
ghost use Rattle.functions_roots.specs.Kernels.{SlotQuotient};

use arithmetic_floats::real::Real;
use lu_factoring::room::pivot_room;
use lu_systems::workspace::{Division, divide_reporting};

// The matrix of order n in slot 2 is factored, and where all its columns pass slot x becomes the quotient of its own matrix by it.
pub fn divide_slot<T: Real>(w: &mut [T], x: usize, n: usize) -> Division<T>
    requires room { Room n (T.floats w.old) }
    requires x_bound { (x < 32) × (eqb 2 x ≡ false) }
    ensures slot_quotient { SlotQuotient T.format n x result.outcome (T.floats w.old) (T.floats w.new) }
    ensures smallest_value { T.float result.smallest ≡ smallest_pivot T.format n (slot n (T.floats w.old) 2) }
{
    let mut rows = pivot_room();
    divide_reporting(w, 512, 256 * x, n, n, &mut rows[..n])
}
