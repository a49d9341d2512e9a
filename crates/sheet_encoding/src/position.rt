// Where a direction or an exponent begins on a sheet.
ghost use Rattle.std.specs.Prelude.{◌≡◌, ◌≤◌, ◌<◌};
ghost use Rattle.sheet_encoding.specs.Parse.{direction_at, exponent_at};

// Direction i of a sheet of order n.
pub fn direction_at(n: usize, i: usize) -> usize
    requires { (n ≤ 8) × (i ≤ 8) }
    ensures { (result ≡ direction_at n i) × (result ≤ 5000) }
{
    let size = 8 * (n * n);
    1 + size + 1 + i * size
}

// Exponent i of a sheet of order n with d directions.
pub fn exponent_at(n: usize, d: usize, i: usize) -> usize
    requires { (n ≤ 8) × (d ≤ 8) × (i < 256) }
    ensures { (result ≡ exponent_at n d i) × (result ≤ 8000) }
{
    direction_at(n, d) + 1 + i * 8
}
