// Comparisons of floats of either width.
ghost use Rattle.std.specs.Prelude.{◌≡◌};
ghost use Rattle.std.specs.Float.Ieee.Scale.{finite};
ghost use Rattle.arithmetic_floats.specs.Float.{larger, smaller};

use crate::real::Real;

// b where a < b, and a otherwise.
pub fn larger<T: Real>(a: T, b: T) -> T
    ensures { T.float result ≡ larger (T.float a) (T.float b) }
{
    if a < b { b } else { a }
}

// b where b < a, and a otherwise.
pub fn smaller<T: Real>(a: T, b: T) -> T
    ensures { T.float result ≡ smaller (T.float a) (T.float b) }
{
    if b < a { b } else { a }
}

// Neither an infinity nor NaN.
pub fn is_finite<T: Real>(x: T) -> bool
    ensures { result ≡ finite (T.float x) }
{
    -T::INFINITY < x && x < T::INFINITY
}
