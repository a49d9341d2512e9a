// The square root, and its digits, worked out in whole numbers.
ghost use Rattle.std.specs.Prelude.{◌≡◌, ◌+◌, ◌*◌, ◌^◌, ◌<◌, ◌≤◌, T as Holds};
ghost use Rattle.std.specs.Float.Ieee.Positive.{positive};
ghost use Rattle.arithmetic_floats.specs.Root.{sqrt_of, NearestRoot};

use crate::real::Real;

// The square root. Of a finite number above zero it is the nearest value of its width to the exact root, by compared squares.
// A zero keeps its sign, and a number below zero gives NaN.
pub fn sqrt<T: Real>(x: T) -> T
    ensures value { T.float result ≡ sqrt_of T.format (T.float x) }
    ensures nearest_root { Holds (positive (T.float x)) → NearestRoot T.format (T.float x) (T.float result) }
{
    x.sqrt()
}

// The first `steps` binary digits of the root of `radicand`, which is read as a fraction of 2^64:
// the whole part of the root of radicand * 4^steps / 2^64. One digit a turn, from the radicand's two
// next digits: `root * root + rem` is the part of it that was read.
pub fn root_digits(radicand: u64, steps: u64) -> u64
    requires { steps ≤ 60 }
    ensures { (result * result * 2 ^ 64 ≤ radicand * 4 ^ steps) × (radicand * 4 ^ steps < (result + 1) * (result + 1) * 2 ^ 64) }
{
    let mut rest = radicand;
    let mut root: u64 = 0;
    let mut rem: u64 = 0;
    for i in 0..steps {
        let next = rem * 4 + (rest >> 62);
        let trial = root * 4 + 1;
        rest = rest << 2;
        if trial <= next {
            rem = next - trial;
            root = root * 2 + 1;
        } else {
            rem = next;
            root = root * 2;
        }
    }
    root
}
