// Numbers of `f64` one by one: the halvings of a norm, and rounding to a whole number. Those of an `f32` are those of the same number as an `f64`.
ghost use Rattle.std.specs.Prelude.{◌≡◌, ◌+◌, ◌*◌, ◌^◌, ◌<◌, ◌≤◌, T, from_bits, to_bits};
ghost use Rattle.std.specs.Float.{binary64};
ghost use Rattle.std.specs.Float.Ieee.{to_signed};
ghost use Rattle.std.specs.Float.Ieee.Scale.{finite};
ghost use Rattle.std.specs.Float.Ieee.Positive.{num, den};
ghost use Rattle.arithmetic_floats.specs.Float.{halvings, Least, half_up, round_away, near_integer, integer_of};

use crate::real::Real;

// The least s with the magnitude of norm at most 2^s: the exponent, or one more where the significand is above 1.
pub fn halvings_of(norm: f64) -> u64
    requires { T (finite norm) }
    ensures value { result ≡ halvings norm }
    ensures least { Least (num norm) (den norm) result }
{
    let size = norm.magnitude();
    if size <= 1.0 {
        0
    } else {
        let bits = f64::to_bits(size);
        let exponent = (bits >> 52) - 1023;
        if bits % 0x10_0000_0000_0000 == 0 {
            exponent
        } else {
            exponent + 1
        }
    }
}

// The value with these bits, which is not negative and below 2^52, plus a half, without its fraction.
fn half_up(bits: u64) -> u64
    requires { bits < 1075 * 2 ^ 52 }
    ensures { (result ≡ half_up (from_bits binary64 bits)) × (result ≤ 2 ^ 52) }
{
    let field = bits >> 52;
    if field < 1022 {
        0
    } else {
        let digits = bits % 0x10_0000_0000_0000 + 0x10_0000_0000_0000;
        ((digits >> (1074 - field)) + 1) / 2
    }
}

// The nearest whole number, a half away from zero. From 2^52 on every value is whole.
pub fn round(x: f64) -> f64
    ensures { result ≡ round_away binary64 x }
{
    if x != x {
        x
    } else {
        let size = f64::to_bits(x.magnitude());
        if size < 0x4330_0000_0000_0000 {
            let whole = half_up(size) as f64;
            if f64::to_bits(x) < 0x8000_0000_0000_0000 {
                whole
            } else {
                -whole
            }
        } else {
            x
        }
    }
}

// x without its fraction, held at the ends of the range, and 0 for a NaN.
pub fn to_i64(x: f64) -> i64
    ensures { result ≡ to_signed 63 x }
{
    if x != x {
        0
    } else if x >= 9223372036854775808.0 {
        i64::MAX
    } else if x < -9223372036854775808.0 {
        i64::MIN
    } else {
        std::num::truncating_f64_to_i64(x)
    }
}

// Whether p is taken for a whole number: it is within 1e-14 of its rounding.
pub fn is_integer(p: f64) -> bool
    ensures { result ≡ near_integer binary64 (from_bits binary64 0x3d06_849b_86a1_2b9b) p }
{
    (p - round(p)).magnitude() < 1e-14
}

// The whole number that p is taken for, held at the ends of an `i64`.
pub fn integer_of(p: f64) -> i64
    ensures { result ≡ integer_of binary64 p }
{
    to_i64(round(p))
}
