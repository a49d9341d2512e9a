// The widths of floats. Code that is generic over `Real` is proved once for both.
ghost use Rattle.std.specs.Prelude.{◌≡◌, true, false, ◌^◌, ◌<◌, ◌≤◌, T, ℕ, List, pos, length, get_or, set, take, drop, from_bits};
ghost use Rattle.std.specs.Float.{Float, Format, binary64, nan};
ghost use Rattle.std.specs.Float.Ieee as Ieee;
ghost use Rattle.std.specs.Float.Ieee.{of_int, round, emax, prec};
ghost use Rattle.std.specs.Float.Ieee.Scale.{finite};
ghost use Rattle.std.specs.Float.Ieee.Positive.{positive, num, den};
ghost use Rattle.std.specs.Ordering.{partial_lt, partial_le};
ghost use borrow.Rule.Slice.PartMut.{put_mid};
ghost use Rattle.arithmetic_floats.specs.Float.{+zero, one, half, +infinity, constant, epsilon, halvings, Least, power_of_two, inverse_power_of_two, near_integer, integer_of, LowBits, magnitude};
ghost use Rattle.arithmetic_floats.specs.Root.{sqrt_of, NearestRoot, hundred_steps};

use crate::float::{halvings_of, integer_of, is_integer};
use std::ops::{Add, Div, Mul, Neg, Sub};

// A width of floats: `f32` or `f64`. A contract sees a value `x` as `T.float x`, and a list of values as `T.floats`.
pub trait Real: Copy
    + PartialOrd
    + Neg<Output = Self>
    + Add<Self, Output = Self>
    + Sub<Self, Output = Self>
    + Mul<Self, Output = Self>
    + Div<Self, Output = Self> {
    ghost format: { Format };

    ghost float: { Self → Float };

    ghost floats: { List Self → List Float };

    const ZERO: Self;

    ghost ZERO: { Self };

    const ONE: Self;

    ghost ONE: { Self };

    const HALF: Self;

    ghost HALF: { Self };

    // 0.1, rounded as an `f64` and then to this width.
    const TENTH: Self;

    ghost TENTH: { Self };

    const INFINITY: Self;

    ghost INFINITY: { Self };

    // The distance from 1 to the next number.
    const EPSILON: Self;

    ghost EPSILON: { Self };

    // The `f64` number x in this width.
    fn constant(x: f64) -> Self
        ensures { float result ≡ constant format x };

    // This number as an `f64`, which holds every number of this width.
    fn widened(self) -> f64
        ensures { result ≡ float self };

    fn magnitude(self) -> Self
        ensures value { float result ≡ magnitude (float self) }
        ensures low_bits { LowBits format (float self) (float result) };

    // The least s with the magnitude of this number at most 2^s.
    final fn halvings(self) -> u64
        requires { T (finite (float self)) }
        ensures value { result ≡ halvings (float self) }
        ensures least { Least (num (float self)) (den (float self)) result }
    {
        halvings_of(self.widened())
    }

    // 2^s.
    fn power_of_two(s: u64) -> Self
        requires { s ≤ emax format }
        ensures { float result ≡ power_of_two s };

    // 2^-s.
    fn inverse_power_of_two(s: u64) -> Self
        requires { s < emax format }
        ensures { float result ≡ inverse_power_of_two s };

    // The whole number n, which is a value of its own.
    fn of_small(n: usize) -> Self
        requires { n ≤ 2 ^ prec format }
        ensures { float result ≡ of_int format (pos n) };

    // Whether this number is taken for a whole number, by the test of an `f64`.
    final fn is_integer(self) -> bool
        ensures { result ≡ near_integer binary64 (from_bits binary64 0x3d06_849b_86a1_2b9b) (float self) }
    {
        is_integer(self.widened())
    }

    // The whole number that this number is taken for, held at the ends of an `i64`.
    final fn integer_of(self) -> i64
        ensures { result ≡ integer_of binary64 (float self) }
    {
        integer_of(self.widened())
    }

    // The square root. Of a finite number above zero it is the nearest value of this width to the exact root, by compared squares.
    fn sqrt(self) -> Self
        ensures value { float result ≡ sqrt_of format (float self) }
        ensures nearest_root { T (positive (float self)) → NearestRoot format (float self) (float result) };

    // Whether the root of this number is plainly not below a hundred times `EPSILON`, by one comparison and without the root.
    fn has_large_root(self) -> bool
        ensures { result ≡ true → Ieee.lt (sqrt_of format (float self)) (hundred_steps format) ≡ false };

    ghost zero_law: { float ZERO ≡ +zero };

    ghost one_law: { float ONE ≡ one };

    ghost half_law: { float HALF ≡ half };

    ghost tenth_law: { float TENTH ≡ constant format (round binary64 false 1 10) };

    ghost infinity_law: { float INFINITY ≡ +infinity };

    ghost epsilon_law: { float EPSILON ≡ epsilon format };

    // The comparisons and the operators are IEEE 754's, and each may always be used.
    ghost less_law: { (a b : Self) → partial_lt Self.partial_cmp a b ≡ Ieee.lt (float a) (float b) };

    ghost at_most_law: { (a b : Self) → partial_le Self.partial_cmp a b ≡ Ieee.le (float a) (float b) };

    ghost can_neg_law: { (a : Self) → Self.can_neg a };

    ghost neg_law: { (a r : Self) → Self.neg_gives a r → float r ≡ Ieee.neg (float a) };

    ghost can_add_law: { (a b : Self) → Self.can_add a b };

    ghost add_law: { (a b r : Self) → Self.add_gives a b r → float r ≡ Ieee.add format (float a) (float b) };

    ghost can_sub_law: { (a b : Self) → Self.can_sub a b };

    ghost sub_law: { (a b r : Self) → Self.sub_gives a b r → float r ≡ Ieee.sub format (float a) (float b) };

    ghost can_mul_law: { (a b : Self) → Self.can_mul a b };

    ghost mul_law: { (a b r : Self) → Self.mul_gives a b r → float r ≡ Ieee.mul format (float a) (float b) };

    ghost can_div_law: { (a b : Self) → Self.can_div a b };

    ghost div_law: { (a b r : Self) → Self.div_gives a b r → float r ≡ Ieee.div format (float a) (float b) };

    // A list is seen number by number.
    ghost length_law: { (l : List Self) → length (floats l) ≡ length l };

    ghost item_law: { (l : List Self) (k : ℕ) (v : Self) → v ≡ get_or l k v → k < length l → float v ≡ get_or (floats l) k nan };

    ghost set_law: { (l : List Self) (k : ℕ) (v : Self) → floats (set l k v) ≡ set (floats l) k (float v) };

    ghost take_law: { (k : ℕ) (l : List Self) → floats (take k l) ≡ take k (floats l) };

    ghost drop_law: { (k : ℕ) (l : List Self) → floats (drop k l) ≡ drop k (floats l) };

    ghost put_mid_law: { (a k : ℕ) (l m : List Self) → floats (put_mid a k l m) ≡ put_mid a k (floats l) (floats m) };
}
