// `f32` as a width of floats.
ghost use Rattle.std.specs.Prelude.{◌≡◌, false, ◌*◌, ◌^◌, ◌<◌, from_bits, to_bits};
ghost use Rattle.std.specs.Float.{binary32, binary64, nan};
ghost use Rattle.std.specs.Float.Ieee.{round};
ghost use Rattle.std.proofs.Common.{refl, ◌∙◌};
ghost use Rattle.std.proofs.lemmas.List.{get_or_default};
ghost use Rattle.arithmetic_floats.specs.Comparisons.{less_is_lt, at_most_is_le};
ghost use Rattle.arithmetic_floats.specs.Float.{+zero, one, half, +infinity, constant, epsilon};
ghost use Rattle.arithmetic_floats.specs.Root.{Scaled, sqrt_units};

use crate::real::Real;
use crate::root::root_digits;
use std::num::{f32_to_f64_with_nan, nearest_f64_to_f32_with_nan};

impl Real for f32 {
    ghost format = { binary32 };

    ghost float = { λ x. x };

    ghost floats = { λ l. l };

    const ZERO: f32 = 0.0;

    ghost ZERO = { +zero };

    const ONE: f32 = 1.0;

    ghost ONE = { one };

    const HALF: f32 = 0.5;

    ghost HALF = { half };

    const TENTH: f32 = 0.1;

    ghost TENTH = { constant binary32 (round binary64 false 1 10) };

    const INFINITY: f32 = 1.0 / 0.0;

    ghost INFINITY = { +infinity };

    const EPSILON: f32 = 1.1920929e-7;

    ghost EPSILON = { epsilon binary32 };

    fn constant(x: f64) -> f32 {
        nearest_f64_to_f32_with_nan(x)
    }

    fn widened(self) -> f64 {
        f32_to_f64_with_nan(self)
    }

    fn magnitude(self) -> f32 {
        if self != self {
            self
        } else {
            f32::from_bits(f32::to_bits(self) % 0x8000_0000)
        }
    }

    fn power_of_two(s: u64) -> f32 {
        f32::from_bits(((s + 127) * 0x80_0000) as u32)
    }

    fn inverse_power_of_two(s: u64) -> f32 {
        f32::from_bits(((127 - s) * 0x80_0000) as u32)
    }

    fn of_small(n: usize) -> f32 {
        n as f32
    }

    fn sqrt(self) -> f32 {
        if self > 0.0 {
            let bits = f32::to_bits(self) as u64;
            let field = bits >> 23;
            let digits = bits % 0x80_0000;
            if field == 0 {
                f32::from_bits(root_bits(digits, 0))
            } else if field < 255 {
                f32::from_bits(root_bits(digits + 0x80_0000, field - 1))
            } else {
                self
            }
        } else if self == 0.0 {
            self
        } else {
            0.0 / 0.0
        }
    }

    // Above 2^-22, and so its root above 2^-11.
    fn has_large_root(self) -> bool {
        self > 2.3841858e-7
    }

    ghost zero_law = { refl };

    ghost one_law = { refl };

    ghost half_law = { refl };

    ghost tenth_law = { refl };

    ghost infinity_law = { refl };

    ghost epsilon_law = { refl };

    ghost less_law = { less_is_lt };

    ghost at_most_law = { at_most_is_le };

    ghost can_neg_law = { λ a. tt };

    ghost neg_law = { λ a r h. h };

    ghost can_add_law = { λ a b. tt };

    ghost add_law = { λ a b r h. h };

    ghost can_sub_law = { λ a b. tt };

    ghost sub_law = { λ a b r h. h };

    ghost can_mul_law = { λ a b. tt };

    ghost mul_law = { λ a b r h. h };

    ghost can_div_law = { λ a b. tt };

    ghost div_law = { λ a b r h. h };

    ghost length_law = { λ l. refl };

    ghost item_law = { λ l k v e h. e ∙ get_or_default l k v nan h };

    ghost set_law = { λ l k v. refl };

    ghost take_law = { λ k l. refl };

    ghost drop_law = { λ k l. refl };

    ghost put_mid_law = { λ a k l m. refl };
}

// The bits of the root of significand * 2^exponent * 2^-149, the smallest value, as `root_bits` of the `f64` has them.
// The root of the aligned significand has 25 digits: the last decides the rounding.
fn root_bits(significand: u64, exponent: u64) -> u32
    requires { Scaled binary32 significand exponent }
    ensures { (from_bits binary32 result ≡ sqrt_units binary32 (significand * 2 ^ exponent)) × (result < 255 * 2 ^ 23) }
{
    let zeros = u64::leading_zeros(significand) as u64;
    let shift = zeros - (zeros + exponent + 149) % 2;
    let root = root_digits(significand << shift, 25);
    let unit = (exponent + 165 - shift) / 2;
    (unit * 0x80_0000 + (root + 1) / 2) as u32
}

// The bits of x. Those of every NaN are the same.
pub fn bits_of(x: f32) -> u32
    ensures { result ≡ to_bits binary32 x }
{
    if x != x { 0x7fc0_0000 } else { f32::to_bits(x) }
}

// The number with these bits.
pub fn float_of(bits: u32) -> f32
    ensures { result ≡ from_bits binary32 bits }
{
    if 0x7f80_0000 < bits % 0x8000_0000 {
        0.0 / 0.0
    } else {
        f32::from_bits(bits)
    }
}
