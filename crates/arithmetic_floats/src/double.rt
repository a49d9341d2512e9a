// `f64` as a width of floats.
ghost use Rattle.std.specs.Prelude.{◌≡◌, false, ◌*◌, ◌^◌, ◌<◌, from_bits, to_bits};
ghost use Rattle.std.specs.Float.{binary64, nan};
ghost use Rattle.std.specs.Float.Ieee.{round};
ghost use Rattle.std.proofs.Common.{refl, ◌∙◌};
ghost use Rattle.std.proofs.lemmas.List.{get_or_default};
ghost use Rattle.arithmetic_floats.specs.Comparisons.{less_is_lt, at_most_is_le};
ghost use Rattle.arithmetic_floats.specs.Float.{+zero, one, half, +infinity, constant, epsilon};
ghost use Rattle.arithmetic_floats.specs.Root.{Scaled, sqrt_units};

use crate::real::Real;
use crate::root::root_digits;

impl Real for f64 {
    ghost format = { binary64 };

    ghost float = { λ x. x };

    ghost floats = { λ l. l };

    const ZERO: f64 = 0.0;

    ghost ZERO = { +zero };

    const ONE: f64 = 1.0;

    ghost ONE = { one };

    const HALF: f64 = 0.5;

    ghost HALF = { half };

    const TENTH: f64 = 0.1;

    ghost TENTH = { constant binary64 (round binary64 false 1 10) };

    const INFINITY: f64 = 1.0 / 0.0;

    ghost INFINITY = { +infinity };

    const EPSILON: f64 = 2.220446049250313e-16;

    ghost EPSILON = { epsilon binary64 };

    fn constant(x: f64) -> f64 {
        x
    }

    fn widened(self) -> f64 {
        self
    }

    fn magnitude(self) -> f64 {
        if self != self {
            self
        } else {
            f64::from_bits(f64::to_bits(self) % 0x8000_0000_0000_0000)
        }
    }

    fn power_of_two(s: u64) -> f64 {
        f64::from_bits((s + 1023) * 0x10_0000_0000_0000)
    }

    fn inverse_power_of_two(s: u64) -> f64 {
        f64::from_bits((1023 - s) * 0x10_0000_0000_0000)
    }

    fn of_small(n: usize) -> f64 {
        n as f64
    }

    fn sqrt(self) -> f64 {
        if self > 0.0 {
            let bits = f64::to_bits(self);
            let field = bits >> 52;
            let digits = bits % 0x10_0000_0000_0000;
            if field == 0 {
                f64::from_bits(root_bits(digits, 0))
            } else if field < 2047 {
                f64::from_bits(root_bits(digits + 0x10_0000_0000_0000, field - 1))
            } else {
                self
            }
        } else if self == 0.0 {
            self
        } else {
            0.0 / 0.0
        }
    }

    // Above 2^-80, and so its root above 2^-40.
    fn has_large_root(self) -> bool {
        self > 8.271806125530277e-25
    }

    ghost zero_law = { refl };

    ghost one_law = { refl };

    ghost half_law = { refl };

    ghost tenth_law = { refl };

    ghost infinity_law = { refl };

    ghost epsilon_law = { refl };

    ghost less_law = { less_is_lt };

    ghost at_most_law = { at_most_is_le };

    ghost can_neg_law = { λ a. tt };

    ghost neg_law = { λ a r h. h };

    ghost can_add_law = { λ a b. tt };

    ghost add_law = { λ a b r h. h };

    ghost can_sub_law = { λ a b. tt };

    ghost sub_law = { λ a b r h. h };

    ghost can_mul_law = { λ a b. tt };

    ghost mul_law = { λ a b r h. h };

    ghost can_div_law = { λ a b. tt };

    ghost div_law = { λ a b r h. h };

    ghost length_law = { λ l. refl };

    ghost item_law = { λ l k v e h. e ∙ get_or_default l k v nan h };

    ghost set_law = { λ l k v. refl };

    ghost take_law = { λ k l. refl };

    ghost drop_law = { λ k l. refl };

    ghost put_mid_law = { λ a k l m. refl };
}

// The bits of the root of significand * 2^exponent * 2^-1074, the smallest value. The significand is
// moved up to the top of 64 digits, or to one below so that the power of two that is left is even.
// The root of it has 54 digits: the last decides the rounding, since the root is never half way.
fn root_bits(significand: u64, exponent: u64) -> u64
    requires { Scaled binary64 significand exponent }
    ensures { (from_bits binary64 result ≡ sqrt_units binary64 (significand * 2 ^ exponent)) × (result < 2047 * 2 ^ 52) }
{
    let zeros = u64::leading_zeros(significand) as u64;
    let shift = zeros - (zeros + exponent + 1074) % 2;
    let root = root_digits(significand << shift, 54);
    let unit = (exponent + 1032 - shift) / 2;
    unit * 0x10_0000_0000_0000 + (root + 1) / 2
}

// The bits of x. Those of every NaN are the same.
pub fn bits_of(x: f64) -> u64
    ensures { result ≡ to_bits binary64 x }
{
    if x != x {
        0x7ff8_0000_0000_0000
    } else {
        f64::to_bits(x)
    }
}

// The number with these bits.
pub fn float_of(bits: u64) -> f64
    ensures { result ≡ from_bits binary64 bits }
{
    if 0x7ff0_0000_0000_0000 < bits % 0x8000_0000_0000_0000 {
        0.0 / 0.0
    } else {
        f64::from_bits(bits)
    }
}
