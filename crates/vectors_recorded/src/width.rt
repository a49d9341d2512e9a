// The widths of numbers that are recorded, by their bits.
use arithmetic::Real;

pub trait Width: Real {
    // The number with these bits, of which the lowest that the width has count.
    fn of_bits(bits: u64) -> Self;

    // The bits of the number; every NaN has the same.
    fn bits(self) -> u64;
}

impl Width for f64 {
    fn of_bits(bits: u64) -> f64 {
        arithmetic::float_of(bits)
    }

    fn bits(self) -> u64 {
        arithmetic::bits_of(self)
    }
}

impl Width for f32 {
    fn of_bits(bits: u64) -> f32 {
        arithmetic::single::float_of((bits % 0x1_0000_0000) as u32)
    }

    fn bits(self) -> u64 {
        arithmetic::single::bits_of(self) as u64
    }
}
