// A measured value as a kind and the 64 bits of y.
ghost use Rattle.std.specs.Prelude.{◌≡◌};
ghost use Rattle.calls.specs.Carried.{kind_of, bits_of, measured_as};

use measure::Measured;
use std::num::{f64_from_bits_with_nan, f64_to_bits_with_nan};

// The measured value of a kind, a number as in the bytes that the C interface fixes, and bits. Bits of a NaN are a NaN.
#[tactic(auto, unfolding(calls::specs::Carried::measured_as))]
pub fn measured_as(kind: u8, bits: u64) -> Measured
    ensures { result ≡ measured_as kind bits }
{
    match kind {
        1 => Measured::Over,
        2 => Measured::Under,
        3 => Measured::Value(f64_from_bits_with_nan(bits)),
        _ => Measured::NoReading,
    }
}

// The kind of a measured value, and the bits of y, 0 without a value.
#[tactic(auto, unfolding(calls::specs::Carried::kind_of, calls::specs::Carried::bits_of))]
pub fn kind_and_bits(measured: Measured) -> (u8, u64)
    ensures { result ≡ record { 0 = kind_of measured; 1 = bits_of measured } }
{
    match measured {
        Measured::NoReading => (0, 0),
        Measured::Over => (1, 0),
        Measured::Under => (2, 0),
        Measured::Value(y) => (3, f64_to_bits_with_nan(y)),
    }
}
