ghost use Rattle.std.specs.Prelude.{◌≡◌, ℕ, ◌<◌, ◌≤◌, from_bits, to_bits};
ghost use Rattle.std.specs.Float.{binary32};
ghost use Rattle.definitions.specs.Singles.{size, infinite};
ghost use Rattle.single.specs.Integers.{IntegerOfNumber};

use std::num::{f32_to_bits_with_nan, saturating_f32_to_i32};

// A number as a caller has it.
#[derive(Clone, Copy)]
pub enum Number {
    Integer(i32),
    Real(f32),
}

impl Number {
    // An integer as it is. A float without its fraction, stopped at the ends of 32 bits; what is no
    // number gives 0. A method and no From, since it loses a fraction.
    #[tactic(auto, using(crate::proofs::Cut::integer_of_float))]
    pub fn as_i32(self) -> i32
        ensures { IntegerOfNumber self result }
    {
        match self {
            Number::Integer(n) => n,
            Number::Real(x) => saturating_f32_to_i32(x),
        }
    }
}

// The bits of a float. What is no number has many, of which this gives one.
#[tactic(auto, using(crate::proofs::Cut::bits_back))]
pub fn to_bits(x: f32) -> u32
    ensures written { result ≡ to_bits binary32 x }
    ensures read { (bits : ℕ) → bits < 4294967296 → size bits ≤ infinite → x ≡ from_bits binary32 bits → result ≡ bits }
{
    f32_to_bits_with_nan(x)
}
