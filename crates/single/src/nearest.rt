ghost use Rattle.std.specs.Prelude.{◌≡◌, ℕ, ◌+◌, ◌<◌, MatchOption, from_bits};
ghost use Rattle.std.specs.Float.{binary32};
ghost use Rattle.definitions.specs.PlainReader.{Near};
ghost use Rattle.definitions.specs.Singles.{Nearest, infinite, sign_bit};

use super::rounding::nearest_bits;
use super::worth::worth;
use number::decimal::Decimal;

fn with_sign(negative: bool, bits: u32) -> u32
    requires { bits < infinite }
    ensures { result ≡ sign_bit negative + bits }
{
    if negative { 0x8000_0000 + bits } else { bits }
}

// The single nearest to a near real, at a tie the even one, and zero with its sign. None where the
// real is far.
pub fn nearest(real: &Decimal) -> Option<f32>
    ensures { MatchOption result (Near real.now.c real.now.k → ⊥) (λ x. Near real.now.c real.now.k × ((bits : ℕ) × Nearest real.now.c real.now.k bits × (x ≡ from_bits binary32 (sign_bit real.now.negative + bits)))) }
{
    let bits = nearest_bits(&worth(real)?);
    Some(f32::from_bits(with_sign(real.is_negative(), bits)))
}
