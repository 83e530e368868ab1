ghost use Rattle.std.specs.Prelude.{◌≡◌, ◌<◌, MatchOption};
ghost use Rattle.definitions.specs.PlainReader.{Near};
ghost use Rattle.single.specs.Fractions.{WorthOf};

use number::decimal::Decimal;

// num / den.
#[derive(Clone, Copy)]
pub(crate) struct Fraction {
    pub num: u64,
    pub den: u64,
    ghost positive: { 0 < den },
}

// A near real stays below this at each factor of ten.
const MOST: u64 = 1_000_000_000_000_000_000;

const MOST_FACTORS: u32 = 18;

// None where the real is far.
pub(crate) fn worth(real: &Decimal) -> Option<Fraction>
    ensures { MatchOption result (Near real.now.c real.now.k → ⊥) (λ w. Near real.now.c real.now.k × WorthOf real.now.c real.now.k w.num w.den) }
{
    let factors = u32::from(real.k().unsigned_abs());
    if factors > MOST_FACTORS {
        return None;
    }
    let power = 10u64.pow(factors);
    if real.k() < 0 {
        return Some(Fraction {
            num: real.c(),
            den: power,
        });
    }
    // the last product is the greatest, so it alone is tested
    let num = real.c().checked_mul(power).filter(|n| *n < MOST)?;
    Some(Fraction { num, den: 1 })
}
