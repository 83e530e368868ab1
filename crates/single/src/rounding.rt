ghost use Rattle.std.specs.Prelude.{◌≡◌, ◌+◌, ◌*◌, ◌^◌, ◌<◌, ◌≤◌, ◌⊎◌};
ghost use Rattle.single.specs.Fractions.{Rounds, NearestTo};

use super::worth::Fraction;

// A number times 2^shift, with the highest of its 64 bits set.
#[derive(Clone, Copy)]
struct Normalised {
    value: u64,
    shift: u32,
    ghost highest: { 2 ^ 63 ≤ value },
    ghost short: { shift ≤ 63 },
}

impl Normalised {
    fn new(n: u64) -> Normalised
        requires { 0 < n }
        ensures { result.value ≡ n * 2 ^ result.shift }
    {
        let shift = n.leading_zeros();
        Normalised {
            value: n << shift,
            shift,
        }
    }

    // How many bits more this takes for a quotient of 24 bits: it is between half the divisor and twice the
    // divisor.
    fn more_bits(&self, divisor: &Normalised) -> u32
        ensures { ((self.now.value < divisor.now.value) × (result ≡ 24)) ⊎ ((divisor.now.value ≤ self.now.value) × (result ≡ 23)) }
    {
        if self.value < divisor.value { 24 } else { 23 }
    }

    // What is rounded, once so many bits more were taken, counts 2^exponent of the smallest single,
    // 2^-149.
    fn exponent(&self, divisor: &Normalised, more: u32) -> u32
        requires { more ≤ 24 }
        ensures { result + self.now.shift + more ≡ 149 + divisor.now.shift }
    {
        149 + divisor.shift - self.shift - more
    }
}

// q, or the next number up, as twice the remainder is less or more than the divisor; at a tie the
// even one of the two.
fn rounded(q: u32, twice: u128, divisor: u128) -> u32
    requires { q < 2 ^ 24 }
    ensures { Rounds q twice divisor result }
{
    if twice > divisor || (twice == divisor && q % 2 == 1) {
        q + 1
    } else {
        q
    }
}

// The bits of the single nearest to a fraction.
pub(crate) fn nearest_bits(worth: &Fraction) -> u32
    ensures { NearestTo worth.now.num worth.now.den result }
{
    if worth.num == 0 {
        return 0;
    }
    let n = Normalised::new(worth.num);
    let d = Normalised::new(worth.den);
    let more = n.more_bits(&d);
    let wide = (n.value as u128) << more;
    let divisor = d.value as u128;
    let m = rounded((wide / divisor) as u32, wide % divisor * 2, divisor);
    n.exponent(&d, more) * 8_388_608 + m
}
