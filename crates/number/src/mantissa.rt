ghost use Rattle.std.specs.Prelude.{◌≡◌, ◌+◌, ◌*◌, ◌^◌, min, ◌<◌, ◌≤◌, true, false, pos, ◌-ℤ◌, MatchOption};
ghost use Rattle.definitions.specs.Numbers.{signed, settled, Decimal as Limits};
ghost use Rattle.definitions.specs.Readings.{fits_test};
ghost use Rattle.number.specs.Machine.{minus, base, whole_of, longer_of, one_place_of};

use super::capped::Capped;
use super::decimal::Decimal;

// The sign of a number, or of its exponent.
#[derive(Clone, Copy, PartialEq, Eq, Debug)]
pub enum Sign {
    Plus,
    Minus,
}

// No c of 10^18 or more is told apart from another: all of them are past the limits.
pub const MOST_DIGITS: u64 = 1_000_000_000_000_000_000;

// No exponent from here on is told apart from another: it is past the limits however many of a
// run's bytes, fewer than 2^32, stand after the dot.
pub const MOST_POWER: u64 = 10_000_000_000;

// What stands before an exponent. The digits come first, here and in an exponent: with the sign in front
// the machine takes a tenth more instructions.
#[derive(Clone, Copy)]
pub struct Mantissa {
    // all digits as one number
    pub c: Capped<MOST_DIGITS>,
    // how many of them stand after the dot
    pub places: u32,
    pub sign: Option<Sign>,
}

// What stands after an e. A type of its own, with a cap of its own: a mantissa built on it would reach
// its digits through one name more.
#[derive(Clone, Copy)]
pub struct Exponent {
    pub n: Capped<MOST_POWER>,
    pub sign: Option<Sign>,
}

fn is_minus(sign: Option<Sign>) -> bool
    ensures { result ≡ minus sign }
{
    sign == Some(Sign::Minus)
}

// A number with its sign.
fn signed(sign: Option<Sign>, n: u64) -> i64
    requires { n ≤ 10 ^ 18 }
    ensures { result ≡ signed (minus sign) n }
{
    if is_minus(sign) {
        -(n as i64)
    } else {
        n as i64
    }
}

impl Exponent {
    pub fn new(sign: Option<Sign>, digit: u8) -> Exponent
        ensures { result ≡ record { sign = sign; n = digit } }
    {
        Exponent {
            sign,
            n: Capped::new(digit),
        }
    }

    // One digit more.
    pub fn with_digit(&self, digit: u8) -> Exponent
        ensures { result ≡ record { sign = self.now.sign; n = min (self.now.n * 10 + digit) (10 ^ 10) } }
    {
        Exponent {
            n: self.n.with_digit(10, digit),
            ..*self
        }
    }
}

impl Mantissa {
    // A number's first digit, or 0 before a dot that stands first.
    pub fn new(sign: Option<Sign>, digit: u8) -> Mantissa
        ensures { result ≡ whole_of sign digit }
    {
        Mantissa {
            sign,
            c: Capped::new(digit),
            places: 0,
        }
    }

    // One digit more.
    pub fn with_digit(&self, digit: u8) -> Mantissa
        ensures { result ≡ longer_of self.now digit }
    {
        Mantissa {
            c: self.c.with_digit(10, digit),
            ..*self
        }
    }

    // One digit more after the dot. The count of places saturates, which no source is long enough to see.
    pub fn with_place(&self, digit: u8) -> Mantissa
        ensures { result ≡ one_place_of self.now digit }
    {
        Mantissa {
            places: self.places.saturating_add(1),
            ..self.with_digit(digit)
        }
    }

    // The digits read are a base: without a sign, and from 2 to 36.
    pub fn is_base(&self) -> bool
        ensures { result ≡ base self.now.sign self.now.c }
    {
        self.sign.is_none() && (2..=36).contains(&self.c.get())
    }

    // The digits as an integer of 32 bits, if they are one.
    pub fn integer(&self) -> Option<i32>
        ensures { MatchOption result (fits_test (minus self.now.sign) self.now.c ≡ false) (λ n. (fits_test (minus self.now.sign) self.now.c ≡ true) × (n ≡ signed (minus self.now.sign) self.now.c)) }
    {
        i32::try_from(signed(self.sign, self.c.get())).ok()
    }

    // k: the exponent less the count of digits after the dot, and 0 where c is.
    fn scale(&self, exponent: &Exponent) -> i64
        ensures { result ≡ settled self.now.c (signed (minus exponent.now.sign) exponent.now.n -ℤ pos self.now.places) }
    {
        if self.c.get() == 0 {
            0
        } else {
            signed(exponent.sign, exponent.n.get()) - i64::from(self.places)
        }
    }

    // The real with this exponent, if it is within its limits.
    pub fn real(&self, exponent: &Exponent) -> Option<Decimal>
        ensures { let k = settled self.now.c (signed (minus exponent.now.sign) exponent.now.n -ℤ pos self.now.places) in MatchOption result (Limits self.now.c k → ⊥) (λ d. (d.negative ≡ minus self.now.sign) × (d.c ≡ self.now.c) × (d.k ≡ k)) }
    {
        let k = i8::try_from(self.scale(exponent)).ok()?;
        Decimal::new(is_minus(self.sign), self.c.get(), k)
    }
}
