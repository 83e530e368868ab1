ghost use Rattle.std.specs.Prelude.{◌≡◌};
ghost use Rattle.number.specs.Machine.{radix_of, next_of};

use super::capped::Capped;
use super::mantissa::{Exponent, Mantissa, Sign};
use reader::class::digit_worth;

// No radix number from 2^32 on is told apart from another.
pub const MOST_BITS: u64 = 4_294_967_296;

// The number machine between two bytes: what was read of a run, and what its digits came to.
#[derive(Clone, Copy)]
pub enum State {
    Start,
    Signed(Sign),
    // one or more digits
    Whole(Mantissa),
    // a dot, and no digit yet
    Dot(Option<Sign>),
    // a dot, and digits before or after it
    Fraction(Mantissa),
    // an e
    Exponent(Mantissa),
    ExponentSign(Mantissa, Sign),
    // one or more digits of the exponent
    Power(Mantissa, Exponent),
    // a base and #
    Radix(u8),
    // one or more digits after them
    Bits(u8, Capped<MOST_BITS>),
    // no number begins so; a case and no Option, so that the match stays one
    Dead,
}

// One byte more after the #: a digit of the base, or no number.
fn radix_digit(base: u8, n: Capped<MOST_BITS>, b: u8) -> State
    ensures { result ≡ radix_of base n b }
{
    let digit = digit_worth(b);
    if digit >= base {
        return State::Dead;
    }
    State::Bits(base, n.with_digit(base, digit))
}

impl State {
    // One byte more of the run: one match on state and byte, a rule of the project.
    pub fn next(&self, b: u8) -> State
        ensures { result ≡ next_of self.now b }
    {
        match (self, b) {
            (State::Start, b'+') => State::Signed(Sign::Plus),
            (State::Start, b'-') => State::Signed(Sign::Minus),
            (State::Start, b'0'..=b'9') => State::Whole(Mantissa::new(None, b - b'0')),
            (State::Start, b'.') => State::Dot(None),
            (State::Signed(s), b'0'..=b'9') => State::Whole(Mantissa::new(Some(*s), b - b'0')),
            (State::Signed(s), b'.') => State::Dot(Some(*s)),
            (State::Whole(m), b'0'..=b'9') => State::Whole(m.with_digit(b - b'0')),
            (State::Whole(m), b'.') => State::Fraction(*m),
            (State::Whole(m), b'e' | b'E') => State::Exponent(*m),
            (State::Whole(m), b'#') if m.is_base() => State::Radix(m.c.get() as u8),
            (State::Dot(s), b'0'..=b'9') => State::Fraction(Mantissa::new(*s, 0).with_place(
                b - b'0',
            )),
            (State::Fraction(m), b'0'..=b'9') => State::Fraction(m.with_place(b - b'0')),
            (State::Fraction(m), b'e' | b'E') => State::Exponent(*m),
            (State::Exponent(m), b'+') => State::ExponentSign(*m, Sign::Plus),
            (State::Exponent(m), b'-') => State::ExponentSign(*m, Sign::Minus),
            (State::Exponent(m), b'0'..=b'9') => State::Power(*m, Exponent::new(None, b - b'0')),
            (State::ExponentSign(m, s), b'0'..=b'9') => State::Power(
                *m,
                Exponent::new(Some(*s), b - b'0'),
            ),
            (State::Power(m, x), b'0'..=b'9') => State::Power(*m, x.with_digit(b - b'0')),
            (State::Radix(base), _) => radix_digit(*base, Capped::new(0), b),
            (State::Bits(base, n), _) => radix_digit(*base, *n, b),
            _ => State::Dead,
        }
    }
}
