ghost use Rattle.std.specs.Prelude.{◌≡◌, MatchOption};
ghost use Rattle.definitions.specs.Bytes.{regular, front};
ghost use Rattle.definitions.specs.Moves.{past_class};
ghost use Rattle.definitions.specs.Numbers.{Reads};
ghost use Rattle.definitions.specs.Readings.{radix_reading, real_reading};
ghost use Rattle.number.specs.Machine.{finish_of};
ghost use Rattle.number.specs.Runs.{as_reading};

use super::capped::Capped;
use super::decimal::Decimal;
use super::mantissa::Exponent;
use super::state::{MOST_BITS, State};
use reader::class::{ByteClass, Class, pass};
use reader::source::Source;

// What a run of regular bytes is. An enum of its own and no Result: every run is one of the four, and
// neither a name nor a number past its limits is a failure of the reading.
#[derive(Clone, Copy, PartialEq, Eq, Debug)]
pub enum Reading {
    Integer(i32),
    Real(Decimal),
    PastLimits,
    Name,
}

// A real, or past the limits where there is none.
fn real_or_past(real: Option<Decimal>) -> Reading
    ensures { MatchOption real (result ≡ Reading.PastLimits) (λ d. result ≡ Reading.Real d) }
{
    real.map_or(Reading::PastLimits, Reading::Real)
}

// The integer of the same 32 bits in two's complement.
fn radix(bits: Capped<MOST_BITS>) -> Reading
    ensures { as_reading result ≡ radix_reading bits }
{
    match u32::try_from(bits.get()) {
        Ok(bits) => Reading::Integer(bits.cast_signed()),
        Err(_) => Reading::PastLimits,
    }
}

// What the run is, once all of it was read.
fn finish(state: State) -> Reading
    ensures { as_reading result ≡ finish_of state }
{
    match state {
        State::Whole(m) => match m.integer() {
            Some(n) => Reading::Integer(n),
            None => real_or_past(m.real(&Exponent::new(None, 0))),
        },
        State::Fraction(m) => real_or_past(m.real(&Exponent::new(None, 0))),
        State::Power(m, x) => real_or_past(m.real(&x)),
        State::Bits(_, bits) => radix(bits),
        _ => Reading::Name,
    }
}

// Passes the run of regular bytes that the source begins with, and says what it is.
pub fn read<S: Source>(source: &mut S) -> Reading
    ensures stands { S.Source.meaning source.new ≡ past_class regular (S.Source.meaning source.old) }
    ensures reads { Reads (front regular (S.Source.meaning source.old).to_come) (as_reading result) }
    ensures lies { S.Source.lies source.new ≡ S.Source.lies source.old }
{
    let mut state = State::Start;
    while let Some(b) = source.peek() {
        if !Class::Regular.contains(b) {
            break;
        }
        state = state.next(b);
        source.step();
        if matches!(state, State::Dead) {
            // what is left of a run that is no number
            pass(source, &Class::Regular);
            return Reading::Name;
        }
    }
    finish(state)
}
