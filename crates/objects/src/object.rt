ghost use Rattle.std.specs.Prelude.{◌≡◌, IfErr};
ghost use Rattle.objects.specs.Objects.{kind_of, part_of};
ghost use Rattle.objects.specs.Answers.{NumberIn, reasoned, refused_by, name_in, string_in, array_in};

use super::array::Array;
use super::error::{Reason, Refusal};
use super::kind::Kind;
use super::name::Name;
use super::part::Part;
use super::string::String;
use number::decimal::Decimal;
use single::nearest::nearest;
use single::value::Number;

// An object. Over lent bytes its inside is that part of the bytes itself; over any other source it
// is a window. What a real holds is a type argument, and always a decimal: at lent bytes the toolchain
// does not cover an enum that is generic over its source and itself names a type with ghost fields.
#[derive(Clone, Copy)]
pub enum Object<I, D = Decimal> {
    Integer(Part<I>, i32),
    Real(Part<I>, D),
    Name(Name<I>),
    String(String<I>),
    Array(Array<I>),
}

impl<I: Copy> Object<I> {
    pub fn kind(&self) -> Kind
        ensures { result ≡ kind_of self.now }
    {
        match self {
            Object::Integer(..) => Kind::Integer,
            Object::Real(..) => Kind::Real,
            Object::Name(name) => name.kind(),
            Object::String(string) => string.kind(),
            Object::Array(_) => Kind::Array,
        }
    }

    // Where the object stands, and its inside.
    pub fn part(&self) -> Part<I>
        ensures { result ≡ part_of self.now }
    {
        match self {
            Object::Integer(part, _) | Object::Real(part, _) => *part,
            Object::Name(name) => name.part,
            Object::String(string) => string.part,
            Object::Array(array) => array.part,
        }
    }

    // Why a caller who asked for another object is refused: at this object's start.
    pub(crate) fn refused(&self, reason: Reason) -> Refusal
        ensures { result ≡ refused_by reason self.now }
    {
        Refusal {
            place: self.part().start,
            reason,
        }
    }

    // The number of an integer or of a near real. A far real is past the limits of a single, and any
    // other object is of another type.
    pub fn number(&self) -> Result<Number, Refusal>
        ensures number { NumberIn self.now (reasoned result) }
        ensures place { IfErr result (λ r. r.place ≡ (part_of self.now).start) }
    {
        match self {
            Object::Integer(_, n) => Ok(Number::Integer(*n)),
            Object::Real(_, real) => {
                let x = nearest(real).ok_or(self.refused(Reason::PastLimits))?;
                Ok(Number::Real(x))
            }
            _ => Err(self.refused(Reason::OtherType)),
        }
    }

    // One method for each case: a shared one would take a closure as long as the match. They are no
    // `TryFrom`, since they answer of a borrowed object.
    pub fn name(&self) -> Result<Name<I>, Refusal>
        ensures { result ≡ name_in self.now }
    {
        match self {
            Object::Name(name) => Ok(*name),
            _ => Err(self.refused(Reason::OtherType)),
        }
    }

    pub fn string(&self) -> Result<String<I>, Refusal>
        ensures { result ≡ string_in self.now }
    {
        match self {
            Object::String(string) => Ok(*string),
            _ => Err(self.refused(Reason::OtherType)),
        }
    }

    pub fn array(&self) -> Result<Array<I>, Refusal>
        ensures { result ≡ array_in self.now }
    {
        match self {
            Object::Array(array) => Ok(*array),
            _ => Err(self.refused(Reason::OtherType)),
        }
    }
}
