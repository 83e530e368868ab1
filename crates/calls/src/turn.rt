use super::call::Call;
use objects::error::Refusal;
use objects::object::Object;
use single::value::Number;

// What a call answers, unless it refuses. The typed parsers of names, strings and arrays hand over
// objects, as parse_object does.
#[derive(Clone, Copy)]
pub enum Answer<I> {
    Object(Object<I>),
    Number(Number),
    AtEnd(bool),
}

// What a call passed after the gap: an object that was taken, if only to be refused; or a refused
// piece, which may be empty.
#[derive(Clone, Copy, PartialEq, Eq, Debug)]
pub enum Piece {
    Taken,
    Refused,
}

// One call on a scanner: where it stood before, where the gap ended and what follows it starts, where
// it stood after, what it passed from the start on (nothing, for at_end), and what it answered.
#[derive(Clone, Copy)]
pub struct Turn<I> {
    pub call: Call,
    pub from: u32,
    pub start: u32,
    pub to: u32,
    pub piece: Option<Piece>,
    pub answer: Result<Answer<I>, Refusal>,
}
