// The calls that a shared scanner answers.
#[derive(Clone, Copy, PartialEq, Eq, Debug)]
pub enum Call {
    ParseObject,
    ParseNumber,
    ParseName,
    ParseString,
    ParseArray,
    AtEnd,
}
