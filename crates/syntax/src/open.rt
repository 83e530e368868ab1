// Why a string or an array is not closed.
#[derive(Clone, Copy, PartialEq, Eq, Debug)]
pub enum Open {
    // the bytes ran out
    RanOut,
    // a byte other than > follows the ~ of an ASCII85 string
    LacksClose,
}
