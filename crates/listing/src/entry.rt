ghost use Rattle.std.specs.Prelude.{◌≡◌};
ghost use Rattle.listing.specs.Entries.{ends_with};

use objects::error::Refusal;
use objects::object::Object;

// What one line of a listing tells of: an object, a refusal, or the end and its place. Each has a line
// of its own, so it is an enum of the three and no Result of an Option.
#[derive(Clone, Copy)]
pub enum Entry<I> {
    Object(Object<I>),
    Refused(Refusal),
    End(u32),
}

impl<I> Entry<I> {
    // Whether a listing ends with it.
    pub(crate) fn is_last(&self) -> bool
        ensures { result ≡ ends_with self.now }
    {
        !matches!(self, Entry::Object(_))
    }
}

// A line that was written: its length, and whether the listing ends with it. Each line has both, so
// no `Option` says it.
#[derive(Clone, Copy)]
pub struct Written {
    pub length: usize,
    pub last: bool,
}
