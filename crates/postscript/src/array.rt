ghost use Rattle.std.specs.Prelude.{◌≡◌};

use super::scanner::Scanner;
pub use objects::array::Array;

// What has objects inside. A trait, since a method of `Array` can only stand beside its type, and
// there no scanner is known. Not public yet, as the typed parsers of names, strings and arrays.
pub(crate) trait Objects {
    type Inside: Copy;

    ghost inside: { Self → Self.Inside };

    // A scanner over the inside, at its start.
    fn objects(&self) -> Scanner<Self::Inside>
        ensures { result.source ≡ inside self.now };
}

impl<I: Copy> Objects for Array<I> {
    type Inside = I;

    ghost inside = { λ a. a.part.inside };

    fn objects(&self) -> Scanner<I> {
        Scanner::new(self.part.inside)
    }
}
