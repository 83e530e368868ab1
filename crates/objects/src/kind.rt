ghost use Rattle.std.specs.Prelude.{◌≡◌};
ghost use Rattle.objects.specs.Objects.{kind_number};

// The kinds of objects, by their numbers.
#[derive(Clone, Copy, PartialEq, Eq, Debug)]
pub enum Kind {
    Integer = 1,
    Real = 2,
    ExecutableName = 3,
    LiteralName = 4,
    LiteralString = 5,
    HexString = 6,
    Ascii85String = 7,
    Array = 8,
}

impl Kind {
    pub fn number(&self) -> u8
        ensures { result ≡ kind_number self.now }
    {
        *self as u8
    }
}
