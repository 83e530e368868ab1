ghost use Rattle.std.specs.Prelude.{◌≡◌};
ghost use Rattle.objects.specs.Objects.{name_kind};

use super::kind::Kind;
use super::part::Part;

// A name: its inside is the run without the slash.
#[derive(Clone, Copy)]
pub struct Name<I> {
    pub part: Part<I>,
    // A flag and no enum: it is one question, and `is_literal` answers it.
    pub literal: bool,
}

impl<I: Copy> Name<I> {
    pub fn is_literal(&self) -> bool
        ensures { result ≡ self.now.literal }
    {
        self.literal
    }

    // No From: a bool would not tell what the flag says.
    pub fn kind(&self) -> Kind
        ensures { result ≡ name_kind self.now.literal }
    {
        if self.literal {
            Kind::LiteralName
        } else {
            Kind::ExecutableName
        }
    }
}
