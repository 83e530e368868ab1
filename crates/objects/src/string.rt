ghost use Rattle.std.specs.Prelude.{◌≡◌};
ghost use Rattle.objects.specs.Objects.{string_kind};

use super::kind::Kind;
use super::part::Part;

#[derive(Clone, Copy, PartialEq, Eq, Debug)]
pub enum Form {
    Literal,
    Hex,
    Ascii85,
}

// A string: its inside is what stands between its opener and its closer, undecoded.
#[derive(Clone, Copy)]
pub struct String<I> {
    pub part: Part<I>,
    pub form: Form,
}

impl From<Form> for Kind {
    ghost from_gives = { λ form kind. kind ≡ string_kind form };

    fn from(form: Form) -> Kind {
        match form {
            Form::Literal => Kind::LiteralString,
            Form::Hex => Kind::HexString,
            Form::Ascii85 => Kind::Ascii85String,
        }
    }
}

impl<I: Copy> String<I> {
    pub fn kind(&self) -> Kind
        ensures { result ≡ string_kind self.now.form }
    {
        self.form.into()
    }
}
