ghost use Rattle.std.specs.Prelude.{◌≡◌, ℕ, List, [], ◌∷◌, IfOk, IfSome};
ghost use Rattle.definitions.specs.PlainReader.{Turn, Piece, parses, parse_object, parse_number, parse_name, parse_string, parse_array, at_end, yes_no, gap};
ghost use Rattle.objects.specs.Answers.{told, held, answered, number_answered};
ghost use Rattle.postscript.specs.Reading.{Inside, Insides};

use super::read::read;
use objects::array::Array;
use objects::error::Refusal;
use objects::name::Name;
use objects::object::Object;
use objects::string::String;
use objects::typed::Typed;
use reader::source::{Source, Windowed};
use single::value::Number;
use syntax::gap::pass_gap;

// A scanner: it reads one object after the other from its source. It has no Model: a caller who looks
// ahead copies it, which the toolchain does not cover for a Model over lent bytes.
#[derive(Clone, Copy)]
pub struct Scanner<S> {
    source: S,
}

impl<S: Copy> Scanner<S> {
    pub fn new(source: S) -> Scanner<S>
        ensures { result.source ≡ source }
    {
        Scanner { source }
    }
}

impl<S: Windowed> Scanner<S> {
    // The place of the first byte that was not passed yet.
    pub fn place(&self) -> u32
        ensures { result ≡ (S.Source.meaning self.now.source).place }
    {
        self.source.place()
    }

    // Passes the gap, and says whether a clean end is reached.
    #[tactic(auto, using(crate::proofs::Looking::looked))]
    pub fn at_end(&mut self) -> bool
        ensures turn { (g : List ℕ) × Turn (S.Source.meaning self.old.source) at_end (yes_no result) (gap g ∷ []) (S.Source.meaning self.new.source) }
        ensures lies { S.Source.lies self.new.source ≡ S.Source.lies self.old.source }
    {
        pass_gap(&mut self.source);
        matches!(self.source.ending(), Some(Ok(())))
    }

    // The object after the gap, or the refusal of what stands there.
    pub fn parse_object(&mut self) -> Result<Object<S::Inside>, Refusal>
        ensures turn { (ps : List Piece) × Turn (S.Source.meaning self.old.source) (parses parse_object) (answered S.Inside.Source.meaning result) ps (S.Source.meaning self.new.source) }
        ensures insides { Insides S.Inside.Source.meaning S.Inside.Source.lies (S.Source.lies self.old.source) result }
        ensures lies { S.Source.lies self.new.source ≡ S.Source.lies self.old.source }
    {
        read(&mut self.source)
    }

    // What a typed parser makes of the object after the gap. An object that it does not accept is passed,
    // and refused at its start.
    fn parse<T: Typed<S::Inside>>(&mut self) -> Result<T, Refusal>
        ensures turn { (ps : List Piece) × Turn (S.Source.meaning self.old.source) (parses T.Typed.parser) (told T.Typed.answer result) ps (S.Source.meaning self.new.source) }
        ensures insides { IfOk result (λ t. IfSome (T.Typed.whole t) (Inside S.Inside.Source.meaning S.Inside.Source.lies (S.Source.lies self.old.source))) }
        ensures lies { S.Source.lies self.new.source ≡ S.Source.lies self.old.source }
    {
        let object = self.parse_object()?;
        T::of(&object)
    }

    // The typed parsers are `parse`, each under the plain reader's name, which a caller knows it by.

    // The number after the gap. An object that is none is passed, and refused at its start.
    pub fn parse_number(&mut self) -> Result<Number, Refusal>
        ensures turn { (ps : List Piece) × Turn (S.Source.meaning self.old.source) (parses parse_number) (number_answered result) ps (S.Source.meaning self.new.source) }
        ensures lies { S.Source.lies self.new.source ≡ S.Source.lies self.old.source }
    {
        self.parse::<Number>()
    }

    // The next three are not public yet: a caller has them once a run of any calls is proved whole.

    // The name after the gap. An object that is none is passed, and refused at its start.
    pub(crate) fn parse_name(&mut self) -> Result<Name<S::Inside>, Refusal>
        ensures turn { (ps : List Piece) × Turn (S.Source.meaning self.old.source) (parses parse_name) (told (held S.Inside.Source.meaning Object.Name) result) ps (S.Source.meaning self.new.source) }
        ensures insides { IfOk result (λ x. Inside S.Inside.Source.meaning S.Inside.Source.lies (S.Source.lies self.old.source) (Object.Name x)) }
        ensures lies { S.Source.lies self.new.source ≡ S.Source.lies self.old.source }
    {
        self.parse::<Name<S::Inside>>()
    }

    // The string after the gap, of any form. An object that is none is passed, and refused at its start.
    pub(crate) fn parse_string(&mut self) -> Result<String<S::Inside>, Refusal>
        ensures turn { (ps : List Piece) × Turn (S.Source.meaning self.old.source) (parses parse_string) (told (held S.Inside.Source.meaning Object.String) result) ps (S.Source.meaning self.new.source) }
        ensures insides { IfOk result (λ x. Inside S.Inside.Source.meaning S.Inside.Source.lies (S.Source.lies self.old.source) (Object.String x)) }
        ensures lies { S.Source.lies self.new.source ≡ S.Source.lies self.old.source }
    {
        self.parse::<String<S::Inside>>()
    }

    // The array after the gap. An object that is none is passed, and refused at its start.
    pub(crate) fn parse_array(&mut self) -> Result<Array<S::Inside>, Refusal>
        ensures turn { (ps : List Piece) × Turn (S.Source.meaning self.old.source) (parses parse_array) (told (held S.Inside.Source.meaning Object.Array) result) ps (S.Source.meaning self.new.source) }
        ensures insides { IfOk result (λ x. Inside S.Inside.Source.meaning S.Inside.Source.lies (S.Source.lies self.old.source) (Object.Array x)) }
        ensures lies { S.Source.lies self.new.source ≡ S.Source.lies self.old.source }
    {
        self.parse::<Array<S::Inside>>()
    }
}
