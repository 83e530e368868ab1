#![tactic(auto)]

// What a caller may write over lent bytes and with decimals. No program of the repository does all of it,
// so it stands here for the gate to prove: an object over lent bytes is bound whole, in a `?` and behind a
// reference; a decimal is compared, and made again from its parts; a scanner, and what holds a decimal, is
// copied.

ghost use Rattle.std.specs.Prelude.{◌≡◌, IsTrue, ◌↔◌, List, Some};
ghost use Rattle.definitions.specs.PlainReader.{Piece, parses, parse_object, Turn};
ghost use Rattle.definitions.specs.Sources.{Meaning};
ghost use Rattle.objects.specs.Answers.{answered, name_in};
ghost use Rattle.postscript.specs.Reading.{Insides};
ghost use Rattle.reader.specs.Lent.{lent_at, lies_at};

use number::decimal::Decimal;
use number::machine::Reading;
use objects::error::Refusal;
use objects::name::Name;
use objects::object::Object;
use postscript::scanner::Scanner;
use reader::lent::Lent;

// The object that comes next, or the refusal of what stands there. Nothing is passed.
pub fn next_object<'a>(source: &Lent<'a>) -> Result<Object<Lent<'a>>, Refusal>
    ensures turn { (ps : List Piece) × (t : Meaning) × Turn (lent_at source.now) (parses parse_object) (answered lent_at result) ps t }
    ensures insides { Insides lent_at lies_at (lies_at source.now) result }
{
    let object = Scanner::new(*source).parse_object()?;
    Ok(object)
}

pub fn name<'a>(object: &Object<Lent<'a>>) -> Result<Name<Lent<'a>>, Refusal>
    ensures { result ≡ name_in object.now }
{
    object.name()
}

#[tactic(auto, using(number::proofs::Equal::readings_equal))]
pub fn same_reading(one: Reading, other: Reading) -> bool
    ensures { IsTrue result ↔ (one ≡ other) }
{
    one == other
}

#[tactic(auto, using(number::proofs::Equal::decimals_equal))]
pub fn same_counted(a: (Decimal, u32), b: (Decimal, u32)) -> bool
    ensures { IsTrue result ↔ (a ≡ b) }
{
    a == b
}

pub fn made_again(d: Decimal) -> Option<Decimal>
    ensures { result ≡ Some d }
{
    Decimal::new(d.is_negative(), d.c(), d.k())
}

pub fn decimal_twice(counted: (Decimal, u32)) -> ((Decimal, u32), (Decimal, u32))
    ensures { result ≡ (counted, counted) }
{
    (counted, counted)
}

pub fn scanner_twice<'a>(scanner: Scanner<Lent<'a>>) -> (Scanner<Lent<'a>>, Scanner<Lent<'a>>)
    ensures { result ≡ (scanner.entry, scanner.entry) }
{
    (scanner, scanner)
}
