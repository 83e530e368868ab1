ghost use Rattle.std.specs.Prelude.{◌≡◌, ◌+◌, ◌≤◌, true, false, List, [], Some, MatchResult, ◌≢◌};
ghost use Rattle.definitions.specs.Gaps.{PastGap};
ghost use Rattle.definitions.specs.Moves.{first, rest};
ghost use Rattle.definitions.specs.Outcomes.{of_close};
ghost use Rattle.definitions.specs.PlainReader.{Piece, Turn, parses, parse_object};
ghost use Rattle.definitions.specs.Sources.{fault};
ghost use Rattle.syntax.specs.Skips.{Closes, Skipped};
ghost use Rattle.objects.specs.Answers.{answered};
ghost use Rattle.postscript.specs.Reading.{AtEnd, Between, Closed, behind, width_of, scan_of, StartsString, Read, Refused, Insides, RunEnds, StartsRun, StartsName};

use number::machine::{Reading, read as read_run};
use objects::array::Array;
use objects::error::{Reason, Refusal};
use objects::name::Name;
use objects::object::Object;
use objects::part::Part;
use objects::string::{Form, String};
use reader::class::{ByteClass, Class, pass};
use reader::source::{Fault, Source, Windowed};
use syntax::array::skip_array;
use syntax::gap::pass_gap;
use syntax::open::Open;
use syntax::string::{skip_ascii85, skip_hex, skip_literal};

// A run needs a byte or a clean end after it: the fault at which it ended, if it did.
fn run_end<S: Source>(source: &S) -> Result<(), Fault>
    ensures { MatchResult result (λ _. RunEnds (S.Source.meaning source.now).to_come (S.Source.meaning source.now).ending) (λ f. ((S.Source.meaning source.now).to_come ≡ []) × ((S.Source.meaning source.now).ending ≡ fault f.layer f.cause)) }
{
    source.ending().unwrap_or(Ok(()))
}

// Why the bytes ran out: a fault, or another reason at a clean end.
fn ran_out<S: Source>(source: &S, clean: Reason) -> Reason
    ensures { (S.Source.meaning source.now).to_come ≡ [] → AtEnd (S.Source.meaning source.now).ending «clean» result }
{
    match run_end(source) {
        Ok(()) => clean,
        Err(f) => f.into(),
    }
}

// What an object's part is cut from: where it starts, and its source behind the opener.
#[derive(Clone, Copy)]
struct Opened<S> {
    start: u32,
    from: S,
}

impl<S: Windowed> Opened<S> {
    // Passes an opener of so many bytes.
    #[tactic(auto, using(crate::proofs::Bracketed::stepped_behind, crate::proofs::Bracketed::behind_none))]
    fn behind(source: &mut S, opener: u32) -> Opened<S>
        ensures starts { result.start ≡ (S.Source.meaning source.old).place }
        ensures from { result.from ≡ source.new }
        ensures means { S.Source.meaning source.new ≡ behind opener (S.Source.meaning source.old) }
        ensures lies { S.Source.lies source.new ≡ S.Source.lies source.old }
    {
        let start = source.place();
        for _ in 0..opener {
            source.step();
        }
        Opened {
            start,
            from: *source,
        }
    }

    // The part up to where its source stands now, less a closer of so many bytes.
    fn part(&self, source: &S, closer: u32) -> Part<S::Inside>
        requires { (S.Source.meaning self.now.from).place + closer ≤ (S.Source.meaning source.now).place }
        ensures { Between S.Inside.Source.meaning S.Inside.Source.lies self.now.start (S.Source.meaning self.now.from) (S.Source.meaning source.now) (S.Source.lies self.now.from) closer result }
    {
        let end = source.place();
        let count = end - self.from.place() - closer;
        Part {
            start: self.start,
            end,
            inside: self.from.window(count),
        }
    }

    // The part that a skip closed, or why it is left open.
    fn closed(
        &self,
        source: &S,
        skipped: Result<(), Open>,
        closer: u32,
    ) -> Result<Part<S::Inside>, Reason>
        requires { Closes skipped closer (S.Source.meaning self.now.from) (S.Source.meaning source.now) }
        ensures { Closed S.Inside.Source.meaning S.Inside.Source.lies skipped self.now.start (S.Source.meaning self.now.from) (S.Source.meaning source.now) (S.Source.lies self.now.from) closer result }
    {
        match skipped {
            Ok(()) => Ok(self.part(source, closer)),
            Err(Open::RanOut) => Err(ran_out(source, Reason::Unclosed)),
            Err(Open::LacksClose) => Err(Reason::Unclosed),
        }
    }
}

// How long a string's opener is, and its closer.
fn width(form: Form) -> u32
    ensures { result ≡ width_of form }
{
    match form {
        Form::Literal | Form::Hex => 1,
        Form::Ascii85 => 2,
    }
}

// The form says which skip; a closure would be a second parameter beside it.
fn skip_string<S: Source>(source: &mut S, form: Form) -> Result<(), Open>
    ensures skips { Skipped (scan_of form) (width_of form) result (S.Source.meaning source.old) (S.Source.meaning source.new) }
    ensures lies { S.Source.lies source.new ≡ S.Source.lies source.old }
{
    match form {
        Form::Literal => skip_literal(source),
        Form::Hex => skip_hex(source),
        Form::Ascii85 => skip_ascii85(source),
    }
}

fn string<S: Windowed>(source: &mut S, form: Form) -> Result<Object<S::Inside>, Reason>
    requires { StartsString form (S.Source.meaning source.old).to_come }
    ensures reads { Read S.Inside.Source.meaning S.Inside.Source.lies (S.Source.meaning source.old) (S.Source.meaning source.new) (S.Source.lies source.old) result }
    ensures lies { S.Source.lies source.new ≡ S.Source.lies source.old }
{
    let width = width(form);
    let opened = Opened::behind(source, width);
    let skipped = skip_string(source, form);
    let part = opened.closed(source, skipped, width)?;
    Ok(Object::String(String { part, form }))
}

// As `string`, with another skip and another case; `Opened` has what they share.
fn array<S: Windowed>(source: &mut S) -> Result<Object<S::Inside>, Reason>
    requires { first (S.Source.meaning source.old).to_come ≡ Some 91 }
    ensures reads { Read S.Inside.Source.meaning S.Inside.Source.lies (S.Source.meaning source.old) (S.Source.meaning source.new) (S.Source.lies source.old) result }
    ensures lies { S.Source.lies source.new ≡ S.Source.lies source.old }
{
    let opened = Opened::behind(source, 1);
    let skipped = skip_array(source);
    let part = opened.closed(source, skipped, 1)?;
    Ok(Object::Array(Array { part }))
}

// A run behind a slash, or one that begins as no number does.
fn name<S: Windowed>(source: &mut S, literal: bool) -> Result<Object<S::Inside>, Reason>
    requires { StartsName literal (S.Source.meaning source.old).to_come }
    ensures reads { Read S.Inside.Source.meaning S.Inside.Source.lies (S.Source.meaning source.old) (S.Source.meaning source.new) (S.Source.lies source.old) result }
    ensures lies { S.Source.lies source.new ≡ S.Source.lies source.old }
{
    // a slash is one byte
    let opened = Opened::behind(source, u32::from(literal));
    pass(source, &Class::Regular);
    run_end(source)?;
    let part = opened.part(source, 0);
    Ok(Object::Name(Name { part, literal }))
}

// A run that begins as a number may: what it is, the number machine says.
fn number_run<S: Windowed>(source: &mut S) -> Result<Object<S::Inside>, Reason>
    requires { StartsRun (S.Source.meaning source.old).to_come }
    ensures reads { Read S.Inside.Source.meaning S.Inside.Source.lies (S.Source.meaning source.old) (S.Source.meaning source.new) (S.Source.lies source.old) result }
    ensures lies { S.Source.lies source.new ≡ S.Source.lies source.old }
{
    let opened = Opened::behind(source, 0);
    let reading = read_run(source);
    run_end(source)?;
    let part = opened.part(source, 0);
    match reading {
        Reading::Integer(n) => Ok(Object::Integer(part, n)),
        Reading::Real(d) => Ok(Object::Real(part, d)),
        Reading::PastLimits => Err(Reason::PastLimits),
        Reading::Name => Ok(Object::Name(Name {
            part,
            literal: false,
        })),
    }
}

// Whether the byte after the first to come is this one.
fn followed_by<S: Source>(source: &S, b: u8) -> bool
    ensures { (result ≡ true → first (rest (S.Source.meaning source.now).to_come) ≡ Some b) × (result ≡ false → first (rest (S.Source.meaning source.now).to_come) ≢ Some b) }
{
    let mut ahead = *source;
    ahead.step();
    ahead.peek() == Some(b)
}

// Why a single > is refused: it is half of a mark where a fault comes right after it.
fn single_angle<S: Source>(source: &mut S) -> Reason
    requires { first (S.Source.meaning source.old).to_come ≡ Some 62 }
    ensures closes { Refused (of_close (rest (S.Source.meaning source.old).to_come) (S.Source.meaning source.old).ending) result (S.Source.meaning source.old) (S.Source.meaning source.new) }
    ensures lies { S.Source.lies source.new ≡ S.Source.lies source.old }
{
    let mut ahead = *source;
    ahead.step();
    match run_end(&ahead) {
        Ok(()) => Reason::Stray,
        Err(f) => {
            *source = ahead;
            f.into()
        }
    }
}

// What stands after the gap: its first byte decides which rule is tried.
fn read_here<S: Windowed>(source: &mut S) -> Result<Object<S::Inside>, Reason>
    requires { PastGap (S.Source.meaning source.old).to_come }
    ensures reads { Read S.Inside.Source.meaning S.Inside.Source.lies (S.Source.meaning source.old) (S.Source.meaning source.new) (S.Source.lies source.old) result }
    ensures lies { S.Source.lies source.new ≡ S.Source.lies source.old }
{
    let Some(b) = source.peek() else {
        return Err(ran_out(source, Reason::Missing));
    };
    match b {
        b'(' => string(source, Form::Literal),
        b'<' if followed_by(source, b'~') => string(source, Form::Ascii85),
        b'<' => string(source, Form::Hex),
        b'[' => array(source),
        b'/' => name(source, true),
        b'0'..=b'9' | b'+' | b'-' | b'.' => number_run(source),
        b')' | b']' | b'}' => Err(Reason::Stray),
        b'>' => Err(single_angle(source)),
        b'{' => {
            source.step();
            Err(Reason::Unsupported)
        }
        _ => name(source, false),
    }
}

// One turn: passes the gap, and reads what stands after it. A refusal is at the gap's end.
pub(crate) fn read<S: Windowed>(source: &mut S) -> Result<Object<S::Inside>, Refusal>
    ensures turn { (ps : List Piece) × Turn (S.Source.meaning source.old) (parses parse_object) (answered S.Inside.Source.meaning result) ps (S.Source.meaning source.new) }
    ensures insides { Insides S.Inside.Source.meaning S.Inside.Source.lies (S.Source.lies source.old) result }
    ensures lies { S.Source.lies source.new ≡ S.Source.lies source.old }
{
    pass_gap(source);
    let place = source.place();
    read_here(source).map_err(|reason| Refusal { place, reason })
}
