ghost use Rattle.std.specs.Prelude.{◌≡◌, ◌+◌, ◌≤◌, true, [], ◌++◌, length};
ghost use Rattle.definitions.specs.Decoder.{decoded};
ghost use Rattle.definitions.specs.Grammar.{real_value};
ghost use Rattle.definitions.specs.Listing.{decimal, signed_decimal, minus_if, value_text, line, WritesLine};
ghost use Rattle.definitions.specs.PlainReader.{object as an_object, yes_no};
ghost use Rattle.objects.specs.Objects.{as_handed, part_of, value_of};
ghost use Rattle.listing.specs.Entries.{field, line_of, refusal_line};

use super::digits::{digit_count, write_digits};
use super::entry::Entry;
use super::lines::LONGEST;
use number::decimal::Decimal;
use objects::error::Refusal;
use objects::object::Object;
use reader::source::Source;
use std::marker::Model;

// How many bytes a source has to come.
fn count<S: Source>(source: S) -> u32
    ensures { result ≡ length (S.Source.meaning source).to_come }
{
    let mut left = source;
    while left.peek().is_some() {
        left.step();
    }
    left.place() - source.place()
}

// A line as it grows: its text so far. The bytes lie in an array, since there is no heap. It is not
// printed by a `Display`, nor kept in the kit's `ArrayVec`: their writes may fail, while a line always
// has room.
#[derive(Drop)]
pub struct Line {
    bytes: [u8; LONGEST],
    length: usize,
}

impl Model for Line {
    ghost use Rattle.std.specs.Prelude.{ℕ, ◌≤◌, List, take};

    ghost Value = { List ℕ };

    ghost view = { λ l. take l.length l.bytes };

    ghost invariant = { λ l. l.length ≤ 48 };
}

impl Line {
    fn new() -> Line
        ensures { result ≡ [] }
    {
        Line {
            bytes: [0; LONGEST],
            length: 0,
        }
    }

    // Each push asks for the room of what it pushes, which differs, so no invariant says it.
    fn push(&mut self, text: &[u8])
        requires { length self.old + length text.now ≤ 48 }
        ensures { self.new ≡ self.old ++ text.now }
    {
        let end = self.length + text.len();
        self.bytes[self.length..end].copy_from_slice(text);
        self.length = end;
    }

    // A number in decimal digits.
    #[tactic(auto, using(definitions::proofs::Listing::decimal_digit))]
    fn push_decimal(&mut self, n: u64)
        requires { length self.old + length (decimal n) ≤ 48 }
        ensures { self.new ≡ self.old ++ decimal n }
    {
        // a kind is one digit, and so is many a place or count
        if n < 10 {
            self.push(&[b'0' + n as u8]);
            return;
        }
        let end = self.length + digit_count(n);
        write_digits(&mut self.bytes[self.length..end], n);
        self.length = end;
    }

    fn push_minus(&mut self, negative: bool)
        requires { length self.old + length (minus_if negative) ≤ 48 }
        ensures { self.new ≡ self.old ++ minus_if negative }
    {
        if negative {
            self.push(b"-");
        }
    }

    // A number with a minus in front of what is below 0.
    fn push_signed(&mut self, n: i64)
        requires { length self.old + length (signed_decimal n) ≤ 48 }
        ensures { self.new ≡ self.old ++ signed_decimal n }
    {
        self.push_minus(n < 0);
        self.push_decimal(n.unsigned_abs());
    }

    // A number and a comma.
    fn push_field(&mut self, n: u64)
        requires { length self.old + length (field n) ≤ 48 }
        ensures { self.new ≡ self.old ++ field n }
    {
        self.push_decimal(n);
        self.push(b",");
    }

    // Any minus, c, e and k. At most 23 bytes.
    fn push_real(&mut self, d: &Decimal)
        requires { length self.old + 23 ≤ 48 }
        ensures text { self.new ≡ self.old ++ value_text 0 (real_value d.now.negative d.now.c d.now.k) }
        ensures short { length self.new ≤ length self.old + 23 }
    {
        self.push_minus(d.is_negative());
        self.push_decimal(d.c());
        self.push(b"e");
        self.push_signed(i64::from(d.k()));
    }

    // The value of an object: an integer; a real; else the count of bytes inside. At most 23 bytes.
    fn push_value<I: Source>(&mut self, object: &Object<I>)
        requires { length self.old + 23 ≤ 48 }
        ensures text { self.new ≡ self.old ++ value_text (length (I.Source.meaning (part_of object.now).inside).to_come) (value_of object.now) }
        ensures short { length self.new ≤ length self.old + 23 }
    {
        match object {
            Object::Integer(_, n) => self.push_signed(i64::from(*n)),
            Object::Real(_, d) => self.push_real(d),
            _ => self.push_decimal(u64::from(count(object.part().inside))),
        }
    }

    // Kind, start, end and value, parted by commas.
    fn of_object<I: Source>(object: &Object<I>) -> Line
        ensures { result ≡ line 0 (an_object (as_handed I.Source.meaning object.now)) }
    {
        let part = object.part();
        let mut text = Line::new();
        text.push_field(u64::from(object.kind().number()));
        text.push_field(u64::from(part.start));
        text.push_field(u64::from(part.end));
        text.push_value(object);
        text.push(b"\n");
        text
    }

    // The word end and the place.
    fn of_end(place: u32) -> Line
        ensures { result ≡ line place (yes_no true) }
    {
        let mut text = Line::new();
        text.push(b"end,");
        text.push_decimal(u64::from(place));
        text.push(b"\n");
        text
    }

    // The word refused, the number and the place.
    pub fn of_refusal(refusal: &Refusal) -> Line
        ensures { result ≡ refusal_line refusal.now }
    {
        let mut text = Line::new();
        text.push(b"refused,");
        text.push_field(u64::from(refusal.number()));
        text.push_decimal(u64::from(refusal.place));
        text.push(b"\n");
        text
    }

    // The line of an entry.
    pub fn of_entry<I: Source>(entry: &Entry<I>) -> Line
        ensures { result ≡ line_of I.Source.meaning entry.now }
    {
        match entry {
            Entry::Object(object) => Line::of_object(object),
            Entry::Refused(refusal) => Line::of_refusal(refusal),
            Entry::End(place) => Line::of_end(*place),
        }
    }

    pub fn as_bytes(&self) -> &[u8]
        ensures { result.now ≡ self.now }
    {
        &self.bytes[..self.length]
    }

    // Writes the line to the front of a buffer, and answers its length; the bytes past it stay.
    pub(crate) fn copy_to(&self, buffer: &mut [u8]) -> usize
        requires { 48 ≤ length buffer.old }
        ensures line { WritesLine buffer.old self.now (decoded result) buffer.new }
        ensures room { result ≤ length buffer.new }
    {
        buffer[..self.length].copy_from_slice(self.as_bytes());
        self.length
    }
}
