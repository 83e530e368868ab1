ghost use Rattle.std.specs.Prelude.{◌≡◌, ℕ, Bool, not, ◌==◌, bit_and, nat_lt};
ghost use Rattle.definitions.specs.Bytes.{blank, delimiter, regular, comment_end, digit, octal, other_than};
ghost use Rattle.definitions.specs.Moves.{past_class};
ghost use Rattle.definitions.specs.Numbers.{digit_worth};
ghost use Rattle.reader.specs.Classes.{members};

use super::source::Source;

// The bits of a byte's classes. They are no type of their own, since only this table holds them.
const BLANK: u8 = 1;

const DELIMITER: u8 = 2;

const COMMENT_END: u8 = 4;

const DIGIT: u8 = 8;

const OCTAL: u8 = 16;

// The class bits of each byte, sixteen to a row: one read is faster than a chain of comparisons.
const CLASSES: &[u8; 256] = b"\
    \x01\x00\x00\x00\x00\x00\x00\x00\x00\x01\x05\x00\x05\x05\x00\x00\
    \x00\x00\x00\x00\x00\x00\x00\x00\x00\x00\x00\x00\x00\x00\x00\x00\
    \x01\x00\x00\x00\x00\x02\x00\x00\x02\x02\x00\x00\x00\x00\x00\x02\
    \x18\x18\x18\x18\x18\x18\x18\x18\x08\x08\x00\x00\x02\x00\x02\x00\
    \x00\x00\x00\x00\x00\x00\x00\x00\x00\x00\x00\x00\x00\x00\x00\x00\
    \x00\x00\x00\x00\x00\x00\x00\x00\x00\x00\x00\x02\x00\x02\x00\x00\
    \x00\x00\x00\x00\x00\x00\x00\x00\x00\x00\x00\x00\x00\x00\x00\x00\
    \x00\x00\x00\x00\x00\x00\x00\x00\x00\x00\x00\x02\x00\x02\x00\x00\
    \x00\x00\x00\x00\x00\x00\x00\x00\x00\x00\x00\x00\x00\x00\x00\x00\
    \x00\x00\x00\x00\x00\x00\x00\x00\x00\x00\x00\x00\x00\x00\x00\x00\
    \x00\x00\x00\x00\x00\x00\x00\x00\x00\x00\x00\x00\x00\x00\x00\x00\
    \x00\x00\x00\x00\x00\x00\x00\x00\x00\x00\x00\x00\x00\x00\x00\x00\
    \x00\x00\x00\x00\x00\x00\x00\x00\x00\x00\x00\x00\x00\x00\x00\x00\
    \x00\x00\x00\x00\x00\x00\x00\x00\x00\x00\x00\x00\x00\x00\x00\x00\
    \x00\x00\x00\x00\x00\x00\x00\x00\x00\x00\x00\x00\x00\x00\x00\x00\
    \x00\x00\x00\x00\x00\x00\x00\x00\x00\x00\x00\x00\x00\x00\x00\x00";

// The bits of a byte's classes.
fn marks_of(b: u8) -> u8
    ensures blank { not (bit_and result 1 == 0) ≡ blank b }
    ensures delimiter { not (bit_and result 2 == 0) ≡ delimiter b }
    ensures regular { (bit_and result 3 == 0) ≡ regular b }
    ensures comment { not (bit_and result 4 == 0) ≡ comment_end b }
    ensures digit { not (bit_and result 8 == 0) ≡ digit b }
    ensures octal { not (bit_and result 16 == 0) ≡ octal b }
{
    CLASSES[b as usize]
}

// A byte class means a set of bytes, and its one function says yes exactly for its members.
pub trait ByteClass {
    ghost member: { Self → ℕ → Bool };

    fn contains(&self, b: u8) -> bool
        ensures { result ≡ member self.now b };
}

// The classes of the table.
#[derive(Clone, Copy, PartialEq, Eq, Debug)]
pub enum Class {
    // 00 09 0A 0C 0D 20
    Blank,
    // ( ) < > [ ] { } / %
    Delimiter,
    // neither blank nor delimiter
    Regular,
    // 0A 0D 0C
    CommentEnd,
    // any byte that does not end a comment
    InComment,
    // 0 to 9
    Digit,
    // 0 to 7
    Octal,
}

impl ByteClass for Class {
    ghost member = { members };

    fn contains(&self, b: u8) -> bool {
        let marks = marks_of(b);
        match self {
            Class::Blank => marks & BLANK != 0,
            Class::Delimiter => marks & DELIMITER != 0,
            Class::Regular => marks & (BLANK | DELIMITER) == 0,
            Class::CommentEnd => marks & COMMENT_END != 0,
            Class::InComment => marks & COMMENT_END == 0,
            Class::Digit => marks & DIGIT != 0,
            Class::Octal => marks & OCTAL != 0,
        }
    }
}

// Every byte but one.
#[derive(Clone, Copy)]
pub struct Except {
    pub byte: u8,
}

impl ByteClass for Except {
    ghost member = { λ c. other_than c.byte };

    fn contains(&self, b: u8) -> bool {
        b != self.byte
    }
}

// What a digit or a letter of either case is worth. Any other byte is worth 36, more than any digit
// of a base, so that one comparison tells a base's digits: an Option would be taken apart first.
pub fn digit_worth(b: u8) -> u8
    ensures { result ≡ digit_worth b }
{
    match b {
        b'0'..=b'9' => b - b'0',
        b'A'..=b'Z' => b - b'A' + 10,
        b'a'..=b'z' => b - b'a' + 10,
        _ => 36,
    }
}

// The digits of a base: digits and letters that are worth less than it. The table has bases 8 and 10 too,
// where one read answers.
#[derive(Clone, Copy)]
pub struct BaseDigit {
    pub base: u8,
}

impl ByteClass for BaseDigit {
    ghost member = { λ c b. nat_lt (digit_worth b) c.base };

    fn contains(&self, b: u8) -> bool {
        digit_worth(b) < self.base
    }
}

// Passes the bytes of a class: it stops before the first byte outside, or at the end.
pub fn pass<S: Source, C: ByteClass>(source: &mut S, class: &C)
    ensures means { S.Source.meaning source.new ≡ past_class (C.ByteClass.member class.now) (S.Source.meaning source.old) }
    ensures lies { S.Source.lies source.new ≡ S.Source.lies source.old }
{
    while let Some(b) = source.peek() {
        if !class.contains(b) {
            break;
        }
        source.step();
    }
}
