ghost use Rattle.std.specs.Prelude.{◌≡◌, ◌≤◌, true, ◌∷◌, length};
ghost use Rattle.definitions.specs.Bytes.{octal};
ghost use Rattle.definitions.specs.LiteralText.{decode, escaped, decode_escape, decode_octal};
ghost use Rattle.text.specs.Answers.{onto};

use super::newline::pass_feed;
use reader::class::{ByteClass, Class};
use reader::source::Source;

// What a byte stands for after a backslash.
fn escaped_byte(b: u8) -> u8
    ensures { result ≡ escaped b }
{
    match b {
        b'n' => b'\n',
        b'r' => b'\r',
        b't' => b'\t',
        b'b' => 0x08,
        b'f' => 0x0C,
        _ => b,
    }
}

// After a backslash and an octal digit: takes up to two more. Three can be worth more than a byte
// holds, so their value counts modulo 256.
#[tactic(auto, using(crate::proofs::Octals::octal_more_is, crate::proofs::Octals::octal_last))]
fn octal_byte<S: Source>(digit: u8, source: &mut S) -> u8
    requires { octal digit ≡ true }
    ensures means { decode_octal digit (S.Source.meaning source.old).to_come ≡ result ∷ decode (S.Source.meaning source.new).to_come }
    ensures passes { length (S.Source.meaning source.new).to_come ≤ length (S.Source.meaning source.old).to_come }
{
    let mut value = digit - b'0';
    for _ in 0..2u8 {
        let Some(b) = source.peek().filter(|b| Class::Octal.contains(*b)) else {
            break;
        };
        source.step();
        value = value.wrapping_mul(8).wrapping_add(b - b'0');
    }
    value
}

// After a backslash: takes what it escapes, and answers the byte that it stands for. A newline
// stands for none.
pub(crate) fn escape<S: Source>(source: &mut S) -> Option<u8>
    ensures means { decode_escape (S.Source.meaning source.old).to_come ≡ onto result (decode (S.Source.meaning source.new).to_come) }
    ensures passes { length (S.Source.meaning source.new).to_come ≤ length (S.Source.meaning source.old).to_come }
{
    let b = source.peek()?;
    source.step();
    match b {
        b'\r' => {
            pass_feed(source);
            None
        }
        b'\n' => None,
        b'0'..=b'7' => Some(octal_byte(b, source)),
        _ => Some(escaped_byte(b)),
    }
}
