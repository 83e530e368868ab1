ghost use Rattle.std.specs.Prelude.{◌≡◌, ◌≤◌, ◌∷◌, ◌++◌, length, drop};
ghost use Rattle.std.specs.Iterator.{YieldsFirst, item_count};
ghost use Rattle.definitions.specs.Decoder.{DecodesSource};
ghost use Rattle.definitions.specs.LiteralText.{decode as decoded_text};
ghost use Rattle.text.specs.Answers.{onto, told, Answered};

use super::decodable::check;
use super::escape::escape;
use super::newline::pass_feed;
use super::undecoded::Undecoded;
use reader::source::Source;

// The text's next piece, from its first byte on, which was taken: takes the rest of it, and
// answers the byte that it gives. That no more is to come than before is a clause here and of what it calls:
// a fact in a type tells of one value, not of two.
fn piece<S: Source>(b: u8, source: &mut S) -> Option<u8>
    ensures means { decoded_text (b ∷ (S.Source.meaning source.old).to_come) ≡ onto result (decoded_text (S.Source.meaning source.new).to_come) }
    ensures passes { length (S.Source.meaning source.new).to_come ≤ length (S.Source.meaning source.old).to_come }
{
    match b {
        b'\\' => escape(source),
        b'\r' => {
            pass_feed(source);
            Some(b'\n')
        }
        _ => Some(b),
    }
}

// The bytes that the text still to come decodes to.
#[derive(Drop)]
struct DecodedBytes<S> {
    left: S,
}

impl<S: Source> Iterator for DecodedBytes<S> {
    type Item = u8;

    ghost next_gives = { YieldsFirst (λ d. decoded_text (S.Source.meaning d.left).to_come) };

    ghost remaining = { item_count (λ d. decoded_text (S.Source.meaning d.left).to_come) };

    fn next(&mut self) -> Option<u8> {
        while let Some(b) = self.left.peek() {
            self.left.step();
            if let Some(byte) = piece(b, &mut self.left) {
                return Some(byte);
            }
        }
        None
    }
}

// Writes the decoded text to the front of a buffer that has room for it, and answers its length.
// It stays a function in the program too, so that its loop has registers enough.
#[inline(never)]
fn write<S: Source>(source: S, buffer: &mut [u8]) -> usize
    requires { length (decoded_text (S.Source.meaning source).to_come) ≤ length buffer.old }
    ensures count { result ≡ length (decoded_text (S.Source.meaning source).to_come) }
    ensures bytes { buffer.new ≡ decoded_text (S.Source.meaning source).to_come ++ drop result buffer.old }
{
    let mut at = 0;
    // by its place, since the buffer's own iterator would test for room once more at each byte
    for byte in (DecodedBytes { left: source }) {
        buffer[at] = byte;
        at += 1;
    }
    at
}

// Decodes all bytes to come of a source, as literal text, to the front of a buffer, and answers how
// many bytes that gives; the bytes past them stay. It works on a copy, so the source does not move.
// A refusal leaves the whole buffer as it was.
#[tactic(auto, using(crate::proofs::Settled::has_room, crate::proofs::Settled::turned_down_so, crate::proofs::Settled::wrote))]
pub fn decode<S: Source>(source: &S, buffer: &mut [u8]) -> Result<usize, Undecoded>
    ensures { Answered (told (S.Source.meaning source.now).place) (DecodesSource buffer.old (S.Source.meaning source.now)) result buffer.new }
{
    check(*source, buffer.len())?;
    Ok(write(*source, buffer))
}
