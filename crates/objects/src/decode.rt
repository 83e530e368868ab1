ghost use Rattle.definitions.specs.Decoder.{DecodesSource, DecodesInto, DecodesHeld};
ghost use Rattle.text.specs.Answers.{Answered};
ghost use Rattle.objects.specs.Decoding.{decoder_told};
ghost use Rattle.objects.specs.Objects.{kind_of, kind_number, part_of, string_kind};

use super::error::{Reason, Refusal};
use super::object::Object;
use super::string::{Form, String};
use reader::source::Source;
use text::decode::decode;

// Decodes the bytes to come of a source as literal text; a refusal is at the place that is given.
fn decode_at<S: Source>(source: &S, place: u32, buffer: &mut [u8]) -> Result<usize, Refusal>
    ensures { Answered decoder_told (DecodesInto buffer.old (S.Source.meaning source.now).to_come place (S.Source.meaning source.now).ending) result buffer.new }
{
    decode(source, buffer).map_err(|why| Refusal {
        place,
        reason: why.into(),
    })
}

// The three public functions are one decoder: each says where the text is, and its place.

// Decodes all bytes to come of a source, as literal text, to the front of a buffer, and answers how
// many bytes that gives; the bytes past them stay. The source does not move. A refusal, at the place
// of the source, leaves the whole buffer as it was.
pub fn decode_into<S: Source>(source: &S, buffer: &mut [u8]) -> Result<usize, Refusal>
    ensures { Answered decoder_told (DecodesSource buffer.old (S.Source.meaning source.now)) result buffer.new }
{
    decode_at(source, source.place(), buffer)
}

impl<I: Source> String<I> {
    // Decodes the text inside, as `decode_into` does a source's; a hex or ASCII85 string has none. A
    // refusal is at the string's start.
    #[tactic(auto, using(crate::proofs::Decoded::literal_held, crate::proofs::Decoded::encoded_held))]
    pub fn decode_into(&self, buffer: &mut [u8]) -> Result<usize, Refusal>
        ensures { Answered decoder_told (DecodesHeld buffer.old (kind_number (string_kind self.now.form)) self.now.part.start (I.Source.meaning self.now.part.inside)) result buffer.new }
    {
        match self.form {
            Form::Literal => decode_at(&self.part.inside, self.part.start, buffer),
            _ => Err(Refusal {
                place: self.part.start,
                reason: Reason::Unsupported,
            }),
        }
    }
}

impl<I: Source> Object<I> {
    // Decodes the text of a literal string; any other object is refused, at its start.
    #[tactic(auto, using(crate::proofs::Decoded::other_held))]
    pub fn decode_into(&self, buffer: &mut [u8]) -> Result<usize, Refusal>
        ensures { Answered decoder_told (DecodesHeld buffer.old (kind_number (kind_of self.now)) (part_of self.now).start (I.Source.meaning (part_of self.now).inside)) result buffer.new }
    {
        let Object::String(string) = self else {
            return Err(self.refused(Reason::OtherType));
        };
        string.decode_into(buffer)
    }
}
