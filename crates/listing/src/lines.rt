#![tactic(auto, using(crate::proofs::Texts::refused_short, std::proofs::lemmas::Result::err_from_is_err_and))]

ghost use Rattle.std.specs.Prelude.{◌≡◌, ◌≤◌, length, IfOk, IfErr, OnOk, OnErr, ◌<◌};
ghost use Rattle.definitions.specs.Listing.{WritesLine};
ghost use Rattle.objects.specs.Decoding.{decoder_told};
ghost use Rattle.objects.specs.declared.error.Reason.TheVariants.{ShortBuffer};
ghost use Rattle.listing.specs.Entries.{line_of, refusal_line};

use super::entry::Entry;
use super::line::Line;
use objects::error::{Reason, Refusal};
use reader::source::Source;

// No line is longer.
pub const LONGEST: usize = 48;

// What is answered for a buffer in which not every line has room.
pub const SHORT_BUFFER: Refusal = Refusal {
    place: 0,
    reason: Reason::ShortBuffer,
};

// Refuses a buffer that is shorter than the longest line.
pub(crate) fn check_room(buffer: &[u8]) -> Result<(), Refusal>
    ensures room { OnOk result (48 ≤ length buffer.now) }
    ensures short { OnErr result (length buffer.now < 48) }
    ensures why { IfErr result (λ r. r ≡ record { place = 0; reason = ShortBuffer }) }
{
    if buffer.len() < LONGEST {
        Err(SHORT_BUFFER)
    } else {
        Ok(())
    }
}

// Writes the line of a refusal to the front of a buffer, as `write_line` does. Both are `check_room` and
// `copy_to`, each with its line: a refusal alone has no source, so it is no entry. That the length is
// within the buffer is a clause of its own: the decoder's record of both is of the crate text, and to use
// that crate for one clause would be no plainer.
pub fn write_refusal(refusal: &Refusal, buffer: &mut [u8]) -> Result<usize, Refusal>
    ensures line { WritesLine buffer.old (refusal_line «refusal».now) (decoder_told result) buffer.new }
    ensures room { IfOk result (λ n. n ≤ length buffer.new) }
{
    check_room(buffer)?;
    Ok(Line::of_refusal(refusal).copy_to(buffer))
}

// Writes the line of an entry to the front of a buffer, and answers its length; the bytes past it
// stay. A buffer that is shorter than the longest line is refused, and stays as it was.
pub fn write_line<I: Source>(entry: &Entry<I>, buffer: &mut [u8]) -> Result<usize, Refusal>
    ensures line { WritesLine buffer.old (line_of I.Source.meaning entry.now) (decoder_told result) buffer.new }
    ensures room { IfOk result (λ n. n ≤ length buffer.new) }
{
    check_room(buffer)?;
    Ok(Line::of_entry(entry).copy_to(buffer))
}
