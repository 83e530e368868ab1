ghost use Rattle.text.specs.Answers.{Decodable};

use super::undecoded::Undecoded;
use reader::source::Source;

// Goes through the whole text before a byte is written, so that a refusal leaves the buffer as it
// was: a fault comes first, then a lone backslash, then too little room.
pub(crate) fn check<S: Source>(source: S, room: usize) -> Result<(), Undecoded>
    ensures { Decodable (S.Source.meaning source) room result }
{
    let mut left = source;
    let mut escaping = false;
    while let Some(b) = left.peek() {
        left.step();
        escaping = !escaping && b == b'\\';
    }
    let count = (left.place() - source.place()) as usize;
    if let Some(ending) = left.ending() {
        ending?;
    }
    if escaping {
        return Err(Undecoded::LoneBackslash);
    }
    if room < count {
        return Err(Undecoded::ShortBuffer);
    }
    Ok(())
}
