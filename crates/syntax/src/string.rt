ghost use Rattle.std.specs.Prelude.{◌≡◌};
ghost use Rattle.definitions.specs.Scan.{text, hex, ascii85, angle};
ghost use Rattle.syntax.specs.Skips.{Skipped};

use super::open::Open;
use reader::class::{ByteClass, Except, pass};
use reader::source::Source;

// After the ( of a literal string: passes its text and the ) that closes it.
pub fn skip_literal<S: Source>(source: &mut S) -> Result<(), Open>
    ensures skips { Skipped (λ d. text d 0) 1 result (S.Source.meaning source.old) (S.Source.meaning source.new) }
    ensures lies { S.Source.lies source.new ≡ S.Source.lies source.old }
{
    // how many ( are open inside: it stands for a recursion
    let mut depth: u32 = 0;
    while let Some(b) = source.peek() {
        source.step();
        match b {
            b'\\' => source.step(),
            b'(' => depth += 1,
            b')' if depth == 0 => return Ok(()),
            b')' => depth -= 1,
            _ => {}
        }
    }
    Err(Open::RanOut)
}

// After the < of a hex string: passes its digits, unchecked, and the > that closes it.
#[tactic(auto, using(crate::proofs::SkipSteps::hex_out, crate::proofs::SkipSteps::hex_closed))]
pub fn skip_hex<S: Source>(source: &mut S) -> Result<(), Open>
    ensures skips { Skipped hex 1 result (S.Source.meaning source.old) (S.Source.meaning source.new) }
    ensures lies { S.Source.lies source.new ≡ S.Source.lies source.old }
{
    pass(source, &Except { byte: b'>' });
    source.peek().ok_or(Open::RanOut)?;
    source.step();
    Ok(())
}

// After the <~ of an ASCII85 string: passes its digits, unchecked, and the ~> that closes it.
#[tactic(auto, using(crate::proofs::SkipSteps::ascii85_out, crate::proofs::SkipSteps::ascii85_lacks, crate::proofs::SkipSteps::ascii85_closed))]
pub fn skip_ascii85<S: Source>(source: &mut S) -> Result<(), Open>
    ensures skips { Skipped ascii85 2 result (S.Source.meaning source.old) (S.Source.meaning source.new) }
    ensures lies { S.Source.lies source.new ≡ S.Source.lies source.old }
{
    pass(source, &Except { byte: b'~' });
    source.step();
    let b = source.peek().ok_or(Open::RanOut)?;
    if b != b'>' {
        return Err(Open::LacksClose);
    }
    source.step();
    Ok(())
}
