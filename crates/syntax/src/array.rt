ghost use Rattle.std.specs.Prelude.{◌≡◌, suc};
ghost use Rattle.definitions.specs.Scan.{items, angle};
ghost use Rattle.syntax.specs.Skips.{Skipped};

use super::open::Open;
use super::string::{skip_ascii85, skip_hex, skip_literal};
use reader::class::{ByteClass, Class, pass};
use reader::source::Source;

// After a < in an array: passes the second < of a mark, or a string.
fn skip_angle<S: Source>(source: &mut S) -> Result<(), Open>
    ensures skips { Skipped angle 1 result (S.Source.meaning source.old) (S.Source.meaning source.new) }
    ensures lies { S.Source.lies source.new ≡ S.Source.lies source.old }
{
    match source.peek() {
        Some(b'<') => {
            source.step();
            Ok(())
        }
        Some(b'~') => {
            source.step();
            skip_ascii85(source)
        }
        _ => skip_hex(source),
    }
}

// After the [ of an array: passes its items and the ] that closes it.
#[tactic(auto, using(crate::proofs::GapSteps::comment_shortens, crate::proofs::GapSteps::comment_moves, crate::proofs::SkipSteps::comment_skips))]
pub fn skip_array<S: Source>(source: &mut S) -> Result<(), Open>
    ensures skips { Skipped (λ d. items (suc d)) 1 result (S.Source.meaning source.old) (S.Source.meaning source.new) }
    ensures lies { S.Source.lies source.new ≡ S.Source.lies source.old }
{
    // the depth stands for a recursion, which the project does without; the loop is left by its label, a
    // rule of the project
    let mut depth: u32 = 0;
    'array: loop {
        let b = source.peek().ok_or(Open::RanOut)?;
        match b {
            b'%' => pass(source, &Class::InComment),
            b'[' => {
                source.step();
                depth += 1;
            }
            b']' => {
                source.step();
                if depth == 0 {
                    break 'array;
                }
                depth -= 1;
            }
            b'(' => {
                source.step();
                skip_literal(source)?;
            }
            b'<' => {
                source.step();
                skip_angle(source)?;
            }
            _ => source.step(),
        }
    }
    Ok(())
}
