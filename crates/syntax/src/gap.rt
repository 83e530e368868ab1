ghost use Rattle.std.specs.Prelude.{◌≡◌};
ghost use Rattle.definitions.specs.PlainReader.{GapPassed};

use reader::class::{ByteClass, Class, pass};
use reader::source::Source;

// Passes the gap: the longest row of blanks, comments, and marks << and >>.
#[tactic(auto, using(crate::proofs::GapSteps::comment_shortens, crate::proofs::GapSteps::comment_moves, crate::proofs::GapSteps::comment_keeps, crate::proofs::GapSteps::gap_passed))]
pub fn pass_gap<S: Source>(source: &mut S)
    ensures gap { GapPassed (S.Source.meaning source.old) (S.Source.meaning source.new) }
    ensures lies { S.Source.lies source.new ≡ S.Source.lies source.old }
{
    // left from the inner match by its label: a rule of the project
    'gap: while let Some(b) = source.peek() {
        match b {
            _ if Class::Blank.contains(b) => source.step(),
            b'%' => pass(source, &Class::InComment),
            b'<' | b'>' => {
                let mut ahead = *source;
                ahead.step();
                if ahead.peek() != Some(b) {
                    break 'gap;
                }
                ahead.step();
                *source = ahead;
            }
            _ => break 'gap,
        }
    }
}
