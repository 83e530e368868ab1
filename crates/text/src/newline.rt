ghost use Rattle.std.specs.Prelude.{◌≡◌, ◌≤◌, length};
ghost use Rattle.definitions.specs.LiteralText.{decode, past_feed};

use reader::source::Source;

// After a 0D: passes the 0A that is a part of the same newline, if one follows.
pub(crate) fn pass_feed<S: Source>(source: &mut S)
    ensures means { past_feed (S.Source.meaning source.old).to_come ≡ decode (S.Source.meaning source.new).to_come }
    ensures passes { length (S.Source.meaning source.new).to_come ≤ length (S.Source.meaning source.old).to_come }
{
    if source.peek() == Some(b'\n') {
        source.step();
    }
}
