ghost use Rattle.std.specs.Prelude.{OnOk};
ghost use Rattle.std.specs.Io.KnownBytes.{Appends};
ghost use Rattle.definitions.specs.Listing.{listing};
ghost use Rattle.listing.specs.Entries.{ComesNext, ListsNext, ListedUpTo};

use super::entry::{Entry, Written};
use super::line::Line;
use super::lines::check_room;
use objects::error::Refusal;
use postscript::scanner::Scanner;
use reader::source::{Source, Windowed};
use std::io;
use std::io::Write;

// What the next line tells of.
fn next_entry<S: Windowed>(scanner: &mut Scanner<S>) -> Entry<S::Inside>
    ensures { ComesNext S.Inside.Source.meaning (S.Source.meaning scanner.old.source) (S.Source.meaning scanner.new.source) result }
{
    if scanner.at_end() {
        return Entry::End(scanner.place());
    }
    match scanner.parse_object() {
        Ok(object) => Entry::Object(object),
        Err(refusal) => Entry::Refused(refusal),
    }
}

// Writes the next line of a listing: it calls at_end, then, on a no, parse_object. A listing ends
// after a refusal, and on a yes. A short buffer is refused, and nothing moves.
#[tactic(auto, using(crate::proofs::NextLine::next_line))]
pub fn list_next<S: Windowed>(
    scanner: &mut Scanner<S>,
    buffer: &mut [u8],
) -> Result<Written, Refusal>
    ensures { ListsNext buffer.old buffer.new (S.Source.meaning scanner.old.source) (S.Source.meaning scanner.new.source) result }
{
    check_room(buffer)?;
    let entry = next_entry(scanner);
    let length = Line::of_entry(&entry).copy_to(buffer);
    let last = entry.is_last();
    Ok(Written { length, last })
}

// Writes the whole listing, one write for each line, and stops at the first write that fails.
#[tactic(auto, using(crate::proofs::Whole::line_by_line))]
pub fn write_listing<S: Windowed, W: Write>(
    scanner: &mut Scanner<S>,
    output: &mut W,
) -> io::Result<()>
    ensures text { OnOk result (Appends (W.contents output.old) (W.contents output.new) (listing (S.Source.meaning scanner.old.source))) }
    ensures stands { OnOk result (ListedUpTo (S.Source.meaning scanner.old.source) (S.Source.meaning scanner.new.source)) }
{
    'lines: loop {
        let entry = next_entry(scanner);
        let line = Line::of_entry(&entry);
        output.write_all(line.as_bytes())?;
        if entry.is_last() {
            return Ok(());
        }
    }
}
