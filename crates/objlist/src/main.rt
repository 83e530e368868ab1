#![tactic(auto)]

ghost use Rattle.std.specs.Prelude.{◌≤◌, length, IfOk, OnOk};
ghost use Rattle.std.specs.Io.KnownBytes.{Appends};
ghost use Rattle.definitions.specs.Listing.{listing};
ghost use Rattle.definitions.specs.Sources.{lent};
ghost use Rattle.objects.specs.declared.error.Reason.TheVariants.{ShortBuffer};
ghost use Rattle.listing.specs.Entries.{refusal_line};

use listing::line::Line;
use listing::lines::SHORT_BUFFER;
use listing::list::write_listing;
use postscript::scanner::Scanner;
use reader::lent::Lent;
use std::io;
use std::io::{Read, Write};

// The most bytes that are read.
const MOST: usize = 65_536;

// Reads until the input ends or the buffer is full, and counts what came. By hand, since
// `read_to_end` needs a heap, and `read_exact` does not tell how much came before an end.
fn fill<R: Read>(input: &mut R, buffer: &mut [u8]) -> io::Result<usize>
    ensures { IfOk result (λ n. n ≤ length buffer.new) }
{
    let mut count = 0;
    while count < buffer.len() {
        let got = input.read(&mut buffer[count..])?;
        if got == 0 {
            break;
        }
        count += got;
    }
    Ok(count)
}

// The line of an input that is too long.
fn refuse<W: Write>(output: &mut W) -> io::Result<()>
    ensures { OnOk result (Appends (W.contents output.old) (W.contents output.new) (refusal_line (record { place = 0; reason = ShortBuffer }))) }
{
    output.write_all(Line::of_refusal(&SHORT_BUFFER).as_bytes())
}

// Lists the objects of a job, a line each, up to the end or a refusal.
fn list<W: Write>(job: &[u8], output: &mut W) -> io::Result<()>
    ensures { OnOk result (Appends (W.contents output.old) (W.contents output.new) (listing (lent job.now))) }
{
    let mut scanner = Scanner::new(Lent::new(job));
    write_listing(&mut scanner, output)
}

fn main(rt: HostRuntime) -> io::Result<()> {
    let mut input = rt.stdin();
    // Each line is one write: a buffer would be on the heap.
    let mut output = rt.stdout();
    // no heap: an array, and what came of it
    let mut bytes = [0u8; MOST];
    let mut more = [0u8; 1];
    let count = fill(&mut input, &mut bytes)?;
    if count == MOST && fill(&mut input, &mut more)? > 0 {
        refuse(&mut output)?;
    } else {
        list(&bytes[..count], &mut output)?;
    }
    output.flush()
}
