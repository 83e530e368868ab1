#![tactic(auto)]

mod cut;

use cut::Cut;
use hexdigits::unhex;
use listing::list::write_listing;
use objects::error::Reason;
use postscript::scanner::Scanner;
use reader::lent::Lent;
use reader::source::{Fault, Source, Windowed};
use std::io;

// The fault in which a cut case ends: of a layer of the tests' own.
const FAULT: Fault = Fault { layer: 9, cause: 7 };

// One more call of parse_object, after the listing has ended.
fn again<S: Windowed>(rt: &HostRuntime, scanner: &mut Scanner<S>) -> io::Result<()> {
    match scanner.parse_object() {
        Ok(object) => println!(rt; "again,object,{}", object.kind().number()),
        Err(refusal) => match refusal.reason {
            Reason::Fault(f) => println!(rt; "again,7,{},{}", f.layer, f.cause),
            _ => println!(rt; "again,{}", refusal.number()),
        },
    }
}

// Lists a source, and calls parse_object once more.
fn scan<S: Windowed>(rt: &HostRuntime, source: S) -> io::Result<()> {
    let mut scanner = Scanner::new(source);
    write_listing(&mut scanner, &mut rt.stdout())?;
    again(rt, &mut scanner)
}

// A case: c for a clean end or f for a fault, a blank, and the bytes in hexadecimal digits.
fn run(rt: &HostRuntime, case: &str) -> anyhow::Result<()> {
    println!(rt; "{case}")?;
    let [ending, _, digits @ ..] = case.as_bytes() else {
        return Ok(());
    };
    let fault = (*ending == b'f').then_some(FAULT);
    let bytes = unhex(rt.alloc(), digits)?;
    let lent = Lent::new(&bytes);
    scan(rt, Cut { lent, fault })?;
    Ok(())
}

fn main(rt: HostRuntime) -> anyhow::Result<()> {
    for line in rt.lines(rt.alloc()) {
        run(&rt, line?.as_str())?;
    }
    Ok(())
}
