#![tactic(auto)]

// Reads a table of cases from standard input, and prints each case that came out wrong and a count
// for each section. README.md says how a table is written.
mod numbers;
mod singles;
mod texts;

use std::alloc::{AllocError, Global};
use std::io::{BufRead, BufReader};
use std::str::FromStr;
use std::{fmt, io};

// What the cases of a section are.
#[derive(Clone, Copy)]
enum Section {
    Numbers,
    Singles,
    Texts,
    ShortTexts,
}

// A section's name that is not known.
#[derive(Clone, Copy)]
struct Unknown;

impl FromStr for Section {
    type Err = Unknown;

    fn from_str(name: &str) -> Result<Section, Unknown> {
        match name {
            "numbers" => Ok(Section::Numbers),
            "singles" => Ok(Section::Singles),
            "texts" => Ok(Section::Texts),
            "short texts" => Ok(Section::ShortTexts),
            _ => Err(Unknown),
        }
    }
}

impl fmt::Display for Section {
    fn fmt<W: fmt::Write>(&self, f: &mut fmt::Formatter<W>) -> fmt::Result {
        match self {
            Section::Numbers => write!(f, "numbers"),
            Section::Singles => write!(f, "singles"),
            Section::Texts => write!(f, "texts"),
            Section::ShortTexts => write!(f, "short texts"),
        }
    }
}

impl Section {
    // What a case of this section comes to, in the table's words. A table of functions would be no
    // plainer than the match.
    fn answer(self, heap: Global, given: &str) -> Result<String, AllocError> {
        match self {
            Section::Numbers => numbers::answer(heap, given),
            Section::Singles => singles::answer(heap, given),
            Section::Texts => texts::answer(heap, given, 0),
            Section::ShortTexts => texts::answer(heap, given, 1),
        }
    }
}

// What the cases of a section came to; with no section, those before the first or of one that is
// not known.
#[derive(Clone, Copy)]
struct Tally {
    section: Option<Section>,
    right: u64,
    wrong: u64,
}

impl fmt::Display for Tally {
    fn fmt<W: fmt::Write>(&self, f: &mut fmt::Formatter<W>) -> fmt::Result {
        match self.section {
            Some(section) => write!(f, "{section}")?,
            None => write!(f, "other")?,
        }
        write!(f, ": {} right, {} wrong", self.right, self.wrong)
    }
}

impl Tally {
    fn new(section: Option<Section>) -> Tally {
        Tally {
            section,
            right: 0,
            wrong: 0,
        }
    }

    // Checks the case of a line.
    fn check(&mut self, rt: &HostRuntime, number: u64, line: &str) -> io::Result<()> {
        let (given, expected) = line.split_once('\t').unwrap_or((line, ""));
        let got = match self.section {
            Some(section) => section.answer(rt.alloc(), given)?,
            None => String::from_str(rt.alloc(), "unknown")?,
        };
        if got.as_str() == expected {
            self.right = self.right.saturating_add(1);
            Ok(())
        } else {
            self.wrong = self.wrong.saturating_add(1);
            println!(rt; "line {number}: {given}: got {got}")
        }
    }

    // A line of its counts, unless it has no case.
    fn report(&self, rt: &HostRuntime) -> io::Result<()> {
        if self.right == 0 && self.wrong == 0 {
            return Ok(());
        }
        println!(rt; "{self}")
    }
}

fn main(rt: HostRuntime) -> io::Result<()> {
    let mut tally = Tally::new(None);
    let lines = BufReader::new(rt.alloc(), rt.stdin())?.lines(rt.alloc());
    // lines count from 1
    for (number, line) in (1..=u64::MAX).zip(lines) {
        let line = line?;
        if let Some(name) = line.as_str().strip_prefix("# ") {
            tally.report(&rt)?;
            tally = Tally::new(name.parse().ok());
        } else {
            tally.check(&rt, number, line.as_str())?;
        }
    }
    tally.report(&rt)
}
