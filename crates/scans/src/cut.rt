ghost use Rattle.std.specs.Prelude.{None};
ghost use Rattle.scans.specs.Cuts.{cut_at, cut_limited};

use reader::lent::Lent;
use reader::source::{Ending, Fault, Source, Windowed};

// Lent bytes that end in a fault, if one is given: a source of the tests' own.
#[derive(Clone, Copy)]
pub struct Cut<'a> {
    pub lent: Lent<'a>,
    pub fault: Option<Fault>,
}

impl<'a> Source for Cut<'a> {
    ghost meaning = { cut_at };

    ghost limited = { cut_limited };

    ghost lies = { λ _. None };

    fn peek(&self) -> Option<u8> {
        self.lent.peek()
    }

    fn step(&mut self) {
        self.lent.step();
    }

    fn place(&self) -> u32 {
        self.lent.place()
    }

    fn ending(&self) -> Option<Ending> {
        let below = self.lent.ending()?;
        Some(self.fault.map_or(below, Err))
    }
}

impl<'a> Windowed for Cut<'a> {
    type Inside = Cut<'a>;

    fn window(&self, n: u32) -> Cut<'a> {
        let lent = self.lent.window(n);
        // a window that is no longer than what is left ends cleanly
        if n as usize <= self.lent.to_come().len() {
            Cut { lent, fault: None }
        } else {
            Cut { lent, ..*self }
        }
    }
}
