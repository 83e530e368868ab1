ghost use Rattle.std.specs.Prelude.{◌≡◌, ◌<◌, length, Some, nat_lt};
ghost use Rattle.definitions.specs.Sources.{lent, limit};
ghost use Rattle.reader.specs.Addresses.{further};
ghost use Rattle.reader.specs.Lent.{lent_at, lent_limited, lies_at};

use super::source::{Ending, Fault, Source, Windowed};

// Place plus bytes to come never passes this.
pub const LIMIT: usize = 4_294_967_295;

// What a longer slice ends in.
const TOO_LONG: Fault = Fault { layer: 1, cause: 1 };

// Lent bytes, layer 1: a slice, and the place reached in it. The bytes and the place are kept
// apart, and every value means something, so no fact about the two is needed. A slice longer than
// the limit means no bytes and a fault; its length is tested again at each call, but
// does not change in a loop. What it means is told by functions of its fields
// (specs/Lent.antt), since a type with a lifetime that is Copy can have no Model.
#[derive(Clone, Copy)]
pub struct Lent<'a> {
    bytes: &'a [u8],
    at: u32,
}

impl<'a> Lent<'a> {
    pub fn new(bytes: &'a [u8]) -> Lent<'a>
        ensures means { lent_at result ≡ lent bytes.now }
        ensures lies { lies_at result ≡ Some bytes.entry.ref_ptr }
    {
        Lent { bytes, at: 0 }
    }

    fn is_too_long(&self) -> bool
        ensures { result ≡ nat_lt limit (length self.now.bytes.now) }
    {
        self.bytes.len() > LIMIT
    }

    // The bytes to come: a part of the caller's slice, at its place.
    pub fn to_come(&self) -> &'a [u8]
        ensures bytes { result.now ≡ (lent_at self.now).to_come }
        ensures lies { 0 < length result.now → Some result.ref_ptr ≡ further (lent_at self.now).place (lies_at self.now) }
    {
        let at = self.at as usize;
        if at <= self.bytes.len() && !self.is_too_long() {
            &self.bytes[at..]
        } else {
            &self.bytes[..0]
        }
    }
}

impl<'a> Source for Lent<'a> {
    ghost meaning = { lent_at };

    ghost limited = { lent_limited };

    ghost lies = { lies_at };

    fn peek(&self) -> Option<u8> {
        self.to_come().first().copied()
    }

    fn step(&mut self) {
        if !self.to_come().is_empty() {
            self.at += 1;
        }
    }

    fn place(&self) -> u32 {
        self.at
    }

    fn ending(&self) -> Option<Ending> {
        if self.is_too_long() {
            Some(Err(TOO_LONG))
        } else if self.to_come().is_empty() {
            Some(Ok(()))
        } else {
            None
        }
    }
}

impl<'a> Windowed for Lent<'a> {
    type Inside = Lent<'a>;

    fn window(&self, n: u32) -> Lent<'a> {
        if n > 0 && self.is_too_long() {
            // no byte of it is to come, and it ends at the fault
            return Lent::new(self.bytes);
        }
        let left = self.to_come();
        Lent::new(&left[..(n as usize).min(left.len())])
    }
}
