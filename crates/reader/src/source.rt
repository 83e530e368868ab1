ghost use Rattle.std.specs.Prelude.{◌≡◌, ◌<◌, ◌≤◌, length, Option};
ghost use Rattle.definitions.specs.Moves.{first, stepped, ending_told};
ghost use Rattle.definitions.specs.Sources.{Meaning, InLimit, window};
ghost use Rattle.reader.specs.Addresses.{Address, further};
ghost use Rattle.reader.specs.Endings.{heard};

// A fault by its layer (1 lent bytes, 2 window, 3 eexec) and its cause. Both are numbers, since a
// source of another crate has a layer and causes of its own.
#[derive(Clone, Copy, PartialEq, Eq, Debug)]
pub struct Fault {
    pub layer: u8,
    pub cause: u8,
}

// How a source's bytes run out: cleanly, or at a fault.
pub type Ending = Result<(), Fault>;

// A source means the bytes to come, the place of the first of them, and how they run out. A copy
// means the same as its original, since it is the same value.
pub trait Source: Copy {
    ghost meaning: { Self → Meaning };

    // Where place 0 lies in memory, for a source that holds its bytes there. No move changes that. Each
    // function that moves a source says so, since a fact in a type tells of one value, not of two.
    ghost lies: { Self → Option Address };

    // The first byte to come, or none.
    fn peek(&self) -> Option<u8>
        ensures { result ≡ first (meaning self.now).to_come };

    // Takes the first byte; with none to come nothing changes.
    fn step(&mut self)
        ensures means { meaning self.new ≡ stepped (meaning self.old) }
        ensures lies { lies self.new ≡ lies self.old };

    fn place(&self) -> u32
        ensures { result ≡ (meaning self.now).place };

    // None while a byte is to come.
    fn ending(&self) -> Option<Ending>
        ensures { heard result ≡ ending_told (meaning self.now).to_come (meaning self.now).ending };

    // A law: place plus bytes to come never passes 4,294,967,295.
    ghost limited: { (s : Self) → InLimit (meaning s) };
}

// A source of which the next n bytes can be handed out as a source of their own: what an object's
// inside is. Where this source holds its bytes in memory, they are not copied.
pub trait Windowed: Source {
    type Inside: Source;

    fn window(&self, n: u32) -> Self::Inside
        ensures means { Self.Inside.Source.meaning result ≡ window n (Self.Source.meaning self.now) }
        ensures lies { 0 < n → n ≤ length (Self.Source.meaning self.now).to_come → Self.Inside.Source.lies result ≡ further (Self.Source.meaning self.now).place (Self.Source.lies self.now) };
}
