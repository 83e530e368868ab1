ghost use Rattle.std.specs.Prelude.{◌≡◌};

// Where an object stands, and its inside: a source of its own.
#[derive(Clone, Copy)]
pub struct Part<I> {
    pub start: u32,
    pub end: u32,
    pub inside: I,
}
