ghost use Rattle.std.specs.Prelude.{◌≡◌};
ghost use Rattle.text.specs.declared.undecoded.Undecoded.TheVariants.{Fault as AtFault};

use reader::source::Fault;

// Why literal text is not decoded. Where is not said: its caller knows where the text stands. The crate
// objects, which stands above this one, takes these into its own reasons by From.
#[derive(Clone, Copy, PartialEq, Eq, Debug)]
pub enum Undecoded {
    // its source ends in a fault, carried whole
    Fault(Fault),
    // it ends in a backslash with nothing to escape
    LoneBackslash,
    // the buffer is shorter than the text
    ShortBuffer,
}

impl From<Fault> for Undecoded {
    ghost from_gives = { λ fault why. why ≡ AtFault fault };

    fn from(fault: Fault) -> Undecoded {
        Undecoded::Fault(fault)
    }
}
