ghost use Rattle.std.specs.Prelude.{◌≡◌};
ghost use Rattle.objects.specs.Decoding.{reason_of};
ghost use Rattle.objects.specs.Refusals.{number_of, error_of};
ghost use Rattle.objects.specs.declared.error.Reason.TheVariants.{Fault};

use reader::source::Fault;
use text::undecoded::Undecoded;

// The names of the Rust crate's errors, and two added ones.
#[derive(Clone, Copy, PartialEq, Eq, Debug)]
pub enum Error {
    SyntaxError,
    LimitCheck,
    UnsupportedType,
    SourceFault,
    ShortBuffer,
}

// Why a call refused: one case for each numbered refusal.
#[derive(Clone, Copy, PartialEq, Eq, Debug)]
pub enum Reason {
    // 1: after the gap the source ends cleanly
    Missing,
    // 2: a string or an array is not closed
    Unclosed,
    // 3: a closer, or a single >, closes nothing
    Stray,
    // 4: an object of another type
    OtherType,
    // 5: a number past its limits
    PastLimits,
    // 6: a procedure; decoding a hex or ASCII85 string
    Unsupported,
    // 7: the bytes ran out at a fault, carried whole
    Fault(Fault),
    // 8: the caller's buffer is too short
    ShortBuffer,
    // 9: literal text ends in a lone backslash
    LoneBackslash,
}

impl Reason {
    // No cast, as `Kind` has: a fault carries a value.
    pub fn number(&self) -> u8
        ensures { result ≡ number_of self.now }
    {
        match self {
            Reason::Missing => 1,
            Reason::Unclosed => 2,
            Reason::Stray => 3,
            Reason::OtherType => 4,
            Reason::PastLimits => 5,
            Reason::Unsupported => 6,
            Reason::Fault(_) => 7,
            Reason::ShortBuffer => 8,
            Reason::LoneBackslash => 9,
        }
    }
}

impl From<Fault> for Reason {
    ghost from_gives = { λ fault reason. reason ≡ Fault fault };

    fn from(fault: Fault) -> Reason {
        Reason::Fault(fault)
    }
}

impl From<Undecoded> for Reason {
    ghost from_gives = { λ why reason. reason ≡ reason_of why };

    fn from(why: Undecoded) -> Reason {
        match why {
            Undecoded::Fault(fault) => fault.into(),
            Undecoded::LoneBackslash => Reason::LoneBackslash,
            Undecoded::ShortBuffer => Reason::ShortBuffer,
        }
    }
}

impl From<Reason> for Error {
    ghost from_gives = { λ reason error. error ≡ error_of (number_of reason) };

    fn from(reason: Reason) -> Error {
        match reason {
            Reason::PastLimits => Error::LimitCheck,
            Reason::Unsupported => Error::UnsupportedType,
            Reason::Fault(_) => Error::SourceFault,
            Reason::ShortBuffer => Error::ShortBuffer,
            _ => Error::SyntaxError,
        }
    }
}

// A refusal: why, and the place where the refused piece starts.
#[derive(Clone, Copy, PartialEq, Eq, Debug)]
pub struct Refusal {
    pub place: u32,
    pub reason: Reason,
}

impl Refusal {
    // The number that a listing prints: its reason's.
    pub fn number(&self) -> u8
        ensures { result ≡ number_of self.now.reason }
    {
        self.reason.number()
    }

    pub fn error(&self) -> Error
        ensures { result ≡ error_of (number_of self.now.reason) }
    {
        self.reason.into()
    }
}
