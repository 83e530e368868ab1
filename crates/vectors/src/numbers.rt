ghost use Rattle.std.specs.Prelude.{◌≡◌, Some, IfOk, string_bytes};
ghost use Rattle.number.specs.Runs.{as_reading};
ghost use Rattle.vectors.specs.Words.{words, number_words};

use number::machine::{Reading, read};
use reader::lent::Lent;
use std::alloc::{AllocError, Global};
use std::fmt;

// A reading as the table writes it: `integer 5`, `real -5e-1`, `limits` or `name`.
#[derive(Clone, Copy)]
struct Words(Reading);

impl fmt::Display for Words {
    ghost output = { λ w. Some (words (as_reading w.0)) };

    fn fmt<W: fmt::Write>(&self, f: &mut fmt::Formatter<W>) -> fmt::Result {
        match self.0 {
            Reading::Integer(n) => write!(f, "integer {n}"),
            Reading::Real(d) => write!(f, "real {d}"),
            Reading::PastLimits => write!(f, "limits"),
            Reading::Name => write!(f, "name"),
        }
    }
}

// What a run is read as.
#[tactic(auto, using(definitions::proofs::ReadsOnce::reading_is))]
pub fn answer(heap: Global, run: &str) -> Result<String, AllocError>
    ensures { IfOk result (λ s. string_bytes s ≡ number_words run.now) }
{
    let mut source = Lent::new(run.as_bytes());
    Words(read(&mut source)).to_string(heap)
}
