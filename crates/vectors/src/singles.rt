use objects::error::Reason;
use postscript::scanner::Scanner;
use reader::lent::Lent;
use single::value::{Number, to_bits};
use std::alloc::{AllocError, Global};

// What parse_number hands over for a real: the bits of a single in hexadecimal digits, or `far`.
pub(crate) fn answer(heap: Global, run: &str) -> Result<String, AllocError> {
    let mut scanner = Scanner::new(Lent::new(run.as_bytes()));
    match scanner.parse_number() {
        Ok(Number::Real(x)) => {
            let bits = to_bits(x);
            format!(in heap; "{bits:08X}")
        }
        Ok(Number::Integer(n)) => format!(in heap; "integer {n}"),
        Err(refusal) => match refusal.reason {
            Reason::PastLimits => String::from_str(heap, "far"),
            reason => format!(in heap; "refused {}", reason.number()),
        },
    }
}
