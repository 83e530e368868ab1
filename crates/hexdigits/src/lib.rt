// Bytes as the tables of cases write them: two hexadecimal digits each. Not by the kit's `hex`, whose
// decoder refuses a digit alone or a byte that is none, and whose code no edit could turn.
#![tactic(auto)]

ghost use Rattle.std.specs.Prelude.{◌≡◌, IfOk, string_bytes};
ghost use Rattle.hexdigits.specs.Digits.{bits_of, bytes_of, digits_of};

use reader::class::digit_worth;
use std::alloc::{AllocError, Global};

// The four bits that a digit stands for; of a byte that is no digit, some four bits.
fn bits(digit: u8) -> u8
    ensures { result ≡ bits_of digit }
{
    digit_worth(digit) & 15
}

// The bytes of hexadecimal digits.
#[tactic(auto, using(crate::proofs::Pairs::pairs_are))]
pub fn unhex(heap: Global, digits: &[u8]) -> Result<Vec<u8>, AllocError>
    ensures { IfOk result (λ v. v.items ≡ bytes_of digits.now) }
{
    let (pairs, _) = digits.as_chunks::<2>();
    pairs
        .iter()
        .map(|[high, low]| bits(*high) * 16 + bits(*low))
        .collect(heap)
}

// The hexadecimal digits of bytes.
#[tactic(auto, using(std::proofs::lemmas::Fmt::hex_byte, crate::proofs::Pairs::byte_goes_on))]
pub fn hex(heap: Global, bytes: &[u8]) -> Result<String, AllocError>
    ensures { IfOk result (λ s. string_bytes s ≡ digits_of bytes.now) }
{
    let mut digits = String::new(heap);
    for b in bytes {
        write!(digits, "{b:02x}")?;
    }
    Ok(digits)
}
