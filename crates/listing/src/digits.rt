ghost use Rattle.std.specs.Prelude.{◌≡◌, length};
ghost use Rattle.definitions.specs.Listing.{decimal};

// Decimal digits. They are this crate's own, and not those of the kit's `itoa`, since one of the
// edits that the prover must refuse turns them.

// How many decimal digits a number has.
#[tactic(auto, using(crate::proofs::Decimals::digits_by_power))]
pub(crate) fn digit_count(n: u64) -> usize
    ensures { result ≡ length (decimal n) }
{
    n.max(1).ilog10() as usize + 1
}

// The decimal digits of a number, from the last to the first, in as many slots as it has digits. By
// index, since a proof learns nothing of what is written through `iter_mut().rev()`.
pub(crate) fn write_digits(slots: &mut [u8], n: u64)
    requires { length slots.old ≡ length (decimal n) }
    ensures { slots.new ≡ decimal n }
{
    let mut left = n;
    for at in (0..slots.len()).rev() {
        slots[at] = b'0' + (left % 10) as u8;
        left /= 10;
    }
}
