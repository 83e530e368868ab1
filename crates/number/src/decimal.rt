ghost use Rattle.std.specs.Prelude.{◌≡◌, ◌^◌, ◌<◌, true, pos, neg_ℤ, ◌≤ℤ◌, MatchOption, IsTrue, ◌↔◌};
ghost use Rattle.definitions.specs.Numbers.{Decimal as Limits};

use std::fmt;

// A real as its run writes it: worth c × 10^k, below 0 where it is negative. Its limits are in its
// type: c is below 10^18, k is from -99 to 99, and k is 0 where c is. They are ghost fields and no
// Model: whoever holds a decimal can cite them, behind a reference too, and what holds one is copied
// like any other value, which the toolchain does not cover where a Model stands in it.
#[derive(Clone, Copy, PartialEq, Eq, Debug)]
pub struct Decimal {
    // the largest first, which makes a copy shorter
    c: u64,
    k: i8,
    // a flag and no sign: it is one question, and `is_negative` answers it
    negative: bool,
    ghost digits: { c < 10 ^ 18 },
    ghost low: { neg_ℤ (pos 99) ≤ℤ k },
    ghost high: { k ≤ℤ pos 99 },
    ghost plain: { c ≡ 0 → k ≡ pos 0 },
}

// Whether a decimal may have this c and k.
fn within(c: u64, k: i8) -> bool
    ensures { IsTrue result ↔ Limits c k }
{
    c < 1_000_000_000_000_000_000 && (-99..=99).contains(&k) && (c != 0 || k == 0)
}

impl Decimal {
    // None where no decimal has this c and k.
    pub fn new(negative: bool, c: u64, k: i8) -> Option<Decimal>
        ensures { MatchOption result (Limits c k → ⊥) (λ d. (d.negative ≡ negative) × (d.c ≡ c) × (d.k ≡ k)) }
    {
        if within(c, k) {
            Some(Decimal { negative, c, k })
        } else {
            None
        }
    }

    // Every decimal is within the limits.
    pub fn is_within(&self) -> bool
        ensures { (result ≡ true) × Limits self.now.c self.now.k }
    {
        within(self.c, self.k)
    }

    pub fn is_negative(&self) -> bool
        ensures { result ≡ self.now.negative }
    {
        self.negative
    }

    pub fn c(&self) -> u64
        ensures value { result ≡ self.now.c }
        ensures limit { result < 10 ^ 18 }
    {
        self.c
    }

    pub fn k(&self) -> i8
        ensures value { result ≡ self.now.k }
        ensures low { neg_ℤ (pos 99) ≤ℤ result }
        ensures high { result ≤ℤ pos 99 }
    {
        self.k
    }
}

// As `-5e-1`: c, e and k, after a minus where it is negative.
impl fmt::Display for Decimal {
    ghost use Rattle.std.specs.Prelude.{Some};
    ghost use Rattle.number.specs.Scaled.{text};

    ghost output = { λ d. Some (text (record { negative = d.negative; c = d.c; k = d.k })) };

    fn fmt<W: fmt::Write>(&self, f: &mut fmt::Formatter<W>) -> fmt::Result {
        let sign = if self.negative { "-" } else { "" };
        write!(f, "{sign}{}e{}", self.c, self.k)
    }
}
