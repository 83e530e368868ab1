ghost use Rattle.std.specs.Prelude.{◌≡◌, ◌+◌, ◌*◌, ◌^◌, ◌<◌, ◌≤◌, min};

use std::marker::Model;

// A number that grows digit by digit, and stops at MOST: no greater one is told apart from it.
#[derive(Clone, Copy)]
pub struct Capped<const MOST: u64> {
    n: u64,
}

impl<const MOST: u64> Model for Capped<MOST> {
    ghost use Rattle.std.specs.Prelude.{ℕ, ◌≤◌};

    ghost Value = { ℕ };

    ghost view = { λ c. c.n };

    ghost invariant = { λ c. c.n ≤ MOST };

    ghost inverse = { λ n. record { n = n } };
}

impl<const MOST: u64> Capped<MOST> {
    pub fn new(digit: u8) -> Self
        ensures { result ≡ min digit MOST }
    {
        Capped {
            n: u64::from(digit).min(MOST),
        }
    }

    pub fn get(&self) -> u64
        ensures value { result ≡ self.now }
        ensures limit { result ≤ MOST }
    {
        self.n
    }

    // One digit more of a base that is small enough for MOST with one digit more to fit into 64 bits, so
    // that nothing is tested but the cap.
    pub(crate) fn with_digit(&self, base: u8, digit: u8) -> Self
        requires { MOST * base + digit < 2 ^ 64 }
        ensures { result ≡ min (self.now * base + digit) MOST }
    {
        let longer = self.n * u64::from(base) + u64::from(digit);
        Capped {
            n: longer.min(MOST),
        }
    }
}
