ghost use Rattle.std.specs.Prelude.{◌≡◌, min};
ghost use Rattle.std.proofs.Common.{rules};
ghost use Rattle.subject.specs.Charges.{ByMeaning};
ghost use Rattle.subject.specs.Moneys.{of_cents, amount, money_meaning, no_money, sum_of, money_no_more};

use crate::charge::Charge;

/// The largest sum of money, in cents.
pub const CEILING: u64 = 4_000_000_000_000_000_000;

/// Money, in whole cents. Joining adds, and stops at the ceiling; more than the ceiling means the ceiling.
#[derive(Clone, Copy, Debug)]
pub struct Money {
    pub cents: u64,
}

impl Money {
    /// A sum of money, at most the ceiling.
    pub fn of_cents(cents: u64) -> Money
        ensures { result ≡ of_cents (min cents CEILING) }
    {
        Money {
            cents: cents.min(CEILING),
        }
    }

    /// The cents that a sum of money means.
    pub fn amount(self) -> u64
        ensures { result ≡ amount self }
    {
        self.cents.min(CEILING)
    }
}

impl Charge for Money {
    ghost meaning = { money_meaning };

    ghost nothing = { no_money };

    ghost join = { sum_of };

    ghost no_more = { money_no_more };

    ghost laws = { unfold ByMeaning in Prim.search rules };

    fn nothing() -> Money {
        Money { cents: 0 }
    }

    fn join(self, other: Money) -> Money {
        Money::of_cents(self.amount() + other.amount())
    }

    fn no_more(&self, other: &Money) -> bool {
        self.amount() <= other.amount()
    }
}
