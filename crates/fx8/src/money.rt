//! Amounts of money.
ghost use Rattle.std.specs.Prelude.{◌≡◌};

use std::marker::Model;

/// An amount of money: a signed 128-bit count of hundredths of the account's currency. Contracts see the
/// count.
#[derive(Clone, Copy, Debug, PartialEq, Eq, PartialOrd, Ord)]
pub struct Money {
    cents: i128,
}

impl Model for Money {
    ghost use Rattle.std.specs.Prelude.{ℤ};

    ghost Value = { ℤ };

    ghost view = { λ money. money.cents };

    ghost inverse = { λ cents. record { cents = cents } };
}

impl Money {
    /// The amount of so many hundredths.
    pub fn of_cents(cents: i128) -> Money
        ensures { result ≡ cents }
    {
        Money { cents }
    }

    /// How many hundredths the amount is.
    pub fn cents(self) -> i128
        ensures { result ≡ self }
    {
        self.cents
    }
}
