//! Laws of what is read off events.
ghost use Rattle.account.specs.Conservation.{BalanceIsSums, VolumesAreSums};

/// A position's signed volume is the signed sum of its deals, whatever the events are.
pub fn volumes_are_sums()
    ensures { VolumesAreSums }
{}

/// The balance is the sum of all profits, swaps and commissions, whatever the events are.
pub fn balance_is_sums()
    ensures { BalanceIsSums }
{}
