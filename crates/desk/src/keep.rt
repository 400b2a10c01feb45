// One number of a desk kept anew, in the list where it lies. Outside the limits the list is as it was.
ghost use Rattle.std.specs.Prelude.{◌≡◌};
ghost use Rattle.desk.specs.Kept.{balance_set, eight_set};

use crate::fields::{cell, place};

pub fn set_balance(balances: &mut [u64; 128], m: u64, a: u64, x: u64)
    ensures { balances.new ≡ balance_set balances.old m a x }
{
    if let Some(at) = cell(m, a) {
        balances[at] = x;
    }
}

// Of eight numbers, one for each asset or each domain, the one for number i kept anew.
pub fn set_of_eight(xs: &mut [u64; 8], i: u64, x: u64)
    ensures { xs.new ≡ eight_set xs.old i x }
{
    if let Some(at) = place(i) {
        xs[at] = x;
    }
}
