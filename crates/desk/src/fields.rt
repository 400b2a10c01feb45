// The tests on fields, and what a desk keeps under a field's number.
ghost use Rattle.std.specs.Prelude.{◌≡◌, ◌-◌, ◌<◌, ◌&&◌, cond, Some, None, MatchOption, ⊤};
ghost use Rattle.rules.specs.Limits.{within, is_member, is_asset, is_domain, is_amount, is_payee};
ghost use Rattle.rules.specs.Effects.{balance, cell};
ghost use Rattle.desk.specs.Parts.{of_eight};

use rules::limits::{ASSETS, CEILING, DOMAINS, HIGHEST_PAYEE, MEMBERS};

pub fn is_within(lo: u64, hi: u64, x: u64) -> bool
    ensures { result ≡ within lo hi x }
{
    lo <= x && x <= hi
}

// Each field has a test of its own, under the definition's name; what they have in common is `is_within`.
pub fn is_member(m: u64) -> bool
    ensures { result ≡ is_member m }
{
    is_within(1, MEMBERS, m)
}

pub fn is_asset(a: u64) -> bool
    ensures { result ≡ is_asset a }
{
    is_within(1, ASSETS, a)
}

pub fn is_domain(d: u64) -> bool
    ensures { result ≡ is_domain d }
{
    is_within(1, DOMAINS, d)
}

pub fn is_amount(x: u64) -> bool
    ensures { result ≡ is_amount x }
{
    is_within(1, CEILING, x)
}

pub fn is_payee(p: u64) -> bool
    ensures { result ≡ is_payee p }
{
    is_within(1, HIGHEST_PAYEE, p)
}

// Where a member's balance in an asset lies among the balances, if there is one.
pub(crate) fn cell(m: u64, a: u64) -> Option<usize>
    ensures is_cell { result ≡ cond (is_member m && is_asset a) (Some (cell m a)) None }
    ensures has_balance { MatchOption result ⊤ (λ at. at < 128) }
{
    if is_member(m) && is_asset(a) {
        Some(((m - 1) * ASSETS + (a - 1)) as usize)
    } else {
        None
    }
}

// Where the one for number i lies among eight numbers, one for each asset or each domain, if there is one.
pub(crate) fn place(i: u64) -> Option<usize>
    ensures is_place { result ≡ cond (within 1 8 i) (Some (i - 1)) None }
    ensures has_number { MatchOption result ⊤ (λ at. at < 8) }
{
    if is_within(1, 8, i) {
        Some((i - 1) as usize)
    } else {
        None
    }
}

// A member's balance in an asset.
#[tactic(auto, unfolding(rules::specs::Effects::balance))]
pub fn balance_of(balances: &[u64; 128], m: u64, a: u64) -> u64
    ensures { result ≡ balance balances.now m a }
{
    cell(m, a).map_or(0, |at| balances[at])
}

// Of eight numbers, one for each asset or each domain, the one for number i.
pub fn of_eight(xs: &[u64; 8], i: u64) -> u64
    ensures { result ≡ of_eight xs.now i }
{
    place(i).map_or(0, |at| xs[at])
}
