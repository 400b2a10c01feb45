// The desk: the eight balances of each of sixteen members, the domain holders, the totals, and the
// counts of the lent tables' used rows.
use crate::rows::{DepositNumber, Nonce};

#[derive(Clone, Copy)]
pub struct Desk {
    // Member m's balance in asset a is at (m - 1) * 8 + (a - 1).
    pub balances: [u64; 128],
    // The member who holds domain d is at d - 1.
    pub holders: [u64; 8],
    // Lifetime deposits, and what has settled, of asset a at a - 1.
    pub lifetime: [u64; 8],
    pub settled: [u64; 8],
    pub counts: Counts,
}

// The counters and the counts of a desk: a number that a desk keeps beside its lists stands here alone.
#[derive(Clone, Copy, Default)]
pub struct Counts {
    // The last deposit number accepted, and the next payment's nonce.
    pub last: DepositNumber,
    pub next: Nonce,
    // Used rows of the inbox, of the outbox (of which the first are in flight), and of the history.
    pub unclaimed: usize,
    pub payments: usize,
    pub inflight: usize,
    pub records: usize,
}
