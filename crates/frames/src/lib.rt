// The frame test, every clause of document 01 but the history's, on any desk and any three tables.
#![tactic(auto)]

ghost use Rattle.std.specs.Prelude.{◌≡◌, ◌&&◌, leb, ltb, eqb};
ghost use Rattle.rules.specs.Limits.{within};
ghost use Rattle.rules.specs.Lists.{all};
ghost use Rattle.rules.specs.Frame.{in_frame, deposit_in_limits, payment_in_limits};
ghost use Rattle.frames.specs.Parts.{inbox_frame, outbox_frame, lists_frame, counts_frame};

use desk::fields::{is_amount, is_asset, is_member, is_payee, is_within};
use rules::book::BookView;
use rules::desk::{Counts, Desk};
use rules::limits::{
    CEILING, HIGHEST_NEXT, HIGHEST_NUMBER, HISTORY_ROWS, HISTORY_SIZE, INBOX_ROWS, INBOX_SIZE,
    MEMBERS, OUTBOX_ROWS, OUTBOX_SIZE,
};
use rules::rows::{Deposit, Payment};
use tables::rows::get;

// Whether a book is in frame. All parts are tested, with `&`: with `&&` each test would leave the function from where it
// stands, and the test of full tables take a quarter longer.
#[tactic(auto, using(crate::proofs::Frames::frame_parts))]
pub fn in_frame(book: &BookView) -> bool
    ensures { result ≡ in_frame book.now }
{
    let counts = book.desk.counts;
    counts_in_frame(counts, book.history.len())
        & (lists_in_frame(book.desk)
            & (inbox_in_frame(book.inbox, counts.unclaimed, counts.last.0)
                & outbox_in_frame(book.outbox, counts.payments, counts.next.0)))
}

// The counts and the counters of the desk, and the size of the history's table.
#[tactic(auto, unfolding(crate::specs::Parts::counts_frame))]
fn counts_in_frame(c: Counts, size: usize) -> bool
    ensures { result ≡ counts_frame c size }
{
    size == HISTORY_SIZE
        && c.records <= HISTORY_ROWS
        && c.inflight <= c.payments
        && c.last.0 <= HIGHEST_NUMBER
        && c.next.0 <= HIGHEST_NEXT
}

// The balances, the totals and the holders of the desk.
#[tactic(auto, using(crate::proofs::Laws::lists_frame_is))]
fn lists_in_frame(desk: &Desk) -> bool
    ensures { result ≡ lists_frame desk.now.balances desk.now.holders desk.now.lifetime desk.now.settled }
{
    balances_in_frame(&desk.balances)
        & (all_within(&desk.lifetime, 0, CEILING)
            & (all_within(&desk.settled, 0, CEILING) & all_within(&desk.holders, 1, MEMBERS)))
}

// The balances member by member, a member's eight together: eight tests in a row need no count.
fn balances_in_frame(b: &[u64; 128]) -> bool
    ensures { result ≡ all (within 0 1000000000000000) b.now }
{
    b.chunks_exact(8)
        .all(|member| all_within(member, 0, CEILING))
}

// Whether every number of the slice is from lo to hi.
fn all_within(s: &[u64], lo: u64, hi: u64) -> bool
    ensures { result ≡ all (within lo hi) s.now }
{
    s.iter().all(|x| is_within(lo, hi, *x))
}

// The inbox: its size, its count, and each used row against the one before it.
fn inbox_in_frame(t: &[u64], n: usize, last: u64) -> bool
    ensures { result ≡ inbox_frame t.now n last }
{
    if t.len() != INBOX_SIZE || INBOX_ROWS < n {
        return false;
    }
    let mut before = 0;
    for i in 0..n {
        let row = get::<Deposit>(t, i);
        if !deposit_in_frame(before, last, row) {
            return false;
        }
        before = row.number.0;
    }
    true
}

// One test after the other, so that the processor guesses each of them.
fn deposit_in_frame(before: u64, last: u64, row: Deposit) -> bool
    ensures { result ≡ deposit_in_limits row && (ltb before row.number.0 && leb row.number.0 last) }
{
    is_member(row.member)
        && is_asset(row.asset)
        && is_amount(row.amount)
        && before < row.number.0
        && row.number.0 <= last
}

// The outbox: its size, its count, and each used row with the nonce that is due.
fn outbox_in_frame(t: &[u64], n: usize, next: u64) -> bool
    ensures { result ≡ outbox_frame t.now n next }
{
    if t.len() != OUTBOX_SIZE || OUTBOX_ROWS < n {
        return false;
    }
    let Some(first) = next.checked_sub(n as u64) else {
        return false;
    };
    for i in 0..n {
        let row = get::<Payment>(t, i);
        if !payment_in_frame(first + i as u64, row) {
            return false;
        }
    }
    true
}

fn payment_in_frame(due: u64, row: Payment) -> bool
    ensures { result ≡ payment_in_limits row && eqb row.nonce.0 due }
{
    is_asset(row.asset) && is_amount(row.amount) && is_payee(row.payee) && row.nonce.0 == due
}
