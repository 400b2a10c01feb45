// The replay of a history in lots: one record, the records before a payment, and what the payment then
// takes, as its pieces.
#![tactic(auto)]

ghost use Rattle.std.specs.Prelude.{◌≡◌, length};
ghost use Rattle.rules.specs.Tables.{rows_of, record_shape};
ghost use Rattle.lots.specs.Traces.{before_payment};
ghost use Rattle.replays.specs.Replaying.{CanReplay, Replays, CanReplayAll, ReplaysAll, CanTrace, Traces};

use records::record_at;
use rules::rows::{BadKind, DepositNumber, Kind, Lot, Record};
use takings::rows::{append, clear};
use takings::work::{join, take_from};

// "Payment n is the withdrawal with n withdrawals before it": its place among the records, or past
// the last where there is none: so many are before it (`before_payment`). The kind is compared as the number that stands
// in the row, where any may stand (`Record`).
pub fn payment_at(history: &[u64], records: usize, n: u64) -> usize
    ensures { result ≡ length (before_payment n (rows_of record_shape records history.now)) }
{
    (0..records)
        .filter(|i| record_at(history, *i).kind == Kind::Withdrawal as u64)
        .nth(n as usize)
        .unwrap_or(records)
}

// The pieces of payment n into the first rows of their table; "every row of the work table ends as
// zeros". How many pieces there are.
pub fn traced(
    history: &[u64],
    records: usize,
    n: u64,
    work: &mut [Lot],
    held: &mut [Lot],
    pieces: &mut [Lot],
) -> usize
    requires { CanTrace history.now records n work.old held.old pieces.old }
    ensures { Traces history.now records n work.old pieces.old result work.new pieces.new }
{
    let at = payment_at(history, records, n);
    let used = replayed_until(history, at, work, held);
    let r = record_at(history, at);
    let t = take_from(work, used, held, r.first, r.asset, r.amount);
    join(pieces, 0, held, t.taken, r.first);
    clear(work);
    t.taken
}

// "Replay the history": the lots after the first `at` records, from none; how many there are.
fn replayed_until(history: &[u64], at: usize, work: &mut [Lot], held: &mut [Lot]) -> usize
    requires { CanReplayAll at work.old held.old }
    ensures { ReplaysAll at history.now result work.new }
{
    let mut used = 0;
    for i in 0..at {
        used = replayed(work, used, held, record_at(history, i));
    }
    used
}

// What a record does to the lots; how many there are then.
fn replayed(work: &mut [Lot], used: usize, held: &mut [Lot], r: Record) -> usize
    requires { CanReplay used work.old held.old }
    ensures { Replays r used work.old result work.new }
{
    match Kind::try_from(r.kind) {
        Ok(Kind::Claim) => {
            let l = Lot {
                member: r.first,
                asset: r.asset,
                number: DepositNumber(r.second),
                amount: r.amount,
            };
            append(work, used, l);
            used + 1
        }
        Ok(Kind::Transfer) => {
            let t = take_from(work, used, held, r.first, r.asset, r.amount);
            join(work, t.kept, held, t.taken, r.second);
            t.kept + t.taken
        }
        Ok(Kind::Withdrawal) => take_from(work, used, held, r.first, r.asset, r.amount).kept,
        Ok(Kind::Grant) => used,
        Err(BadKind) => used,
    }
}
