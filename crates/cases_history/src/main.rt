// The questions to the records, on histories of every kind. For each case a line: the case's number,
// then reply and number of four questions for a provenance, then for four nonces the trace's reply,
// its piece count, and a digest of each lent table afterwards. Cases and the expected lines are made
// by tests/cases/history.py from the reference.
#![tactic(auto)]

mod data;

ghost use Rattle.std.specs.Prelude.{◌<◌};

use data::{CASES, Case, Rule};
use rules::answers::Refusal;
use rules::book::BookView;
use rules::desk::{Counts, Desk};
use rules::limits::{HISTORY_ROWS, HISTORY_SIZE, INBOX_SIZE, OUTBOX_SIZE};
use rules::rows::{DepositNumber, Kind, Lot, Nonce, Record};
use std::io;

fn main(rt: HostRuntime) -> io::Result<()> {
    for (k, case) in CASES.iter().enumerate() {
        print!(rt; "{k}")?;
        one(&rt, *case)?;
        println!(rt; "")?;
    }
    Ok(())
}

fn one(rt: &impl Print, (rule, place, number, work, pieces): Case) -> io::Result<()> {
    let mut history = [0u64; HISTORY_SIZE];
    fill(rule, &mut history);
    if place < history.len() {
        history[place] = number;
    }
    let book = BookView {
        desk: &desk(records(rule)),
        inbox: &[0; INBOX_SIZE],
        outbox: &[0; OUTBOX_SIZE],
        history: &history,
    };
    for (member, asset) in [(2, 3), (4, 3), (17, 3), (2, 9)] {
        provenance(rt, &book, member, asset)?;
    }
    for n in [0, 1, 255, u64::MAX] {
        trace(rt, &book, work, pieces, Nonce(n))?;
    }
    Ok(())
}

// ---- the books
// A desk of nothing but so many records.
fn desk(records: usize) -> Desk {
    let mut counts = Counts::default();
    counts.records = records;
    Desk {
        balances: [0; 128],
        holders: [1; 8],
        lifetime: [0; 8],
        settled: [0; 8],
        counts,
    }
}

fn records(rule: Rule) -> usize {
    match rule {
        Rule::Whole => 1001,
        Rule::Split | Rule::Everyone => HISTORY_ROWS,
        Rule::Each => 6,
        Rule::Nothing => 0,
    }
}

fn fill(rule: Rule, history: &mut [u64]) {
    for i in 0..HISTORY_ROWS as u16 {
        let [kind, asset, amount, first, second] = record(rule, i);
        let row = Record {
            kind,
            asset,
            amount,
            first,
            second,
        };
        tables::rows::put(history, usize::from(i), row);
    }
}

fn record(rule: Rule, i: u16) -> [u64; 5] {
    match rule {
        Rule::Whole => whole(i),
        Rule::Split => split(i),
        Rule::Each => each(i),
        Rule::Everyone => everyone(i),
        Rule::Nothing => [0; 5],
    }
}

// 400 lots go back and forth whole, 600 times, and then pay.
fn whole(i: u16) -> [u64; 5] {
    let i = u64::from(i);
    if i < 400 {
        return [Kind::Claim as u64, 3, 1, 2, i + 1];
    }
    if i < 1000 {
        if i % 2 == 0 {
            return [Kind::Transfer as u64, 3, 400, 2, 4];
        }
        return [Kind::Transfer as u64, 3, 400, 4, 2];
    }
    [Kind::Withdrawal as u64, 3, 400, 2, 7]
}

// Two members pay each other back and forth, splitting as they go.
fn split(i: u16) -> [u64; 5] {
    let i = u64::from(i);
    if i < 2 {
        return [Kind::Claim as u64, 3, 1000, 2 + 2 * i, i + 1];
    }
    if i < 1023 {
        let x = 1 + i / 2 * 2 * 37 % 499;
        if i % 2 == 0 {
            return [Kind::Transfer as u64, 3, x, 2, 4];
        }
        return [Kind::Transfer as u64, 3, x, 4, 2];
    }
    [Kind::Withdrawal as u64, 3, 500, 2, 9]
}

// One of each kind.
fn each(i: u16) -> [u64; 5] {
    match i {
        0 => [Kind::Claim as u64, 3, 500, 2, 1],
        1 => [Kind::Transfer as u64, 3, 50, 2, 5],
        2 => [Kind::Withdrawal as u64, 3, 100, 2, 7],
        3 => [Kind::Withdrawal as u64, 3, 50, 2, 8],
        4 => [Kind::Grant as u64, 5, 1, 1, 2],
        _ => [Kind::Claim as u64, 3, 40, 6, 4],
    }
}

// All members and assets.
fn everyone(i: u16) -> [u64; 5] {
    let i = u64::from(i);
    let m = i / 4 % 16 + 1;
    let a = i / 4 % 8 + 1;
    match i % 4 {
        0 => [Kind::Claim as u64, a, 100, m, i + 1],
        1 => [Kind::Transfer as u64, a, 60, m, m % 16 + 1],
        2 => [Kind::Withdrawal as u64, a, 30, m, 7],
        _ => [Kind::Claim as u64, a, 5, m, i + 1],
    }
}

// ---- provenance
fn provenance(rt: &impl Print, book: &BookView, member: u64, asset: u64) -> io::Result<()> {
    match records::origin::provenance(book, member, asset) {
        Ok(n) => print!(rt; "\t0\t{n}"),
        Err(why) => print!(rt; "\t{}\t0", replies::refusal_number(why)),
    }
}

// ---- trace
// The reply, the piece count, and a digest of each lent table afterwards.
fn trace(
    rt: &impl Print,
    book: &BookView,
    work_rows: usize,
    piece_rows: usize,
    n: Nonce,
) -> io::Result<()> {
    let mut work = [lot_of(7); HISTORY_ROWS];
    let mut pieces = [lot_of(9); HISTORY_ROWS];
    let work = &mut work[..work_rows.min(HISTORY_ROWS)];
    let pieces = &mut pieces[..piece_rows.min(HISTORY_ROWS)];
    let (number, count) = told(history::trace::trace(book, work, pieces, n));
    print!(rt; "\t{number}\t{count}\t{}\t{}", digest(work), digest(pieces))
}

fn told(found: Result<usize, Refusal>) -> (u64, usize) {
    match found {
        Ok(count) => (0, count),
        Err(why) => (replies::refusal_number(why), 0),
    }
}

// A lot of one number.
fn lot_of(n: u64) -> Lot {
    Lot {
        member: n,
        asset: n,
        number: DepositNumber(n),
        amount: n,
    }
}

fn digest(lots: &[Lot]) -> u64
    ensures { result < 1000003 }
{
    let mut sum = 0;
    for l in lots {
        for n in [l.member, l.asset, l.number.0, l.amount] {
            sum = (sum * 31 + n % 1000003) % 1000003;
        }
    }
    sum
}
