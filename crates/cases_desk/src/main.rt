// The eight calls on books that no session reaches. For every book and every call a line: the book's
// number, the call's, the reply number, a digest of every number of the desk and the tables
// afterwards, and what a sign request is then answered. Books, calls and the expected lines are made
// by tests/cases/desk.py from the reference.
#![tactic(auto)]

mod data;

ghost use Rattle.std.specs.Prelude.{◌<◌};

use data::{BOOKS, CALLS, EDITS, Part};
use rules::answers::{Answer, Done, Refusal};
use rules::book::{Book, BookView};
use rules::calls::{Call, SignFields};
use rules::desk::{Counts, Desk};
use rules::limits::{
    DEPOSIT_WIDTH, HISTORY_SIZE, INBOX_SIZE, OUTBOX_SIZE, PAYMENT_WIDTH, RECORD_WIDTH,
};
use rules::rows::{DepositNumber, Nonce};
use std::io;

fn main(rt: HostRuntime) -> io::Result<()> {
    for book in 1..=BOOKS {
        for (k, call) in CALLS.iter().enumerate() {
            print!(rt; "{book}\t{}", k + 1)?;
            one(&rt, book, *call)?;
        }
    }
    Ok(())
}

// One call on one book, which is made anew for it.
fn one(rt: &impl Print, book: u64, call: Call) -> io::Result<()> {
    let mut inbox = [0u64; INBOX_SIZE + DEPOSIT_WIDTH];
    let mut outbox = [0u64; OUTBOX_SIZE + PAYMENT_WIDTH];
    let mut history = [0u64; HISTORY_SIZE + RECORD_WIDTH];
    edit(book, Part::Inbox, &mut inbox);
    edit(book, Part::Outbox, &mut outbox);
    edit(book, Part::History, &mut history);
    let mut desk = desk(book);
    let i = size(book, Part::InboxSize, INBOX_SIZE).min(inbox.len());
    let o = size(book, Part::OutboxSize, OUTBOX_SIZE).min(outbox.len());
    let h = size(book, Part::HistorySize, HISTORY_SIZE).min(history.len());
    let mut book = Book {
        desk: &mut desk,
        inbox: &mut inbox[..i],
        outbox: &mut outbox[..o],
        history: &mut history[..h],
    };
    let answer = called(&mut book, call);
    let sign = SignFields {
        member: 2,
        domain: 5,
    };
    let then = called(&mut book, Call::Sign(sign));
    let sum = digest(
        digest(digest(desk_digest(&desk), &inbox), &outbox),
        &history,
    );
    println!(rt;
        "\t{}\t{sum}\t{}",
        replies::reply_number(answer),
        replies::reply_number(then)
    )
}

// ---- the books
// The edits of this book to one of its parts.
fn edit(book: u64, part: Part, t: &mut [u64]) {
    for (of, to, place, number) in &EDITS {
        let is_for = (*of == 0 || *of == book) && *to == part;
        if is_for && *place < t.len() {
            t[*place] = *number;
        }
    }
}

// How many numbers of a table are lent: as many as it should have, unless an edit says otherwise.
fn size(book: u64, part: Part, usual: usize) -> usize {
    let mut n = usual;
    for (of, to, _, number) in &EDITS {
        if *of == book && *to == part {
            n = *number as usize;
        }
    }
    n
}

// The desk of a book.
fn desk(book: u64) -> Desk {
    let mut balances = [0; 128];
    edit(book, Part::Balances, &mut balances);
    let mut holders = [0; 8];
    edit(book, Part::Holders, &mut holders);
    let mut lifetime = [0; 8];
    edit(book, Part::Lifetime, &mut lifetime);
    let mut settled = [0; 8];
    edit(book, Part::Settled, &mut settled);
    Desk {
        balances,
        holders,
        lifetime,
        settled,
        counts: counts(book),
    }
}

fn counts(book: u64) -> Counts {
    let mut numbers = [0; 6];
    edit(book, Part::Counts, &mut numbers);
    let [last, next, unclaimed, payments, inflight, records] = numbers;
    Counts {
        last: DepositNumber(last),
        next: Nonce(next),
        unclaimed: unclaimed as usize,
        payments: payments as usize,
        inflight: inflight as usize,
        records: records as usize,
    }
}

// ---- the calls
fn called(book: &mut Book, call: Call) -> Answer {
    let desk = &mut *book.desk;
    let inbox = &mut *book.inbox;
    let outbox = &mut *book.outbox;
    let history = &mut *book.history;
    match call {
        Call::Deposit(x) => plain(inbox::deposit(desk, inbox, outbox, history, x)),
        Call::Claim(x) => plain(inbox::claim(desk, inbox, outbox, history, x)),
        Call::Transfer(x) => plain(ledger::transfer(desk, inbox, outbox, history, x)),
        Call::Withdraw(x) => plain(outbox::withdraw(desk, inbox, outbox, history, x)),
        Call::Send => outbox::send(desk, inbox, outbox, history).map(Done::Sent),
        Call::Settle(n) => plain(outbox::settle(desk, inbox, outbox, history, n)),
        Call::Grant(x) => plain(ledger::grant(desk, inbox, outbox, history, x)),
        Call::Sign(x) => plain(ledger::sign(
            &BookView {
                desk,
                inbox,
                outbox,
                history,
            },
            x,
        )),
        Call::Trace(_) => Ok(Done::Plain),
    }
}

// The answer of a call that gives nothing beside its number.
fn plain(found: Result<(), Refusal>) -> Answer {
    found.map(|()| Done::Plain)
}

// ---- the digest
fn digest(so_far: u64, t: &[u64]) -> u64
    ensures { result < 1000003 }
{
    let mut sum = so_far % 1000003;
    for n in t {
        sum = (sum * 31 + *n % 1000003) % 1000003;
    }
    sum
}

fn desk_digest(desk: &Desk) -> u64 {
    let counts = desk.counts;
    let numbers = [
        counts.last.0,
        counts.next.0,
        counts.unclaimed as u64,
        counts.payments as u64,
        counts.inflight as u64,
        counts.records as u64,
    ];
    let lists = digest(digest(0, &desk.balances), &desk.holders);
    digest(
        digest(digest(lists, &desk.lifetime), &desk.settled),
        &numbers,
    )
}
