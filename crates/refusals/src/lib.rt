// What a call is refused for: every call's table of refusals, asked before anything is written.
#![tactic(auto)]

ghost use Rattle.std.specs.Prelude.{◌≡◌, true};
ghost use Rattle.rules.specs.Replies.{told, plainly, plain};
ghost use Rattle.rules.specs.Frame.{in_frame};
ghost use Rattle.rules.specs.Answer.{reply_number};
ghost use Rattle.refusals.specs.Said.{is_sign, says_all};

use desk::answers::refuse;
use frames::in_frame;
use rules::answers::{Answer, Refusal};
use rules::book::BookView;
use rules::calls::Call;
use rules::limits::HISTORY_ROWS;

// The reply number that a call gets: 2 BadBook where the book is out of frame, which is tested here and once, or what
// its table of refusals comes to.
#[tactic(auto, using(crate::proofs::Framing::unframed_call))]
pub fn call_reply(book: &BookView, c: Call) -> Result<(), Refusal>
    ensures { told (plainly result) ≡ plain (reply_number book.now c) }
{
    refuse(!in_frame(book), Refusal::BadBook)?;
    table_reply(book, c)
}

// The smallest of the refusals that apply to a book in frame, or none: each table is handed what it reads. A trace is
// asked for with tables that have a row for each record that a history can have.
#[tactic(auto, using(crate::proofs::Framing::tables))]
fn table_reply(book: &BookView, c: Call) -> Result<(), Refusal>
    requires { in_frame book.now ≡ true }
    ensures { told (plainly result) ≡ plain (reply_number book.now c) }
{
    let desk = book.desk;
    let counts = desk.counts;
    match c {
        Call::Deposit(x) => inbox::deposit_reply(&desk.lifetime, counts.last, counts.unclaimed, x),
        Call::Claim(x) => {
            let waits = inbox::is_unclaimed(book.inbox, counts.unclaimed, x);
            inbox::claim_reply(waits, counts.records, x)
        }
        Call::Transfer(x) => ledger::transfer_reply(&desk.balances, counts.records, x),
        Call::Withdraw(x) => outbox::withdraw_reply(
            &desk.balances,
            counts.payments,
            counts.records,
            x,
        ),
        Call::Send => outbox::send_reply(outbox::count_waiting(counts.payments, counts.inflight)),
        Call::Settle(n) => outbox::settle_reply(
            counts.inflight,
            outbox::first_nonce(book.outbox),
            n,
        ),
        Call::Grant(x) => ledger::grant_reply(&desk.holders, counts.records, x),
        Call::Sign(x) => ledger::sign_reply(&desk.holders, x),
        Call::Trace(n) => {
            let rows = HISTORY_ROWS;
            history::refusals::history_reply(book.history, counts.records, rows, rows, n)
        }
    }
}

// Whether the number is all that the call comes to: where it is refused, and where it is a sign, nothing is changed,
// handed out or told beside it.
#[tactic(auto, unfolding(crate::specs::Said::says_all))]
pub fn says_all(c: Call, a: Answer) -> bool
    ensures { result ≡ says_all c a }
{
    a.is_err() || is_sign(c)
}

#[tactic(auto, unfolding(crate::specs::Said::is_sign))]
fn is_sign(c: Call) -> bool
    ensures { result ≡ is_sign c }
{
    matches!(c, Call::Sign(_))
}
