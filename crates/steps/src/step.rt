// One call of the nine: answered, its reply's line written, and counted.
ghost use Rattle.std.specs.Prelude.{◌≡◌, ◌≤◌, false, Ok};
ghost use Rattle.rules.specs.Facts.{Accepted};
ghost use Rattle.rules.specs.Replies.{told, plain};
ghost use Rattle.rules.specs.Answer.{answer, outcome_of, reply_number};
ghost use Rattle.rules.specs.Transcript.{tallied};
ghost use Rattle.rules.specs.Lent.{lent_book, SameTables};
ghost use Rattle.pages.specs.Writing.{put};
ghost use Rattle.pages.specs.Lent.{page_of, SameBuffer};
ghost use Rattle.replies.specs.Writing.{reply_line};
ghost use Rattle.steps.specs.Step.{is_trace, replied_of, replied};

use crate::tally::raise;
use crate::traced::put_trace;
use pages::Page;
use refusals::{call_reply, says_all};
use replies::{put_reply_line, reply_number};
use rules::answers::{Answer, Done, Tally};
use rules::book::{Book, BookView};
use rules::calls::Call;

// "A read line is one of nine calls": what refuses it is asked first. Where the number is all that it comes to, the
// book stays where it lies; any other call is done. It answers the reply's number, because the tally counts by it
// (`tallied`). Book, page and line are three parameters: each comes from another owner, and a caller of the library
// lends them one by one.
pub fn step(book: &mut Book, page: &mut Page, line: u64, c: Call) -> u64
    ensures replied { replied_of result (lent_book book.new) (page_of page.new) ≡ replied line (page_of page.old) (answer (lent_book book.old) c) }
    ensures tables { SameTables book.old book.new }
    ensures buffer { SameBuffer page.old page.new }
{
    let answer = reply_of(book, c);
    if says_all(c, answer) {
        return put_answered(page, line, answer);
    }
    step_done(book, page, line, c)
}

// The call's reply: what refuses it, if anything does.
fn reply_of(book: &Book, c: Call) -> Answer
    ensures { told result ≡ plain (reply_number (lent_book book.now) c) }
{
    let view = BookView {
        desk: book.desk,
        inbox: book.inbox,
        outbox: book.outbox,
        history: book.history,
    };
    call_reply(&view, c)?;
    Ok(Done::Plain)
}

// "One tally, handed to each step and updated there": raised once, by the number of the step's reply.
pub fn counted_step(book: &mut Book, page: &mut Page, line: u64, tally: &mut Tally, c: Call)
    requires done_bound { tally.old.done ≤ 100000 }
    requires other_bound { tally.old.other ≤ 100000 }
    ensures replied { replied_of (answer (lent_book book.old) c).reply.number (lent_book book.new) (page_of page.new) ≡ replied line (page_of page.old) (answer (lent_book book.old) c) }
    ensures tables { SameTables book.old book.new }
    ensures buffer { SameBuffer page.old page.new }
    ensures tally_after { tally.new ≡ tallied tally.old (answer (lent_book book.old) c).reply.number }
{
    let number = step(book, page, line, c);
    raise(tally, number);
}

// A call that nothing refuses. Only a trace, which works in tables of its own, is tested again.
fn step_done(book: &mut Book, page: &mut Page, line: u64, c: Call) -> u64
    requires { Accepted (lent_book book.old) c }
    ensures replied { replied_of result (lent_book book.new) (page_of page.new) ≡ replied line (page_of page.old) (answer (lent_book book.old) c) }
    ensures tables { SameTables book.old book.new }
    ensures buffer { SameBuffer page.old page.new }
{
    match c {
        Call::Trace(n) => put_trace(book, page, line, n),
        _ => {
            let done = call_done(book, c);
            put_answered(page, line, Ok(done))
        }
    }
}

// Each call but a trace is done by its own function; a sign changes nothing.
#[tactic(auto, using(crate::proofs::Steps::signed))]
fn call_done(book: &mut Book, c: Call) -> Done
    requires accepted { Accepted (lent_book book.old) c }
    requires no_trace { is_trace c ≡ false }
    ensures done { outcome_of (Ok result) (lent_book book.new) ≡ answer (lent_book book.old) c }
    ensures tables { SameTables book.old book.new }
{
    let desk = &mut *book.desk;
    let inbox = &mut *book.inbox;
    let outbox = &mut *book.outbox;
    let history = &mut *book.history;
    match c {
        Call::Deposit(x) => {
            inbox::deposit_done(desk, inbox, outbox, history, x);
            Done::Plain
        }
        Call::Claim(x) => {
            inbox::claim_done(desk, inbox, outbox, history, x);
            Done::Plain
        }
        Call::Transfer(x) => {
            ledger::transfer_done(desk, inbox, outbox, history, x);
            Done::Plain
        }
        Call::Withdraw(x) => {
            outbox::withdraw_done(desk, inbox, outbox, history, x);
            Done::Plain
        }
        Call::Send => Done::Sent(outbox::send_done(desk, inbox, outbox, history)),
        Call::Settle(n) => {
            outbox::settle_done(desk, inbox, outbox, history, n);
            Done::Plain
        }
        Call::Grant(x) => {
            ledger::grant_done(desk, inbox, outbox, history, x);
            Done::Plain
        }
        Call::Sign(_) => Done::Plain,
        Call::Trace(_) => unreachable!(),
    }
}

// The reply's line of an answer that hands out no pieces, and its number.
pub(crate) fn put_answered(page: &mut Page, line: u64, a: Answer) -> u64
    ensures number_value { result ≡ (told a).number }
    ensures written { page_of page.new ≡ put (page_of page.old) (reply_line line (told a)) }
    ensures buffer { SameBuffer page.old page.new }
{
    put_reply_line(page, line, a);
    reply_number(a)
}
