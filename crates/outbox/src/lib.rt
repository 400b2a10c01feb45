// The outbox: withdraw, send and settle. Each call is the test of the whole frame, its table of refusals (`.._reply`),
// which is handed what it reads, and then what is done where nothing refuses it (`.._done`). Each says in one equation,
// of all three tables that it is lent, what it answers and what it leaves of the desk and every row. A table that a
// call does not write is lent to be read, so a caller sees that it stays.
// The calls have the test of the frame and the return in common; each has its own tables, table of refusals and
// clause, so one function for all of them would take two closures and be no shorter.
#![tactic(auto)]

ghost use Rattle.std.specs.Prelude.{◌≡◌, ◌-◌, ◌≤◌, length, Ok};
ghost use Rattle.rules.specs.declared.calls.Call.{Call};
ghost use Rattle.rules.specs.declared.answers.Done.{Done};
ghost use Rattle.rules.specs.Facts.{Accepted};
ghost use Rattle.rules.specs.Tables.{payment_shape};
ghost use Rattle.rules.specs.State.{State, payments as paymentsOf};
ghost use Rattle.rules.specs.Replies.{told, answered, plainly, plain, smallest};
ghost use Rattle.rules.specs.Refusals.{table};
ghost use Rattle.rules.specs.Effects.{oldest};
ghost use Rattle.rules.specs.Answer.{answer, book_of, outcome_of};
ghost use Rattle.tables.specs.Rows.{row_at};
ghost use Rattle.outbox.specs.After.{CanWithdraw, CanSettle, withdrawn_desk, settled_desk};

use desk::answers::refuse;
use desk::fields::{balance_of, is_amount, is_asset, is_member, is_payee, of_eight};
use desk::keep::{set_balance, set_of_eight};
use frames::in_frame;
use rules::answers::Refusal;
use rules::book::BookView;
use rules::calls::WithdrawalFields;
use rules::desk::Desk;
use rules::limits::{HISTORY_ROWS, OUTBOX_ROWS, PAYMENT_WIDTH};
use rules::rows::{Nonce, Payment, Record};
use tables::rows::{get, put};
use tables::take_out;

// Withdraw (member, asset, amount, payee): "asset, amount, payee and the next nonce join the end of
// the outbox". The answer carries no nonce, and the row no member.
#[tactic(auto, using(crate::proofs::Laws::withdraw_call), unfolding(rules::specs::Answer::frame_test))]
pub fn withdraw(
    desk: &mut Desk,
    inbox: &[u64],
    outbox: &mut [u64],
    history: &mut [u64],
    w: WithdrawalFields,
) -> Result<(), Refusal>
    ensures { outcome_of (plainly result) (book_of desk.new inbox.now outbox.new history.new) ≡ answer (book_of desk.old inbox.now outbox.old history.old) (Call.Withdraw w) }
{
    let is_framed = in_frame(&BookView {
        desk,
        inbox,
        outbox,
        history,
    });
    refuse(!is_framed, Refusal::BadBook)?; // a withdrawal's reply 2
    withdraw_reply(&desk.balances, desk.counts.payments, desk.counts.records, w)?;
    withdraw_done(desk, inbox, outbox, history, w);
    Ok(())
}

// Where nothing is refused.
#[tactic(auto, using(crate::proofs::Laws::withdraw_done))]
pub fn withdraw_done(
    desk: &mut Desk,
    inbox: &[u64],
    outbox: &mut [u64],
    history: &mut [u64],
    w: WithdrawalFields,
)
    requires { Accepted (book_of desk.old inbox.now outbox.old history.old) (Call.Withdraw w) }
    ensures { outcome_of (Ok Done.Plain) (book_of desk.new inbox.now outbox.new history.new) ≡ answer (book_of desk.old inbox.now outbox.old history.old) (Call.Withdraw w) }
{
    let payment = Payment {
        asset: w.asset,
        amount: w.amount,
        payee: w.payee,
        nonce: desk.counts.next,
    };
    put(outbox, desk.counts.payments, payment);
    put(history, desk.counts.records, Record::from(w));
    keep_withdrawn(desk, w);
}

// The withdrawal's table of refusals, the smallest number first, for a book in frame. It reads the balances and how
// many payments and records there are.
#[tactic(auto, using(crate::proofs::Laws::withdraw_told))]
pub fn withdraw_reply(
    balances: &[u64; 128],
    payments: usize,
    records: usize,
    w: WithdrawalFields,
) -> Result<(), Refusal>
    ensures { (s : State) → s.balances ≡ balances.now → length (paymentsOf s.outside) ≡ payments → length s.history ≡ records → told (plainly result) ≡ plain (smallest (table s (Call.Withdraw w))) }
{
    refuse(!is_member(w.member), Refusal::BadMember)?;
    refuse(!is_asset(w.asset), Refusal::BadAsset)?;
    refuse(!is_amount(w.amount), Refusal::BadAmount)?;
    refuse(!is_payee(w.payee), Refusal::BadPayee)?;
    refuse(
        balance_of(balances, w.member, w.asset) < w.amount,
        Refusal::Short,
    )?;
    refuse(OUTBOX_ROWS <= payments, Refusal::OutboxFull)?;
    refuse(HISTORY_ROWS <= records, Refusal::HistoryFull)
}

// The balance falls, "the next nonce rises by 1", and there is one payment and one record more.
#[tactic(auto, using(crate::proofs::Laws::balances), unfolding(crate::specs::After::withdrawn_desk, rules::specs::Effects::debit))]
fn keep_withdrawn(desk: &mut Desk, w: WithdrawalFields)
    requires { CanWithdraw desk.old w }
    ensures { desk.new ≡ withdrawn_desk desk.old w }
{
    let less = balance_of(&desk.balances, w.member, w.asset) - w.amount;
    set_balance(&mut desk.balances, w.member, w.asset, less);
    desk.counts.next.0 += 1;
    desk.counts.payments += 1;
    desk.counts.records += 1;
}

// Send: "the oldest waiting payment becomes in flight; the answer gives nonce, asset, amount, payee.
// It keeps its outbox row." So no table is lent to be written.
#[tactic(auto, using(crate::proofs::Laws::send_call), unfolding(rules::specs::Answer::frame_test))]
pub fn send(
    desk: &mut Desk,
    inbox: &[u64],
    outbox: &[u64],
    history: &[u64],
) -> Result<Payment, Refusal>
    ensures { outcome_of (answered Done.Sent result) (book_of desk.new inbox.now outbox.now history.now) ≡ answer (book_of desk.old inbox.now outbox.now history.now) Call.Send }
{
    let is_framed = in_frame(&BookView {
        desk,
        inbox,
        outbox,
        history,
    });
    refuse(!is_framed, Refusal::BadBook)?; // a send's reply 2
    send_reply(count_waiting(desk.counts.payments, desk.counts.inflight))?;
    Ok(send_done(desk, inbox, outbox, history))
}

// Where nothing is refused.
#[tactic(auto, using(crate::proofs::Laws::send_done))]
pub fn send_done(desk: &mut Desk, inbox: &[u64], outbox: &[u64], history: &[u64]) -> Payment
    requires { Accepted (book_of desk.old inbox.now outbox.now history.now) Call.Send }
    ensures { outcome_of (Ok (Done.Sent result)) (book_of desk.new inbox.now outbox.now history.now) ≡ answer (book_of desk.old inbox.now outbox.now history.now) Call.Send }
{
    let payment = get(outbox, desk.counts.inflight);
    desk.counts.inflight += 1;
    payment
}

// How many payments wait: those of the outbox but the ones in flight, on any two numbers.
pub fn count_waiting(payments: usize, inflight: usize) -> usize
    ensures { result ≡ payments - inflight }
{
    payments.saturating_sub(inflight)
}

// The send's table of refusals, for a book in frame. It reads how many wait.
#[tactic(auto, using(crate::proofs::Laws::send_told))]
pub fn send_reply(waiting: usize) -> Result<(), Refusal>
    ensures { (s : State) → length s.outside.waiting ≡ waiting → told (plainly result) ≡ plain (smallest (table s Call.Send)) }
{
    refuse(waiting == 0, Refusal::NothingWaiting)
}

// Settle (nonce): the oldest payment in flight "leaves the outbox and the asset's settled total
// grows". A nonce is asked for, so no deposit number can be settled.
#[tactic(auto, using(crate::proofs::Laws::settle_call), unfolding(rules::specs::Answer::frame_test))]
pub fn settle(
    desk: &mut Desk,
    inbox: &[u64],
    outbox: &mut [u64],
    history: &[u64],
    n: Nonce,
) -> Result<(), Refusal>
    ensures { outcome_of (plainly result) (book_of desk.new inbox.now outbox.new history.now) ≡ answer (book_of desk.old inbox.now outbox.old history.now) (Call.Settle n) }
{
    let is_framed = in_frame(&BookView {
        desk,
        inbox,
        outbox,
        history,
    });
    refuse(!is_framed, Refusal::BadBook)?; // a settlement's reply 2
    settle_reply(desk.counts.inflight, first_nonce(outbox), n)?;
    settle_done(desk, inbox, outbox, history, n);
    Ok(())
}

// Where nothing is refused.
#[tactic(auto, using(crate::proofs::Laws::settle_done))]
pub fn settle_done(desk: &mut Desk, inbox: &[u64], outbox: &mut [u64], history: &[u64], n: Nonce)
    requires { Accepted (book_of desk.old inbox.now outbox.old history.now) (Call.Settle n) }
    ensures { outcome_of (Ok Done.Plain) (book_of desk.new inbox.now outbox.new history.now) ≡ answer (book_of desk.old inbox.now outbox.old history.now) (Call.Settle n) }
{
    let payment = get(outbox, 0);
    take_out(outbox, PAYMENT_WIDTH, 0, desk.counts.payments);
    keep_settled(desk, payment);
}

// The nonce of the outbox's first row, and 0 where there is none.
pub fn first_nonce(outbox: &[u64]) -> Nonce
    ensures { result ≡ (row_at payment_shape 0 outbox.now).nonce }
{
    get::<Payment>(outbox, 0).nonce
}

// The settlement's table of refusals, for a book in frame. It reads how many are in flight and, where some are, the
// nonce of the oldest.
#[tactic(auto, using(crate::proofs::Laws::settle_told))]
pub fn settle_reply(inflight: usize, due: Nonce, n: Nonce) -> Result<(), Refusal>
    ensures { (s : State) → length s.outside.inflight ≡ inflight → (1 ≤ inflight → (oldest s.outside.inflight).nonce ≡ due) → told (plainly result) ≡ plain (smallest (table s (Call.Settle n))) }
{
    refuse(inflight == 0 || due != n, Refusal::NotNext)
}

// The settled total of the payment's asset grows by its amount, and there is one payment less, which
// was in flight.
#[tactic(auto, using(crate::proofs::Laws::totals), unfolding(crate::specs::After::settled_desk, rules::specs::Effects::raised, rules::specs::Effects::total))]
fn keep_settled(desk: &mut Desk, p: Payment)
    requires { CanSettle desk.old p }
    ensures { desk.new ≡ settled_desk desk.old p }
{
    let more = of_eight(&desk.settled, p.asset) + p.amount;
    set_of_eight(&mut desk.settled, p.asset, more);
    desk.counts.payments -= 1;
    desk.counts.inflight -= 1;
}
