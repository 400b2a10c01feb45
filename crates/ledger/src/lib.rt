// The subaccount ledger: transfer, grant and sign. Each call is the frame test, its table of refusals (`.._reply`), which
// is handed what it reads, and then what is done where nothing refuses it (`.._done`; a sign does nothing more). Each
// says in one equation, of all three tables that it is lent, what it answers and what it leaves of the desk and every
// row. A table that a call does not write is lent to be read, so a caller sees that it stays.
// The calls have the test of the frame and the return in common; each has its own tables, table of refusals and
// clause, so one function for all of them would take two closures and be no shorter.
#![tactic(auto)]

ghost use Rattle.std.specs.Prelude.{◌≡◌, length, Ok};
ghost use Rattle.rules.specs.declared.calls.Call.{Call};
ghost use Rattle.rules.specs.declared.answers.Done.{Done};
ghost use Rattle.ledger.specs.After.{CanTransfer, CanGrant, transferred_desk, granted_desk};
ghost use Rattle.rules.specs.Facts.{Accepted};
ghost use Rattle.rules.specs.State.{State};
ghost use Rattle.rules.specs.Replies.{told, plainly, plain, smallest};
ghost use Rattle.rules.specs.Refusals.{table};
ghost use Rattle.rules.specs.Answer.{answer, book_of, outcome_of};

use desk::answers::refuse;
use desk::fields::{balance_of, is_amount, is_asset, is_domain, is_member, of_eight};
use desk::keep::{set_balance, set_of_eight};
use frames::in_frame;
use rules::answers::Refusal;
use rules::book::BookView;
use rules::calls::{GrantFields, SignFields, TransferFields};
use rules::desk::Desk;
use rules::limits::HISTORY_ROWS;
use rules::rows::Record;
use tables::rows::put;

// Transfer (from, to, asset, amount).
#[tactic(auto, using(crate::proofs::Laws::transfer_call), unfolding(rules::specs::Answer::frame_test))]
pub fn transfer(
    desk: &mut Desk,
    inbox: &[u64],
    outbox: &[u64],
    history: &mut [u64],
    t: TransferFields,
) -> Result<(), Refusal>
    ensures { outcome_of (plainly result) (book_of desk.new inbox.now outbox.now history.new) ≡ answer (book_of desk.old inbox.now outbox.now history.old) (Call.Transfer t) }
{
    let is_framed = in_frame(&BookView {
        desk,
        inbox,
        outbox,
        history,
    });
    refuse(!is_framed, Refusal::BadBook)?; // a transfer's reply 2
    transfer_reply(&desk.balances, desk.counts.records, t)?;
    transfer_done(desk, inbox, outbox, history, t);
    Ok(())
}

// Where nothing is refused.
#[tactic(auto, using(crate::proofs::Laws::transfer_done))]
pub fn transfer_done(
    desk: &mut Desk,
    inbox: &[u64],
    outbox: &[u64],
    history: &mut [u64],
    t: TransferFields,
)
    requires { Accepted (book_of desk.old inbox.now outbox.now history.old) (Call.Transfer t) }
    ensures { outcome_of (Ok Done.Plain) (book_of desk.new inbox.now outbox.now history.new) ≡ answer (book_of desk.old inbox.now outbox.now history.old) (Call.Transfer t) }
{
    put(history, desk.counts.records, Record::from(t));
    keep_transferred(desk, t);
}

// The transfer's table of refusals, the smallest number first, for a book in frame. It reads the balances and how many
// records there are.
#[tactic(auto, using(crate::proofs::Laws::transfer_told))]
pub fn transfer_reply(
    balances: &[u64; 128],
    records: usize,
    t: TransferFields,
) -> Result<(), Refusal>
    ensures { (s : State) → s.balances ≡ balances.now → length s.history ≡ records → told (plainly result) ≡ plain (smallest (table s (Call.Transfer t))) }
{
    refuse(!is_member(t.from) || !is_member(t.to), Refusal::BadMember)?;
    refuse(!is_asset(t.asset), Refusal::BadAsset)?;
    refuse(!is_amount(t.amount), Refusal::BadAmount)?;
    refuse(t.from == t.to, Refusal::SameMember)?;
    refuse(
        balance_of(balances, t.from, t.asset) < t.amount,
        Refusal::Short,
    )?;
    refuse(HISTORY_ROWS <= records, Refusal::HistoryFull)
}

// The sender's balance falls, the receiver's grows, and there is one record more.
#[tactic(auto, using(crate::proofs::Laws::balances_moved), unfolding(crate::specs::After::transferred_desk, rules::specs::Effects::credit))]
fn keep_transferred(desk: &mut Desk, t: TransferFields)
    requires { CanTransfer desk.old t }
    ensures { desk.new ≡ transferred_desk desk.old t }
{
    let less = balance_of(&desk.balances, t.from, t.asset) - t.amount;
    set_balance(&mut desk.balances, t.from, t.asset, less);
    let more = balance_of(&desk.balances, t.to, t.asset) + t.amount;
    set_balance(&mut desk.balances, t.to, t.asset, more);
    desk.counts.records += 1;
}

// Grant (from, to, domain): the domain passes to another member.
#[tactic(auto, using(crate::proofs::Laws::grant_call), unfolding(rules::specs::Answer::frame_test))]
pub fn grant(
    desk: &mut Desk,
    inbox: &[u64],
    outbox: &[u64],
    history: &mut [u64],
    g: GrantFields,
) -> Result<(), Refusal>
    ensures { outcome_of (plainly result) (book_of desk.new inbox.now outbox.now history.new) ≡ answer (book_of desk.old inbox.now outbox.now history.old) (Call.Grant g) }
{
    let is_framed = in_frame(&BookView {
        desk,
        inbox,
        outbox,
        history,
    });
    refuse(!is_framed, Refusal::BadBook)?; // a grant's reply 2
    grant_reply(&desk.holders, desk.counts.records, g)?;
    grant_done(desk, inbox, outbox, history, g);
    Ok(())
}

// Where nothing is refused.
#[tactic(auto, using(crate::proofs::Laws::grant_done))]
pub fn grant_done(
    desk: &mut Desk,
    inbox: &[u64],
    outbox: &[u64],
    history: &mut [u64],
    g: GrantFields,
)
    requires { Accepted (book_of desk.old inbox.now outbox.now history.old) (Call.Grant g) }
    ensures { outcome_of (Ok Done.Plain) (book_of desk.new inbox.now outbox.now history.new) ≡ answer (book_of desk.old inbox.now outbox.now history.old) (Call.Grant g) }
{
    put(history, desk.counts.records, Record::from(g));
    keep_granted(desk, g);
}

// The grant's table of refusals, the smallest number first, for a book in frame. It reads the holders and how many
// records there are.
#[tactic(auto, using(crate::proofs::Laws::grant_told))]
pub fn grant_reply(holders: &[u64; 8], records: usize, g: GrantFields) -> Result<(), Refusal>
    ensures { (s : State) → s.holders ≡ holders.now → length s.history ≡ records → told (plainly result) ≡ plain (smallest (table s (Call.Grant g))) }
{
    refuse(!is_member(g.from) || !is_member(g.to), Refusal::BadMember)?;
    refuse(!is_domain(g.domain), Refusal::BadDomain)?;
    refuse(g.from == g.to, Refusal::SameMember)?;
    refuse(of_eight(holders, g.domain) != g.from, Refusal::NotHolder)?;
    refuse(HISTORY_ROWS <= records, Refusal::HistoryFull)
}

// The domain has another holder, and there is one record more.
#[tactic(auto, using(desk::proofs::Books::eight_set_lem), unfolding(crate::specs::After::granted_desk))]
fn keep_granted(desk: &mut Desk, g: GrantFields)
    requires { CanGrant desk.old g }
    ensures { desk.new ≡ granted_desk desk.old g }
{
    set_of_eight(&mut desk.holders, g.domain, g.to);
    desk.counts.records += 1;
}

// Sign (member, domain): allowed exactly if the member holds the domain. Changes nothing.
#[tactic(auto, using(crate::proofs::Laws::sign_call), unfolding(rules::specs::Answer::frame_test))]
pub fn sign(book: &BookView, s: SignFields) -> Result<(), Refusal>
    ensures { outcome_of (plainly result) book.now ≡ answer book.now (Call.Sign s) }
{
    refuse(!in_frame(book), Refusal::BadBook)?;
    sign_reply(&book.desk.holders, s)
}

// The table of refusals of sign, the smallest number first, for a book in frame. It reads the holders.
#[tactic(auto, using(crate::proofs::Laws::sign_told))]
pub fn sign_reply(holders: &[u64; 8], g: SignFields) -> Result<(), Refusal>
    ensures { (s : State) → s.holders ≡ holders.now → told (plainly result) ≡ plain (smallest (table s (Call.Sign g))) }
{
    refuse(!is_member(g.member), Refusal::BadMember)?;
    refuse(!is_domain(g.domain), Refusal::BadDomain)?;
    refuse(of_eight(holders, g.domain) != g.member, Refusal::NotHolder)
}
