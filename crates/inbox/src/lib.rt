// The inbox: deposit and claim. Each call tests the whole frame, then asks its table of refusals (`.._reply`), and
// then does what is done where nothing refuses it (`.._done`). Each says in one equation, of all three tables that it
// is lent, what it answers and what it leaves of the desk and every row. A table that a call does not write is lent
// to be read, so a caller sees that it stays.
// The calls have the test of the frame and the return in common; each has its own tables, table of refusals and
// clause, so one function for all of them would take two closures and be no shorter.
#![tactic(auto)]

ghost use Rattle.std.specs.Prelude.{◌≡◌, length, Ok};
ghost use Rattle.rules.specs.declared.calls.Call.{Call};
ghost use Rattle.rules.specs.declared.answers.Done.{Done};
ghost use Rattle.rules.specs.Facts.{Accepted};
ghost use Rattle.rules.specs.State.{State};
ghost use Rattle.rules.specs.Replies.{told, plainly, plain, smallest};
ghost use Rattle.rules.specs.Refusals.{table};
ghost use Rattle.rules.specs.Lists.{any};
ghost use Rattle.rules.specs.Effects.{matches};
ghost use Rattle.rules.specs.Answer.{answer, book_of, outcome_of};
ghost use Rattle.tables.specs.Rows.{place_of};
ghost use Rattle.inbox.specs.After.{row_of, is_gap, passes_ceiling, is_unclaimed, CanDeposit, CanClaim, deposited_desk, claimed_desk};

use desk::answers::refuse;
use desk::fields::{balance_of, is_amount, is_asset, is_member, of_eight};
use desk::keep::{set_balance, set_of_eight};
use frames::in_frame;
use rules::answers::Refusal;
use rules::book::BookView;
use rules::calls::ClaimFields;
use rules::desk::Desk;
use rules::limits::{CEILING, DEPOSIT_WIDTH, HIGHEST_NUMBER, HISTORY_ROWS, INBOX_ROWS};
use rules::rows::{Deposit, DepositNumber, Record};
use tables::rows::put;
use tables::{find_row, take_out};

// Deposit (number, asset, amount, member): added at the end of the inbox.
#[tactic(auto, using(crate::proofs::Laws::deposit_call), unfolding(rules::specs::Answer::frame_test))]
pub fn deposit(
    desk: &mut Desk,
    inbox: &mut [u64],
    outbox: &[u64],
    history: &[u64],
    x: Deposit,
) -> Result<(), Refusal>
    ensures { outcome_of (plainly result) (book_of desk.new inbox.new outbox.now history.now) ≡ answer (book_of desk.old inbox.old outbox.now history.now) (Call.Deposit x) }
{
    let is_framed = in_frame(&BookView {
        desk,
        inbox,
        outbox,
        history,
    });
    refuse(!is_framed, Refusal::BadBook)?; // a deposit's reply 2
    let counts = desk.counts;
    deposit_reply(&desk.lifetime, counts.last, counts.unclaimed, x)?;
    deposit_done(desk, inbox, outbox, history, x);
    Ok(())
}

// Where nothing is refused.
#[tactic(auto, using(crate::proofs::Laws::deposit_done))]
pub fn deposit_done(desk: &mut Desk, inbox: &mut [u64], outbox: &[u64], history: &[u64], x: Deposit)
    requires { Accepted (book_of desk.old inbox.old outbox.now history.now) (Call.Deposit x) }
    ensures { outcome_of (Ok Done.Plain) (book_of desk.new inbox.new outbox.now history.now) ≡ answer (book_of desk.old inbox.old outbox.now history.now) (Call.Deposit x) }
{
    put(inbox, desk.counts.unclaimed, x);
    keep_deposited(desk, x);
}

// The deposit's table of refusals, the smallest number first, for a book in frame. It reads the lifetime totals, the
// last number and how many are unclaimed.
#[tactic(auto, using(crate::proofs::Laws::deposit_told))]
pub fn deposit_reply(
    lifetime: &[u64; 8],
    last: DepositNumber,
    unclaimed: usize,
    x: Deposit,
) -> Result<(), Refusal>
    ensures { (s : State) → s.outside.lifetime ≡ lifetime.now → s.outside.last ≡ last → length s.inbox ≡ unclaimed → told (plainly result) ≡ plain (smallest (table s (Call.Deposit x))) }
{
    refuse(!is_member(x.member), Refusal::BadMember)?;
    refuse(!is_asset(x.asset), Refusal::BadAsset)?;
    refuse(!is_amount(x.amount), Refusal::BadAmount)?;
    refuse(x.number.0 <= last.0, Refusal::Old)?;
    refuse(is_gap(last.0, x.number.0), Refusal::Gap)?;
    refuse(
        passes_ceiling(of_eight(lifetime, x.asset), x.amount),
        Refusal::Ceiling,
    )?;
    refuse(INBOX_ROWS <= unclaimed, Refusal::InboxFull)
}

// Whether a deposit number lies above last + 1 or above 4,294,967,295, on any two numbers.
fn is_gap(last: u64, number: u64) -> bool
    ensures { result ≡ is_gap last number }
{
    last.saturating_add(1) < number || HIGHEST_NUMBER < number
}

// Whether a total with the amount would pass the ceiling, on any two numbers.
fn passes_ceiling(total: u64, amount: u64) -> bool
    ensures { result ≡ passes_ceiling total amount }
{
    CEILING < total.saturating_add(amount)
}

// The number is used up, the asset's lifetime deposits grow, and one deposit more is unclaimed.
#[tactic(auto, using(crate::proofs::Laws::lifetimes), unfolding(crate::specs::After::deposited_desk, rules::specs::Effects::raised, rules::specs::Effects::total))]
fn keep_deposited(desk: &mut Desk, x: Deposit)
    requires { CanDeposit desk.old x }
    ensures { desk.new ≡ deposited_desk desk.old x }
{
    let more = of_eight(&desk.lifetime, x.asset) + x.amount;
    set_of_eight(&mut desk.lifetime, x.asset, more);
    desk.counts.last = x.number;
    desk.counts.unclaimed += 1;
}

// Claim (member, number, asset, amount): the unclaimed deposit with exactly these four leaves the
// inbox, the rest keeping their order, and the balance grows.
#[tactic(auto, using(crate::proofs::Laws::claim_call), unfolding(rules::specs::Answer::frame_test))]
pub fn claim(
    desk: &mut Desk,
    inbox: &mut [u64],
    outbox: &[u64],
    history: &mut [u64],
    c: ClaimFields,
) -> Result<(), Refusal>
    ensures { outcome_of (plainly result) (book_of desk.new inbox.new outbox.now history.new) ≡ answer (book_of desk.old inbox.old outbox.now history.old) (Call.Claim c) }
{
    let is_framed = in_frame(&BookView {
        desk,
        inbox,
        outbox,
        history,
    });
    refuse(!is_framed, Refusal::BadBook)?; // a claim's reply 2
    let waits = is_unclaimed(inbox, desk.counts.unclaimed, c);
    claim_reply(waits, desk.counts.records, c)?;
    claim_done(desk, inbox, outbox, history, c);
    Ok(())
}

// Where nothing is refused.
#[tactic(auto, using(crate::proofs::Laws::claim_done))]
pub fn claim_done(
    desk: &mut Desk,
    inbox: &mut [u64],
    outbox: &[u64],
    history: &mut [u64],
    c: ClaimFields,
)
    requires { Accepted (book_of desk.old inbox.old outbox.now history.old) (Call.Claim c) }
    ensures { outcome_of (Ok Done.Plain) (book_of desk.new inbox.new outbox.now history.new) ≡ answer (book_of desk.old inbox.old outbox.now history.old) (Call.Claim c) }
{
    let place = place_of(inbox, desk.counts.unclaimed, c);
    take_out(inbox, DEPOSIT_WIDTH, place, desk.counts.unclaimed);
    put(history, desk.counts.records, Record::from(c));
    keep_claimed(desk, c);
}

// Whether one of the first n rows is an unclaimed deposit with exactly the claim's four fields.
pub fn is_unclaimed(inbox: &[u64], n: usize, c: ClaimFields) -> bool
    ensures { result ≡ is_unclaimed c n inbox.now }
{
    place_of(inbox, n, c) != n
}

// The place of that deposit among the first n rows, or n: no Option, since this is the number that `find_row` promises.
fn place_of(inbox: &[u64], n: usize, c: ClaimFields) -> usize
    ensures { result ≡ place_of (row_of c) n inbox.now }
{
    find_row(inbox, n, &[c.number.0, c.asset, c.amount, c.member])
}

// The claim's table of refusals, the smallest number first, for a book in frame. It reads whether such a deposit
// waits and how many records there are.
#[tactic(auto, using(crate::proofs::Laws::claim_told))]
pub fn claim_reply(waits: bool, records: usize, c: ClaimFields) -> Result<(), Refusal>
    ensures { (s : State) → any (matches c) s.inbox ≡ waits → length s.history ≡ records → told (plainly result) ≡ plain (smallest (table s (Call.Claim c))) }
{
    refuse(!is_member(c.member), Refusal::BadMember)?;
    refuse(!is_asset(c.asset), Refusal::BadAsset)?;
    refuse(!is_amount(c.amount), Refusal::BadAmount)?;
    refuse(!waits, Refusal::NoSuchDeposit)?;
    refuse(HISTORY_ROWS <= records, Refusal::HistoryFull)
}

// The balance grows, one deposit fewer is unclaimed, and there is one record more.
#[tactic(auto, using(crate::proofs::Laws::balances), unfolding(crate::specs::After::claimed_desk, rules::specs::Effects::credit))]
fn keep_claimed(desk: &mut Desk, c: ClaimFields)
    requires { CanClaim desk.old c }
    ensures { desk.new ≡ claimed_desk desk.old c }
{
    let more = balance_of(&desk.balances, c.member, c.asset) + c.amount;
    set_balance(&mut desk.balances, c.member, c.asset, more);
    desk.counts.unclaimed -= 1;
    desk.counts.records += 1;
}
