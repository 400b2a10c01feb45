// Provenance, the library's question where a balance comes from.
ghost use Rattle.std.specs.Prelude.{◌≡◌};
ghost use Rattle.rules.specs.Tables.{rows_of, record_shape};
ghost use Rattle.rules.specs.History.{provenance_of};
ghost use Rattle.rules.specs.History.{counted as countedOn};
ghost use Rattle.rules.specs.Replies.{told_origin};
ghost use Rattle.rules.specs.Answer.{provenance_answer};
ghost use Rattle.records.specs.Counts.{CanWork, CanCount};

use crate::{book_in_frame, record_at};
use desk::answers::refuse;
use desk::fields::{is_asset, is_member};
use rules::answers::Refusal;
use rules::book::BookView;
use rules::rows::{Kind, Record};

// The provenance of a member in an asset: "claims plus transfers in, less transfers out and
// withdrawals" (replies 0, 2, 3, 4).
#[tactic(auto, using(crate::proofs::Counting::origin_is))]
pub fn provenance(book: &BookView, member: u64, asset: u64) -> Result<u64, Refusal>
    ensures { told_origin result ≡ provenance_answer book.now member asset }
{
    refuse(!book_in_frame(book), Refusal::BadBook)?;
    refuse(!is_member(member), Refusal::BadMember)?;
    refuse(!is_asset(asset), Refusal::BadAsset)?;
    Ok(worked_out(book.history, book.desk.counts.records, member, asset))
}

// "going back through the history, one record fewer each time": it calls itself on that count, as document 01 has it.
fn worked_out(history: &[u64], left: usize, member: u64, asset: u64) -> u64
    requires { CanWork history.now left }
    ensures { result ≡ provenance_of member asset (rows_of record_shape left history.now) }
{
    if left == 0 {
        return 0;
    }
    let before = worked_out(history, left - 1, member, asset);
    counted(record_at(history, left - 1), member, asset, before)
}

// The sum so far with one record's amount added or taken off.
#[tactic(auto, using(crate::proofs::ByKind::counted_by_kind))]
fn counted(r: Record, member: u64, asset: u64, n: u64) -> u64
    requires { CanCount r member asset n }
    ensures { result ≡ countedOn member asset r n }
{
    let out = (r.first == member) & (r.asset == asset);
    let within = (r.second == member) & (r.asset == asset);
    match Kind::try_from(r.kind) {
        Ok(Kind::Claim) if out => n + r.amount,
        Ok(Kind::Transfer) if within => n + r.amount,
        Ok(Kind::Transfer) if out => n - r.amount,
        Ok(Kind::Withdrawal) if out => n - r.amount,
        _ => n,
    }
}
