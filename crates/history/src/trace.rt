// The trace of a payment: a replay in lots, where nothing is refused.
ghost use Rattle.std.specs.Prelude.{◌≡◌, ◌≤◌, replicate};
ghost use Rattle.rules.specs.declared.answers.Done.{Done};
ghost use Rattle.rules.specs.Replies.{answered};
ghost use Rattle.rules.specs.Lots.{no_lot};
ghost use Rattle.rules.specs.Answer.{trace_answer};
ghost use Rattle.replays.specs.Replaying.{CanTrace, Traces};
ghost use Rattle.history.specs.Tracing.{trace_outcome_of};

use crate::refusals::reply_to;
use replays::traced;
use rules::answers::Refusal;
use rules::book::BookView;
use rules::limits::HISTORY_ROWS;
use rules::rows::{Lot, Nonce};

// A history of no more records has short tables in a trace: what is not used would cost more than all that is.
pub const SHORT: usize = 32;

// Trace of payment n, lent a table of lots to work in and a table for the pieces.
#[tactic(auto, using(crate::proofs::Traced::trace_refused))]
pub fn trace(
    book: &BookView,
    work: &mut [Lot],
    pieces: &mut [Lot],
    n: Nonce,
) -> Result<usize, Refusal>
    ensures { trace_outcome_of (answered Done.Traced result) work.new pieces.new ≡ trace_answer book.now work.old pieces.old n }
{
    reply_to(book, work.len(), pieces.len(), n)?;
    let records = book.desk.counts.records;
    let count = if records <= SHORT {
        traced_with::<SHORT>(book.history, records, n, work, pieces)
    } else {
        traced_with::<HISTORY_ROWS>(book.history, records, n, work, pieces)
    };
    Ok(count)
}

// The same where nothing is refused, with so many rows where the pieces of a transfer wait before they join the end:
// the work table may have no rows to spare, and the pieces' table keeps what it has until the trace is found. A row for
// each record is enough.
fn traced_with<const ROWS: usize>(
    history: &[u64],
    records: usize,
    n: Nonce,
    work: &mut [Lot],
    pieces: &mut [Lot],
) -> usize
    requires few_rows { ROWS ≤ 1024 }
    requires can_trace { CanTrace history.now records n.0 work.old (replicate ROWS no_lot) pieces.old }
    ensures { Traces history.now records n.0 work.old pieces.old result work.new pieces.new }
{
    let mut held = [Lot::default(); ROWS];
    traced(history, records, n.0, work, &mut held, pieces)
}
