// What a trace is refused for.
ghost use Rattle.std.specs.Prelude.{◌≡◌};
ghost use Rattle.rules.specs.Tables.{rows_of, record_shape};
ghost use Rattle.rules.specs.State.{State};
ghost use Rattle.rules.specs.Replies.{told, plainly, plain, smallest};
ghost use Rattle.history.specs.Tracing.{history_refusals, trace_number_for};

use desk::answers::refuse;
use frames::in_frame;
use records::frame::history_in_frame;
use replays::payment_at;
use rules::answers::Refusal;
use rules::book::BookView;
use rules::rows::Nonce;

// The number that a trace of the library gets: the frame's test, and then its table's.
#[tactic(auto, using(crate::proofs::Traced::trace_met, crate::proofs::Traced::trace_unmet))]
pub(crate) fn reply_to(book: &BookView, rows: usize, places: usize, n: Nonce) -> Result<(), Refusal>
    ensures { told (plainly result) ≡ plain (trace_number_for book.now rows places n) }
{
    refuse(!in_frame(book), Refusal::BadBook)?;
    history_reply(book.history, book.desk.counts.records, rows, places, n)
}

// The trace's table of refusals, the smallest number first, for a book in frame. It reads the history, how many records
// there are, and how many rows the two lent tables have. Nothing is read of a history out of frame.
#[tactic(auto, using(crate::proofs::Traced::history_told))]
pub fn history_reply(
    history: &[u64],
    records: usize,
    rows: usize,
    places: usize,
    n: Nonce,
) -> Result<(), Refusal>
    ensures { (s : State) → s.history ≡ rows_of record_shape records history.now → told (plainly result) ≡ plain (smallest (history_refusals history.now records rows places s n)) }
{
    refuse(!history_in_frame(history, records), Refusal::BadBook)?;
    refuse(rows < records || places < records, Refusal::TableSmall)?;
    refuse(
        records <= payment_at(history, records, n.0),
        Refusal::NoSuchPayment,
    )
}
