// The records of a history: one of them, the test of them all, provenance, and the whole test that provenance
// and trace begin with. No function here writes a table. A history is handed on as its
// table and the count of its records: the table is lent flat, and the count is the desk's.
#![tactic(auto)]

pub mod frame;
pub mod origin;

ghost use Rattle.std.specs.Prelude.{◌≡◌, ◌&&◌};
ghost use Rattle.rules.specs.Tables.{record_shape};
ghost use Rattle.rules.specs.State.{history_of};
ghost use Rattle.rules.specs.Frame.{in_frame};
ghost use Rattle.rules.specs.History.{history_in_frame};
ghost use Rattle.tables.specs.Rows.{row_at};

use crate::frame::history_in_frame;
use frames::in_frame;
use rules::book::BookView;
use rules::rows::Record;
use tables::rows::get;

// The record in row i; what the table does not have of it is zeros.
pub fn record_at(history: &[u64], i: usize) -> Record
    ensures { result ≡ row_at record_shape i history.now }
{
    get(history, i)
}

// Whether a book is in frame, "for provenance and trace also" its history.
#[tactic(auto, using(crate::proofs::Counting::frame_whole))]
pub fn book_in_frame(book: &BookView) -> bool
    ensures { result ≡ in_frame book.now && history_in_frame (history_of book.now) }
{
    in_frame(book) && history_in_frame(book.history, book.desk.counts.records)
}
