// A trace: answered, and its reply's line written with the pieces.
ghost use Rattle.std.specs.Prelude.{◌≡◌, ◌≤◌, take, Ok};
ghost use Rattle.rules.specs.Replies.{told};
ghost use Rattle.rules.specs.declared.calls.Call.{Call};
ghost use Rattle.rules.specs.Limits.{history_rows};
ghost use Rattle.rules.specs.Lists.{joined};
ghost use Rattle.rules.specs.Lines.{tabbed};
ghost use Rattle.rules.specs.Answer.{answer};
ghost use Rattle.rules.specs.Transcript.{piece_values};
ghost use Rattle.rules.specs.Lent.{lent_book};
ghost use Rattle.pages.specs.Writing.{put};
ghost use Rattle.pages.specs.Lent.{page_of, SameBuffer};
ghost use Rattle.steps.specs.Step.{replied_of, replied, answer_text, HasTables};

use crate::step::put_answered;
use history::trace::SHORT;
use pages::Page;
use replies::{put_answer, put_piece, reply_number};
use rules::answers::Done;
use rules::book::{Book, BookView};
use rules::limits::HISTORY_ROWS;
use rules::rows::{Lot, Nonce};

// A trace works in a table of lots that is lent for it, hands out its pieces in another, and leaves the book
// as it was. Both tables have "at least as many rows as the history has records". A short history has short ones: to fill
// 1,024 rows with zeros would cost more than the trace does.
pub(crate) fn put_trace(book: &Book, page: &mut Page, line: u64, n: Nonce) -> u64
    ensures replied { replied_of result (lent_book book.now) (page_of page.new) ≡ replied line (page_of page.old) (answer (lent_book book.now) (Call.Trace n)) }
    ensures buffer { SameBuffer page.old page.new }
{
    if book.desk.counts.records <= SHORT {
        put_trace_in::<SHORT>(book, page, line, n)
    } else {
        put_trace_in::<HISTORY_ROWS>(book, page, line, n)
    }
}

// The same in tables of so many rows.
fn put_trace_in<const ROWS: usize>(book: &Book, page: &mut Page, line: u64, n: Nonce) -> u64
    requires enough { (lent_book book.now).desk.counts.records ≤ history_rows → (lent_book book.now).desk.counts.records ≤ ROWS }
    requires rows_bound { ROWS ≤ history_rows }
    ensures replied { replied_of result (lent_book book.now) (page_of page.new) ≡ replied line (page_of page.old) (answer (lent_book book.now) (Call.Trace n)) }
    ensures buffer { SameBuffer page.old page.new }
{
    let mut work = [Lot::default(); ROWS];
    let mut pieces = [Lot::default(); ROWS];
    put_traced(book, &mut work, &mut pieces, page, line, n)
}

// The same, lent the two tables.
fn put_traced(
    book: &Book,
    work: &mut [Lot],
    pieces: &mut [Lot],
    page: &mut Page,
    line: u64,
    n: Nonce,
) -> u64
    requires { HasTables (lent_book book.now).desk.counts.records work.old pieces.old }
    ensures replied { replied_of result (lent_book book.now) (page_of page.new) ≡ replied line (page_of page.old) (answer (lent_book book.now) (Call.Trace n)) }
    ensures buffer { SameBuffer page.old page.new }
{
    let view = BookView {
        desk: book.desk,
        inbox: book.inbox,
        outbox: book.outbox,
        history: book.history,
    };
    match history::trace::trace(&view, work, pieces, n) {
        Ok(count) => put_found(page, line, count, pieces),
        Err(why) => put_answered(page, line, Err(why)),
    }
}

// A done trace's whole line, and its number. The count stands beside the table, as `trace` answers it: a table may be
// longer.
#[tactic(auto, using(crate::proofs::Pages::answer_line))]
fn put_found(page: &mut Page, line: u64, count: usize, pieces: &[Lot]) -> u64
    ensures number_value { result ≡ (told (Ok (Done.Traced count))).number }
    ensures written { page_of page.new ≡ put (page_of page.old) (answer_text line (Ok (Done.Traced count)) pieces.now) }
    ensures buffer { SameBuffer page.old page.new }
{
    let answer = Ok(Done::Traced(count));
    put_answer(page, line, answer);
    put_pieces(page, pieces, count);
    page.put_line_feed();
    reply_number(answer)
}

// "Deposit number and amount for each piece": the first n rows of their table.
#[tactic(auto, using(crate::proofs::Pages::no_pieces, crate::proofs::Pages::more_pieces))]
fn put_pieces(page: &mut Page, pieces: &[Lot], n: usize)
    ensures written { page_of page.new ≡ put (page_of page.old) (tabbed (joined piece_values (take n pieces.now))) }
    ensures buffer { SameBuffer page.old page.new }
{
    let handed = &pieces[..n.min(pieces.len())];
    for piece in handed {
        put_piece(page, *piece);
    }
}
