// The input line after line, however it is cut into reads.
ghost use Rattle.std.specs.Prelude.{◌≡◌, ◌+◌, ◌≤◌, ◌<◌, length, Ok, Err};
ghost use Rattle.rules.specs.Lines.{read_line};
ghost use Rattle.runner.specs.Machine.{holds, machine_with, after_line};
ghost use Rattle.runner.specs.Feeding.{FeedsLine};
ghost use Rattle.runner.specs.Kept.{kept_of, RunSome, Ended, Closed};
ghost use Rattle.rules.specs.Replies.{told};
ghost use Rattle.rules.specs.Transcript.{answer_line, reply_text, tallied};
ghost use Rattle.replies.specs.Writing.{reply_line};
ghost use Rattle.rules.specs.State.{Book as AnyBook};
ghost use Rattle.rules.specs.Lent.{lent_book, SameTables};
ghost use Rattle.pages.specs.Writing.{put};
ghost use Rattle.pages.specs.Lent.{page_of, SameBuffer};

use crate::find::feed_at;
use crate::hold::Held;
use crate::session::Session;
use lines::read::{read_line, unread_field};
use pages::Page;
use replies::{put_end, put_reply_line};
use rules::answers::{Refusal, Tally};
use rules::book::Book;
use rules::calls::{Call, FailsAt};
use steps::step::counted_step;
use steps::tally::raise;

// The longest reply: at most six numbers and 1,024 pieces of 42 bytes are fewer than so many bytes.
pub const LONGEST_REPLY: usize = 45_000;

// Feeds a read, line after line, while the output has room for the longest reply. Answers how far it came: what stands
// on the page is to be given out, and the rest of the read fed with the page begun anew.
pub fn run_some(session: &mut Session, book: &mut Book, page: &mut Page, chunk: &[u8]) -> usize
    requires { (page_of page.old).upto ≤ length (page_of page.old).bytes }
    ensures ran { RunSome (kept_of session.old book.old page.old) chunk.now result (kept_of session.new book.new page.new) }
    ensures tables { SameTables book.old book.new }
    ensures buffer { SameBuffer page.old page.new }
{
    // A `while`: how far a turn goes is told by its line, and whether there is another by the page.
    let mut next: usize = 0;
    while next < chunk.len() && LONGEST_REPLY <= page.room() {
        next += feed_line(session, book, page, &chunk[next..]);
    }
    next
}

// Feeds what is left of a read up to its first line feed, or all of it where no line ends. After 100,000 lines the rest
// of a read is passed over. How many bytes that is.
fn feed_line(session: &mut Session, book: &mut Book, page: &mut Page, rest: &[u8]) -> usize
    requires { 0 < length rest.now }
    ensures fed { FeedsLine (machine_with session.old (lent_book book.old)) (page_of page.old) rest.now result (machine_with session.new (lent_book book.new)) (page_of page.new) }
    ensures tables { SameTables book.old book.new }
    ensures buffer { SameBuffer page.old page.new }
{
    if session.is_stopped() {
        return rest.len();
    }
    let end = feed_at(rest);
    if end == rest.len() {
        session.hold(rest);
        return end;
    }
    run_line(session, book, page, &rest[..end]);
    end + 1
}

// Answers the line whose last part this is.
fn run_line(session: &mut Session, book: &mut Book, page: &mut Page, part: &[u8])
    requires { session.old.line ≤ 100000 }
    ensures machine { machine_with session.new (lent_book book.new) ≡ after_line (machine_with session.old (lent_book book.old)) (answer_line (lent_book book.old) (read_line (holds session.old.held part.now))) }
    ensures text { page_of page.new ≡ put (page_of page.old) (reply_text session.old.line (answer_line (lent_book book.old) (read_line (holds session.old.held part.now)))) }
    ensures tables { SameTables book.old book.new }
    ensures buffer { SameBuffer page.old page.new }
{
    let read = whole_line(&mut session.held, part);
    answer_line(book, page, session.line, &mut session.tally, read);
    session.line += 1;
    session.held.clear();
}

// Reads the line whose last part this is. Where nothing of it is held it is read where it lies.
#[tactic(auto, using(crate::proofs::Held::read_there))]
fn whole_line(held: &mut Held, part: &[u8]) -> Result<Call, FailsAt>
    ensures { result ≡ read_line (holds held.old part.now) }
{
    if held.is_empty() {
        return read_line(part);
    }
    held.extend(part);
    read_line(held.as_slice())
}

// "For each line it writes line number and reply number", then the values and the pieces, if any; and the reply is
// counted.
#[tactic(auto, using(crate::proofs::Answering::malformed_tally), unfolding(rules::specs::Transcript::answer_line))]
fn answer_line(
    book: &mut Book,
    page: &mut Page,
    line: u64,
    tally: &mut Tally,
    read: Result<Call, FailsAt>,
)
    requires done_bound { tally.old.done ≤ 100000 }
    requires other_bound { tally.old.other ≤ 100000 }
    ensures book_after { lent_book book.new ≡ (answer_line (lent_book book.old) read).book }
    ensures page_after { page_of page.new ≡ put (page_of page.old) (reply_text line (answer_line (lent_book book.old) read)) }
    ensures tally_after { tally.new ≡ tallied tally.old (answer_line (lent_book book.old) read).reply.number }
    ensures tables { SameTables book.old book.new }
    ensures buffer { SameBuffer page.old page.new }
{
    match read {
        Ok(c) => counted_step(book, page, line, tally, c),
        Err(field) => put_malformed(page, line, tally, field),
    }
}

// 1 Malformed, with the field that the line tells: the book is as it was.
fn put_malformed(page: &mut Page, line: u64, tally: &mut Tally, field: FailsAt)
    requires done_bound { tally.old.done ≤ 100000 }
    requires other_bound { tally.old.other ≤ 100000 }
    ensures page_after { page_of page.new ≡ put (page_of page.old) (reply_line line (told (Err (Refusal.Malformed field.0)))) }
    ensures buffer { SameBuffer page.old page.new }
    ensures tally_after { tally.new ≡ tallied tally.old 1 }
{
    put_reply_line(page, line, Err(Refusal::from(field)));
    raise(tally, 1);
}

// At the end of the input: "An unfinished last line is Malformed", and last comes `end`. What is
// written does not depend on the book.
pub fn close(session: &Session, page: &mut Page)
    requires { (page_of page.old).upto + 45000 ≤ length (page_of page.old).bytes }
    ensures closed { (b : AnyBook) → Closed (machine_with session.now b) (page_of page.old) (page_of page.new) }
    ensures buffer { SameBuffer page.old page.new }
{
    let tally = put_unfinished(session, page);
    put_end(page, tally);
}

// The reply to an unfinished last line, if there is one. The tally after it.
fn put_unfinished(session: &Session, page: &mut Page) -> Tally
    ensures ended { (b : AnyBook) → Ended (machine_with session.now b) (page_of page.old) result (page_of page.new) }
    ensures buffer { SameBuffer page.old page.new }
{
    let mut tally = session.tally;
    if session.is_stopped() || session.held.is_empty() {
        return tally;
    }
    let field = unread_field(session.held.as_slice());
    put_malformed(page, session.line, &mut tally, field);
    tally
}
