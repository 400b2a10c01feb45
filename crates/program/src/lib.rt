// The loop over reads and writes: what a reader gives is answered to a writer, from an empty book. What is
// answered and written is decided in `runner`, proved on slices; here stand the order of reads and writes, and
// when to stop.
#![tactic(auto)]

ghost use Rattle.std.specs.Prelude.{◌<◌, is_ok, length};
ghost use Rattle.runner.specs.Machine.{start as at_start, writes, closing};
ghost use Rattle.program.specs.Turns.{Answers, Passes, TakesTurn, Wrote, Session, WritesTranscript};

use pages::Page;
use rules::book::Book;
use rules::limits::{HISTORY_SIZE, INBOX_SIZE, OUTBOX_SIZE};
use runner::feed::{close, run_some};
// `Session` in a clause is what specs/Turns.antt says of a whole session.
use runner::session::{self, empty_desk};
use std::io::ErrorKind;
use std::marker::Model;
use std::ops::ControlFlow;
use std::{fmt, io};

// How many bytes a read gives at most, and a page holds.
const PAGE_SIZE: usize = 65536;

// A whole session of what the reader gives, in tables of document 01's sizes, all zero. Answers whether every
// read and write went well; what did not is a line to standard error. Where that cannot be written there is
// nobody to tell.
pub fn run<E: Eprint, R: io::Read, W: io::Write>(rt: &E, reader: &mut R, writer: &mut W) -> bool
    ensures session { Session at_start (R.remaining reader.old) (R.remaining reader.new) (W.contents writer.old) (W.contents writer.new) result }
    ensures transcript { WritesTranscript (R.remaining reader.old) (W.contents writer.old) (W.contents writer.new) result }
{
    let mut desk = empty_desk();
    let mut inbox = [0; INBOX_SIZE];
    let mut outbox = [0; OUTBOX_SIZE];
    let mut history = [0; HISTORY_SIZE];
    let mut input = [0; PAGE_SIZE];
    let mut out = [0; PAGE_SIZE];
    let book = Book {
        desk: &mut desk,
        inbox: &mut inbox,
        outbox: &mut outbox,
        history: &mut history,
    };
    let mut answering = Answering {
        session: session::Session::new(),
        book,
        page: Page::new(&mut out, 0),
    };
    let all = answering.answer_all(reader, writer, &mut input);
    if let Err(failed) = &all {
        let _ = eprintln!(rt; "{failed}");
    }
    all.is_ok()
}

// What stopped a session before its input was answered.
#[derive(Clone, Copy, Debug)]
enum Failed {
    Read(io::Error),
    Write(io::Error),
}

impl fmt::Display for Failed {
    fn fmt<W: fmt::Write>(&self, f: &mut fmt::Formatter<W>) -> fmt::Result {
        match self {
            Failed::Read(why) => write!(f, "read: {why}"),
            Failed::Write(why) => write!(f, "write: {why}"),
        }
    }
}

// A session, its book, and the page that each write takes its text from. A clause sees the session's machine; the page has
// room for the longest reply (`runner::feed::LONGEST_REPLY`).
#[derive(Drop)]
struct Answering<'a> {
    session: session::Session,
    book: Book<'a>,
    page: Page<'a>,
}

impl<'a> Model for Answering<'a> {
    ghost use Rattle.std.specs.Prelude.{◌≤◌, length};
    ghost use Rattle.rules.specs.Lent.{lent_book};
    ghost use Rattle.pages.specs.Lent.{page_of};
    ghost use Rattle.runner.specs.Machine.{Machine, machine_with};

    ghost Value = { Machine };

    ghost view = { λ a. machine_with a.session (lent_book a.book) };

    ghost invariant = { λ a. 45000 ≤ length (page_of a.page).bytes };
}

impl<'a> Answering<'a> {
    // Read after read, then the end of the input. A proved loop has to end, and nothing says that an input
    // does: the turns are counted up to a number that no run reaches.
    #[tactic(auto, using(crate::proofs::Turns::so_far_begun, crate::proofs::Turns::so_far_more))]
    fn answer_all<R: io::Read, W: io::Write>(
        &mut self,
        reader: &mut R,
        writer: &mut W,
        input: &mut [u8],
    ) -> Result<(), Failed>
        requires { 0 < length input.old }
        ensures { Session self.old (R.remaining reader.old) (R.remaining reader.new) (W.contents writer.old) (W.contents writer.new) (is_ok result) }
    {
        for _ in 0..u64::MAX {
            if self.read_once(reader, writer, input)?.is_break() {
                break;
            }
        }
        self.finish(writer)
    }

    // One turn: a read, and every byte that it gave fed, once and in order, unless it or a write fails. After a read
    // that failed no `end` is written: what was sent is not known.
    #[tactic(auto, using(crate::proofs::Turns::got_ok, crate::proofs::Turns::turn_failed, crate::proofs::Turns::turn_taken))]
    fn read_once<R: io::Read, W: io::Write>(
        &mut self,
        reader: &mut R,
        writer: &mut W,
        input: &mut [u8],
    ) -> Result<ControlFlow<()>, Failed>
        ensures { TakesTurn self.old self.new (R.remaining reader.old) (R.remaining reader.new) (W.contents writer.old) (W.contents writer.new) input.new result }
    {
        let n = reader.read(input).map_err(Failed::Read)?;
        if n == 0 {
            return Ok(ControlFlow::Break(()));
        }
        self.answer(writer, &input[..n])
    }

    // A read may be answered with more than a page holds: it is fed in parts, and each page written before
    // the next. Every byte of the read is fed, once and in order, unless a write fails. After 100,000 lines there
    // is no other turn. How much of the rest a page takes is known only after it, so no `for` counts the parts.
    #[tactic(auto, using(crate::proofs::Turns::front_begun))]
    fn answer<W: io::Write>(
        &mut self,
        writer: &mut W,
        chunk: &[u8],
    ) -> Result<ControlFlow<()>, Failed>
        ensures answers { Answers chunk.now self.old self.new result }
        ensures last { 0 < length chunk.now → Passes chunk.now self.new result }
        ensures wrote { Wrote (W.contents writer.old) (W.contents writer.new) (writes self.old chunk.now) (is_ok result) }
    {
        let mut rest = chunk;
        while !rest.is_empty() {
            self.page.clear();
            let n = run_some(&mut self.session, &mut self.book, &mut self.page, rest);
            write_all(writer, self.page.written()).map_err(Failed::Write)?;
            rest = &rest[n..];
        }
        if self.session.is_stopped() {
            return Ok(ControlFlow::Break(()));
        }
        Ok(ControlFlow::Continue(()))
    }

    // The end of the input, answered and written.
    fn finish<W: io::Write>(&mut self, writer: &mut W) -> Result<(), Failed>
        ensures { Wrote (W.contents writer.old) (W.contents writer.new) (closing self.old) (is_ok result) }
    {
        self.page.clear();
        close(&self.session, &mut self.page);
        write_all(writer, self.page.written()).map_err(Failed::Write)
    }
}

// Writes all of the text, or stops at the first write that takes nothing or fails, when a beginning of it
// may have been written. Of an empty text it makes no call. The writer's own `write_all` says nothing of what a failed
// write leaves, and the clause does (`AppendsPart`). How much a write takes is known only after it.
#[tactic(auto, using(crate::proofs::Writing::front_more))]
fn write_all<W: io::Write>(writer: &mut W, text: &[u8]) -> io::Result<()>
    ensures { Wrote (W.contents writer.old) (W.contents writer.new) text.now (is_ok result) }
{
    let mut rest = text;
    while !rest.is_empty() {
        let n = writer.write(rest)?;
        if n == 0 {
            return Err(io::Error::from(ErrorKind::WriteZero));
        }
        rest = &rest[n..];
    }
    Ok(())
}
