// The reply writer: a reply's line and the last line, on a page of the caller's.
#![tactic(auto)]

ghost use Rattle.std.specs.Prelude.{◌≡◌, [], ◌∷◌, ◌++◌};
ghost use Rattle.rules.specs.Replies.{told_refusal, number_of, told};
ghost use Rattle.rules.specs.Lines.{decimal, tabbed};
ghost use Rattle.rules.specs.Transcript.{piece_values, end_text};
ghost use Rattle.pages.specs.Writing.{put};
ghost use Rattle.pages.specs.Lent.{page_of, SameBuffer};
ghost use Rattle.replies.specs.Writing.{reply_start, reply_line};

use pages::Page;
use rules::answers::{Answer, Done, Refusal, Tally};
use rules::rows::{Lot, Payment};

// "For each line it writes line number and reply number."
#[tactic(auto, using(pages::proofs::PageLaws::put_then))]
pub fn put_reply(page: &mut Page, line: u64, reply: u64)
    ensures written { page_of page.new ≡ put (page_of page.old) (decimal line ++ tabbed (reply ∷ [])) }
    ensures lent { SameBuffer page.old page.new }
{
    page.put_decimal(line);
    page.put_value(reply);
}

// "After a Done send also nonce, asset, amount, payee."
#[tactic(auto, using(crate::proofs::ReplyLaws::put_more_values))]
fn put_payment(page: &mut Page, x: Payment)
    ensures written { page_of page.new ≡ put (page_of page.old) (tabbed (x.nonce.0 ∷ x.asset ∷ x.amount ∷ x.payee ∷ [])) }
    ensures lent { SameBuffer page.old page.new }
{
    page.put_value(x.nonce.0);
    page.put_value(x.asset);
    page.put_value(x.amount);
    page.put_value(x.payee);
}

// "Deposit number and amount for each piece."
#[tactic(auto, using(crate::proofs::ReplyLaws::put_more_values))]
pub fn put_piece(page: &mut Page, x: Lot)
    ensures written { page_of page.new ≡ put (page_of page.old) (tabbed (piece_values x)) }
    ensures lent { SameBuffer page.old page.new }
{
    page.put_value(x.number.0);
    page.put_value(x.amount);
}

// A reply's line up to its pieces: line number, reply number, and the values that the answer tells.
#[tactic(auto, using(crate::proofs::ReplyLaws::start_written), unfolding(rules::specs::Replies::told, rules::specs::Lines::tabbed, rules::specs::Lists::joined, pages::specs::Writing::put))]
pub fn put_answer(page: &mut Page, line: u64, a: Answer)
    ensures written { page_of page.new ≡ put (page_of page.old) (reply_start line (told a)) }
    ensures lent { SameBuffer page.old page.new }
{
    put_reply(page, line, reply_number(a));
    match a {
        Ok(Done::Plain) => {}
        Ok(Done::Sent(x)) => put_payment(page, x),
        Ok(Done::Traced(n)) => page.put_value(n as u64),
        Err(why) => put_field(page, why),
    }
}

// "The runner adds the field number after reply 1."
#[tactic(auto, using(crate::proofs::ReplyLaws::no_field), unfolding(rules::specs::Replies::told_refusal))]
fn put_field(page: &mut Page, why: Refusal)
    ensures written { page_of page.new ≡ put (page_of page.old) (tabbed (told_refusal why).values) }
    ensures lent { SameBuffer page.old page.new }
{
    if let Refusal::Malformed(k) = why {
        page.put_value(k);
    }
}

// The whole line of an answer without pieces.
#[tactic(auto, using(pages::proofs::PageLaws::put_then), unfolding(crate::specs::Writing::reply_line))]
pub fn put_reply_line(page: &mut Page, line: u64, a: Answer)
    ensures written { page_of page.new ≡ put (page_of page.old) (reply_line line (told a)) }
    ensures lent { SameBuffer page.old page.new }
{
    put_answer(page, line, a);
    page.put_line_feed();
}

// "Last comes `end`, the number of replies 0 and of other replies."
pub fn put_end(page: &mut Page, t: Tally)
    ensures written { page_of page.new ≡ put (page_of page.old) (end_text t) }
    ensures lent { SameBuffer page.old page.new }
{
    page.put_bytes(b"end");
    page.put_value(t.done);
    page.put_value(t.other);
    page.put_line_feed();
}

// The number that an answer is told as.
#[tactic(auto, unfolding(rules::specs::Replies::told))]
pub fn reply_number(a: Answer) -> u64
    ensures { result ≡ (told a).number }
{
    match a {
        Ok(_) => 0,
        Err(why) => refusal_number(why),
    }
}

// Document 01's table of reply numbers. It is a match: an enum whose first reason has a field has no `as`, and no
// derive gives the numbers.
#[tactic(auto, unfolding(rules::specs::Replies::told_refusal))]
pub fn refusal_number(why: Refusal) -> u64
    ensures { result ≡ number_of why }
{
    match why {
        Refusal::Malformed(_) => 1,
        Refusal::BadBook => 2,
        Refusal::BadMember => 3,
        Refusal::BadAsset => 4,
        Refusal::BadDomain => 5,
        Refusal::BadAmount => 6,
        Refusal::BadPayee => 7,
        Refusal::SameMember => 8,
        Refusal::Old => 9,
        Refusal::Gap => 10,
        Refusal::Ceiling => 11,
        Refusal::InboxFull => 12,
        Refusal::NoSuchDeposit => 13,
        Refusal::Short => 14,
        Refusal::NotHolder => 15,
        Refusal::OutboxFull => 16,
        Refusal::HistoryFull => 17,
        Refusal::NothingWaiting => 18,
        Refusal::NotNext => 19,
        Refusal::TableSmall => 20,
        Refusal::NoSuchPayment => 21,
    }
}
