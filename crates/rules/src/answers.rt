// The answers: what was asked was done, with what it gives, or it was refused for one reason.
ghost use Rattle.std.specs.Prelude.{◌≡◌};

use crate::calls::FailsAt;
use crate::rows::Payment;

// The reasons of document 01's table of reply numbers, in its order, from 1 on. The first has the field that
// the line tells.
#[derive(Clone, Copy, PartialEq, Eq)]
pub enum Refusal {
    Malformed(u64),
    BadBook,
    BadMember,
    BadAsset,
    BadDomain,
    BadAmount,
    BadPayee,
    SameMember,
    Old,
    Gap,
    Ceiling,
    InboxFull,
    NoSuchDeposit,
    Short,
    NotHolder,
    OutboxFull,
    HistoryFull,
    NothingWaiting,
    NotNext,
    TableSmall,
    NoSuchPayment,
}

// A line that does not read is refused, and told by the field that does not.
impl From<FailsAt> for Refusal {
    ghost use Rattle.rules.specs.declared.answers.Refusal.{Refusal};

    ghost from_gives = { λ field why. why ≡ Refusal.Malformed field.0 };

    fn from(field: FailsAt) -> Refusal {
        Refusal::Malformed(field.0)
    }
}

// What a done call gives beside its number.
#[derive(Clone, Copy)]
pub enum Done {
    Plain,
    // A done send: the payment that is now in flight.
    Sent(Payment),
    // A done trace: how many pieces now fill the first rows of the table that was lent for them.
    Traced(usize),
}

// What a call answers.
pub type Answer = Result<Done, Refusal>;

// The runner's tally: how many replies were 0, and how many were not.
#[derive(Clone, Copy, Default)]
pub struct Tally {
    pub done: u64,
    pub other: u64,
}
