// A book: the desk and the three tables, lent together.
use crate::desk::Desk;
use std::marker::Model;

// A book that is lent to be changed. Who is lent it says what it holds afterwards (`lent_book`), and that the desk and the
// tables are still those that were lent (`SameTables`): so whoever lent them finds there what is said of the book.
#[derive(Drop)]
pub struct Book<'a> {
    pub desk: &'a mut Desk,
    pub inbox: &'a mut [u64],
    pub outbox: &'a mut [u64],
    pub history: &'a mut [u64],
}

// A book that is lent to be read. A clause sees it as the definitions' book.
#[derive(Drop)]
pub struct BookView<'a> {
    pub desk: &'a Desk,
    pub inbox: &'a [u64],
    pub outbox: &'a [u64],
    pub history: &'a [u64],
}

impl<'a> Model for BookView<'a> {
    ghost use Rattle.rules.specs.State.{Book};

    ghost Value = { Book };

    ghost view = { λ b. record { desk = b.desk.now; inbox = b.inbox.now; outbox = b.outbox.now; history = b.history.now } };
}
