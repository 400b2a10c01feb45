// A taking from a line, and pieces that join the end. The loops only read a row, ask what becomes of it, and append; the
// rows that are left move up in one move.
ghost use Rattle.std.specs.Prelude.{◌≡◌, map, ◌<◌, take};
ghost use Rattle.rules.specs.Lots.{of_member};
ghost use Rattle.takings.specs.Working.{cut_of, CanTake, TakesFrom, appended};

use crate::rows::{append, lot_at};
use rules::rows::Lot;

// How far a taking from a line is: what is still due, how many rows stay so far, and how many pieces
// were taken.
#[derive(Clone, Copy)]
pub struct Taking {
    pub due: u64,
    pub kept: usize,
    pub taken: usize,
}

// What becomes of one lot: the piece of it that is taken, if any; the lot that has to be written among those that
// stay, if any; and how far the taking is then.
#[derive(Clone, Copy)]
pub struct Cut {
    pub piece: Option<Lot>,
    pub rest: Option<Lot>,
    pub next: Taking,
}

// What becomes of the lot in row i, where something is still due: "until the amount is met; the last lot
// is split if need be, its remainder staying in front". A lot that stays where it is needs no writing.
#[tactic(auto, unfolding(crate::specs::Working::cut_of))]
pub(crate) fn cut_lot(l: Lot, i: usize, member: u64, asset: u64, s: Taking) -> Cut
    requires kept_bound { s.kept < 1024 }
    requires taken_bound { s.taken < 1024 }
    ensures { result ≡ cut_of member asset i l s }
{
    if l.member != member || l.asset != asset {
        let next = Taking {
            kept: s.kept + 1,
            ..s
        };
        // A case of its own: where others' lots stand in front it is nearly every row.
        if s.kept == i {
            return Cut {
                piece: None,
                rest: None,
                next,
            };
        }
        return Cut {
            piece: None,
            rest: Some(l),
            next,
        };
    }
    if l.amount <= s.due {
        return Cut {
            piece: Some(l),
            rest: None,
            next: Taking {
                due: s.due - l.amount,
                taken: s.taken + 1,
                ..s
            },
        };
    }
    let mut rest = l;
    rest.amount -= s.due;
    Cut {
        piece: Some(Lot { amount: s.due, ..l }),
        rest: Some(rest),
        next: Taking {
            due: 0,
            kept: s.kept + 1,
            taken: s.taken + 1,
        },
    }
}

// "takes from the front of the sender's line until the amount is met": rows are looked at until nothing is due, and
// those after them move up, if any has to. Those that stay close up in place, and the pieces wait in the held table,
// in the order taken. The tables and their counts stand side by side: the reason is at the head of `rows`.
pub fn take_from(
    work: &mut [Lot],
    used: usize,
    held: &mut [Lot],
    member: u64,
    asset: u64,
    amount: u64,
) -> Taking
    requires { CanTake used work.old held.old }
    ensures { TakesFrom member asset amount used work.old result work.new held.new }
{
    let mut s = Taking {
        due: amount,
        kept: 0,
        taken: 0,
    };
    // a row is read and rows before it are written, so the loop goes by index
    for i in 0..used {
        if s.due == 0 {
            if s.kept != i {
                work.copy_within(i..used, s.kept);
            }
            return Taking {
                kept: s.kept + (used - i),
                ..s
            };
        }
        let c = cut_lot(lot_at(work, i), i, member, asset, s);
        if let Some(piece) = c.piece {
            append(held, s.taken, piece);
        }
        if let Some(rest) = c.rest {
            append(work, s.kept, rest);
        }
        s = c.next;
    }
    s
}

// "the pieces join the receiver's line in the order taken": as many as are asked for and are there, each with its
// new owner, while the table has rows.
pub fn join(work: &mut [Lot], used: usize, held: &[Lot], count: usize, member: u64)
    ensures { work.new ≡ appended used (map (of_member member) (take count held.now)) work.old }
{
    for (end, piece) in (used..work.len()).zip(held.iter().take(count)) {
        append(work, end, Lot { member, ..*piece });
    }
}
