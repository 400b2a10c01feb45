// What is kept between reads beside the book: with the book it is the machine of the definitions (`machine_with`).
ghost use Rattle.std.specs.Prelude.{◌≡◌, ltb};
ghost use Rattle.rules.specs.Limits.{most_lines};
ghost use Rattle.runner.specs.Machine.{holds, begun, begun_desk};

use crate::hold::Held;
use rules::answers::Tally;
use rules::desk::{Counts, Desk};
use std::marker::Model;

// "The book runner stops after 100,000 lines."
const MOST_LINES: u64 = 100_000;

// The tally, the number of the line that comes next, and the bytes of it that came so far: what a session keeps beside
// its book. No count has passed the lines that were answered, so none can wrap.
#[derive(Clone, Copy)]
pub struct Session {
    pub tally: Tally,
    pub line: u64,
    pub held: Held,
}

impl Model for Session {
    ghost use Rattle.runner.specs.Machine.{Progress, Counted};

    ghost Value = { Progress };

    ghost view = { λ s. record { tally = s.tally; line = s.line; held = s.held } };

    ghost invariant = { λ s. Counted s.tally s.line };

    ghost inverse = { λ p. record { tally = p.tally; line = p.line; held = p.held } };
}

impl Session {
    // The start of a session: no line answered, no byte held.
    pub fn new() -> Session
        ensures { result ≡ begun }
    {
        Session {
            tally: Tally::default(),
            line: 1,
            held: Held::new(),
        }
    }

    // Whether 100,000 lines are answered: then nothing more is read.
    pub fn is_stopped(&self) -> bool
        ensures { result ≡ ltb most_lines self.now.line }
    {
        MOST_LINES < self.line
    }

    // Bytes of a line that goes on in the next read.
    pub(crate) fn hold(&mut self, part: &[u8])
        ensures { self.new ≡ record { tally = self.old.tally; line = self.old.line; held = holds self.old.held part.now } }
    {
        self.held.extend(part);
    }
}

// "All balances, totals and counts 0, last deposit number 0, next nonce 0, and member 1 holding every domain."
#[tactic(auto, unfolding(rules::specs::State::desk_of, rules::specs::State::first_holders, rules::specs::State::empty_state))]
pub fn empty_desk() -> Desk
    ensures { result ≡ begun_desk }
{
    Desk {
        balances: [0; 128],
        holders: [1; 8],
        lifetime: [0; 8],
        settled: [0; 8],
        counts: Counts::default(),
    }
}
