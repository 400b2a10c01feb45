// The tally of a session's replies.
ghost use Rattle.std.specs.Prelude.{◌≤◌, ◌≡◌};
ghost use Rattle.rules.specs.Transcript.{tallied};

use rules::answers::Tally;

// The tally with one reply more: all that is added is added here. The bounds stand at each function that raises one: a
// tally of a caller's may hold any counts, and `put_end` writes any, so the type has no invariant.
#[tactic(auto, using(crate::proofs::Pages::raised_done, crate::proofs::Pages::raised_other))]
pub fn raise(tally: &mut Tally, number: u64)
    requires done_bound { tally.old.done ≤ 100000 }
    requires other_bound { tally.old.other ≤ 100000 }
    ensures { tally.new ≡ tallied tally.old number }
{
    if number == 0 {
        tally.done += 1;
    } else {
        tally.other += 1;
    }
}
