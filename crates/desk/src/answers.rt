// A refusal, where it applies.
ghost use Rattle.std.specs.Prelude.{◌≡◌, cond, Ok, Err};

use rules::answers::Refusal;

// A call's table of refusals asks these one after the other, the smallest number first: the first that applies
// stands.
pub fn refuse(applies: bool, why: Refusal) -> Result<(), Refusal>
    ensures { result ≡ cond applies (Err why) (Ok tt) }
{
    if applies { Err(why) } else { Ok(()) }
}
