// Where a line feed stands in a read.
ghost use Rattle.runner.specs.Feeding.{NextFeed};

use memchr::memchr;

// Where the next line feed stands, or the end of the read.
#[tactic(auto, using(crate::proofs::Feeds::first_found))]
pub(crate) fn feed_at(s: &[u8]) -> usize
    ensures { NextFeed result s.now }
{
    memchr(b'\n', s).unwrap_or(s.len())
}
