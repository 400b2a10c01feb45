// A lent table of lots, a lot a row: one lot read, one that joins the end, all cleared. They are total: past the
// end a lot reads as zeros and none is written, so that no caller owes an index. The count of lots stands beside the
// table: document 01 names a lent slice of lot structs, and thin functions that append, take from the front and clear.
ghost use Rattle.std.specs.Prelude.{◌≡◌, [], ◌∷◌, length, get_or, replicate};
ghost use Rattle.rules.specs.Lots.{no_lot};
ghost use Rattle.takings.specs.Working.{appended};

use rules::rows::Lot;

// The lot in row i; past the end none, so zeros.
pub fn lot_at(lots: &[Lot], i: usize) -> Lot
    ensures { result ≡ get_or lots.now i no_lot }
{
    lots.get(i).copied().unwrap_or_default()
}

// A lot joins the end: it stands after the used lots, if the table has a row there.
#[tactic(auto, using(crate::proofs::Appending::append_in, crate::proofs::Appending::append_out))]
pub fn append(lots: &mut [Lot], used: usize, l: Lot)
    ensures { lots.new ≡ appended used (l ∷ []) lots.old }
{
    if used < lots.len() {
        lots[used] = l;
    }
}

// Every row of the table becomes zeros.
pub fn clear(lots: &mut [Lot])
    ensures { lots.new ≡ replicate (length lots.old) no_lot }
{
    lots.fill(Lot::default());
}
