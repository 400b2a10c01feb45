// The one writer and the one reader of each kind of row: how a deposit, a payment or a record lies in its table is
// said here and in the row's shape, and nowhere else.
ghost use Rattle.std.specs.Prelude.{◌≡◌, ℕ, ◌*◌, refl, drop};
ghost use Rattle.rules.specs.Tables.{Shape, deposit_shape, payment_shape, record_shape};
ghost use Rattle.tables.specs.Rows.{put_at, row_at, row_from, padded};

use crate::put_row;
use rules::limits::{DEPOSIT_WIDTH, PAYMENT_WIDTH, RECORD_WIDTH};
use rules::rows::{Deposit, DepositNumber, Nonce, Payment, Record};

// A kind of row: how wide it is, and how it lies in a table.
pub trait Row: Copy {
    const WIDTH: usize;

    ghost WIDTH: { ℕ };

    ghost shape: { Shape Self };

    // Writes the row's numbers into the table from place `at` on, if they lie within it.
    fn put_at(self, table: &mut [u64], at: usize)
        ensures { table.new ≡ put_at at (shape.flat self) table.old };

    // The row whose numbers lie from place `at` on; what the table does not have of it is zeros.
    fn get_at(table: &[u64], at: usize) -> Self
        ensures { result ≡ row_from shape at table.now };

    ghost width_is: { WIDTH ≡ shape.width };
}

impl Row for Deposit {
    const WIDTH: usize = DEPOSIT_WIDTH;

    ghost WIDTH = { deposit_shape.width };

    ghost shape = { deposit_shape };

    ghost width_is = { refl };

    fn put_at(self, table: &mut [u64], at: usize) {
        put_row(
            table,
            at,
            &[self.number.0, self.asset, self.amount, self.member],
        );
    }

    fn get_at(table: &[u64], at: usize) -> Deposit {
        let [number, asset, amount, member] = numbers_at::<DEPOSIT_WIDTH>(table, at);
        Deposit {
            number: DepositNumber(number),
            asset,
            amount,
            member,
        }
    }
}

impl Row for Payment {
    const WIDTH: usize = PAYMENT_WIDTH;

    ghost WIDTH = { payment_shape.width };

    ghost shape = { payment_shape };

    ghost width_is = { refl };

    fn put_at(self, table: &mut [u64], at: usize) {
        put_row(
            table,
            at,
            &[self.asset, self.amount, self.payee, self.nonce.0],
        );
    }

    fn get_at(table: &[u64], at: usize) -> Payment {
        let [asset, amount, payee, nonce] = numbers_at::<PAYMENT_WIDTH>(table, at);
        Payment {
            asset,
            amount,
            payee,
            nonce: Nonce(nonce),
        }
    }
}

impl Row for Record {
    const WIDTH: usize = RECORD_WIDTH;

    ghost WIDTH = { record_shape.width };

    ghost shape = { record_shape };

    ghost width_is = { refl };

    fn put_at(self, table: &mut [u64], at: usize) {
        put_row(
            table,
            at,
            &[self.kind, self.asset, self.amount, self.first, self.second],
        );
    }

    fn get_at(table: &[u64], at: usize) -> Record {
        let [kind, asset, amount, first, second] = numbers_at::<RECORD_WIDTH>(table, at);
        Record {
            kind,
            asset,
            amount,
            first,
            second,
        }
    }
}

// Writes the row into row n of its table, if the table has that row.
#[tactic(auto, using(crate::proofs::Edits::put_none))]
pub fn put<R: Row>(table: &mut [u64], n: usize, row: R)
    ensures { table.new ≡ put_at (n * R.shape.width) (R.shape.flat row) table.old }
{
    let Some(at) = n.checked_mul(R::WIDTH) else {
        return;
    };
    row.put_at(table, at);
}

// The row in row n of its table; what the table does not have of it is zeros.
pub fn get<R: Row>(table: &[u64], n: usize) -> R
    ensures { result ≡ row_at R.shape n table.now }
{
    R::get_at(table, n.saturating_mul(R::WIDTH))
}

// The N numbers from place `at` on; what the table does not have of them is zeros.
#[tactic(auto, using(crate::proofs::Edits::padded_rest))]
fn numbers_at<const N: usize>(table: &[u64], at: usize) -> [u64; N]
    ensures { result ≡ padded N (drop at table.now) }
{
    let Some(rest) = table.get(at..) else {
        return [0; N];
    };
    if let Some(whole) = rest.first_chunk::<N>() {
        return *whole;
    }
    let mut numbers = [0; N];
    numbers[..rest.len()].copy_from_slice(rest);
    numbers
}
