// The rows of the lent tables, and the two counters that the paper keeps apart.
ghost use Rattle.std.specs.Prelude.{◌≡◌};

// A deposit's number, the paper's `depositId`. No nonce can stand in its place.
#[derive(Clone, Copy, Default, PartialEq, Eq)]
pub struct DepositNumber(pub u64);

// A payment's nonce, the paper's ν. No deposit number can stand in its place.
#[derive(Clone, Copy, Default, PartialEq, Eq)]
pub struct Nonce(pub u64);

// An inbox row: an unclaimed deposit, for the member bound to the paying address. It is also what a
// deposit call brings.
#[derive(Clone, Copy)]
pub struct Deposit {
    pub number: DepositNumber,
    pub asset: u64,
    pub amount: u64,
    pub member: u64,
}

// An outbox row: a payment, waiting or in flight. It carries no member.
#[derive(Clone, Copy)]
pub struct Payment {
    pub asset: u64,
    pub amount: u64,
    pub payee: u64,
    pub nonce: Nonce,
}

// "Kind numbers are 1 to 4 and nothing else."
#[derive(Clone, Copy, PartialEq, Eq)]
pub enum Kind {
    Claim = 1,
    Transfer = 2,
    Withdrawal = 3,
    Grant = 4,
}

// A number that is no kind's.
#[derive(Clone, Copy, PartialEq, Eq)]
pub struct BadKind;

impl TryFrom<u64> for Kind {
    ghost use Rattle.rules.specs.Kinds.{numbered_kind};

    type Error = BadKind;

    ghost try_from_gives = { λ number kind. kind ≡ numbered_kind number };

    #[tactic(auto, unfolding(crate::specs::Kinds::numbered_kind))]
    fn try_from(number: u64) -> Result<Self, BadKind> {
        match number {
            1 => Ok(Kind::Claim),
            2 => Ok(Kind::Transfer),
            3 => Ok(Kind::Withdrawal),
            4 => Ok(Kind::Grant),
            _ => Err(BadKind),
        }
    }
}

// A history record, as its row has it: its kind is a number there. What `asset`, `first` and `second` stand for
// goes by the kind.
#[derive(Clone, Copy)]
pub struct Record {
    pub kind: u64,
    pub asset: u64,
    pub amount: u64,
    pub first: u64,
    pub second: u64,
}

// A lot: so much of one deposit, held by a member in an asset. The lots of one member and asset, in
// table order, are that member's line for the asset. A row that holds none is the default, all zeros.
#[derive(Clone, Copy, Default)]
pub struct Lot {
    pub member: u64,
    pub asset: u64,
    pub number: DepositNumber,
    pub amount: u64,
}
