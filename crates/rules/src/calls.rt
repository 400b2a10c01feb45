// The nine calls, each with its own numbers, and the history record that each writes: "Claim, transfer, withdraw and
// grant each append one history record."
ghost use Rattle.std.specs.Prelude.{◌≡◌};

use crate::rows::{Deposit, DepositNumber, Kind, Nonce, Record};

#[derive(Clone, Copy)]
pub struct ClaimFields {
    pub member: u64,
    pub number: DepositNumber,
    pub asset: u64,
    pub amount: u64,
}

impl From<ClaimFields> for Record {
    ghost use Rattle.rules.specs.Effects.{claim_record};

    ghost from_gives = { λ claim entry. entry ≡ claim_record claim };

    fn from(claim: ClaimFields) -> Record {
        Record {
            kind: Kind::Claim as u64,
            asset: claim.asset,
            amount: claim.amount,
            first: claim.member,
            second: claim.number.0,
        }
    }
}

#[derive(Clone, Copy)]
pub struct TransferFields {
    pub from: u64,
    pub to: u64,
    pub asset: u64,
    pub amount: u64,
}

impl From<TransferFields> for Record {
    ghost use Rattle.rules.specs.Effects.{transfer_record};

    ghost from_gives = { λ transfer entry. entry ≡ transfer_record transfer };

    fn from(transfer: TransferFields) -> Record {
        Record {
            kind: Kind::Transfer as u64,
            asset: transfer.asset,
            amount: transfer.amount,
            first: transfer.from,
            second: transfer.to,
        }
    }
}

#[derive(Clone, Copy)]
pub struct WithdrawalFields {
    pub member: u64,
    pub asset: u64,
    pub amount: u64,
    pub payee: u64,
}

impl From<WithdrawalFields> for Record {
    ghost use Rattle.rules.specs.Effects.{withdrawal_record};

    ghost from_gives = { λ withdrawal entry. entry ≡ withdrawal_record withdrawal };

    fn from(withdrawal: WithdrawalFields) -> Record {
        Record {
            kind: Kind::Withdrawal as u64,
            asset: withdrawal.asset,
            amount: withdrawal.amount,
            first: withdrawal.member,
            second: withdrawal.payee,
        }
    }
}

#[derive(Clone, Copy)]
pub struct GrantFields {
    pub from: u64,
    pub to: u64,
    pub domain: u64,
}

impl From<GrantFields> for Record {
    ghost use Rattle.rules.specs.Effects.{grant_record};

    ghost from_gives = { λ grant entry. entry ≡ grant_record grant };

    fn from(grant: GrantFields) -> Record {
        Record {
            kind: Kind::Grant as u64,
            asset: grant.domain,
            amount: 1,
            first: grant.from,
            second: grant.to,
        }
    }
}

#[derive(Clone, Copy)]
pub struct SignFields {
    pub member: u64,
    pub domain: u64,
}

#[derive(Clone, Copy)]
pub enum Call {
    Deposit(Deposit),
    Claim(ClaimFields),
    Transfer(TransferFields),
    Withdraw(WithdrawalFields),
    Send,
    Settle(Nonce),
    Grant(GrantFields),
    Sign(SignFields),
    Trace(Nonce),
}

// Which field it is that does not read: the line is none of the nine calls.
#[derive(Clone, Copy, PartialEq, Eq)]
pub struct FailsAt(pub u64);
