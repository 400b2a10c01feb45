// The test of a history: every used record, each at its point of the replay.
ghost use Rattle.std.specs.Prelude.{◌≡◌, ◌<◌};
ghost use Rattle.rules.specs.Effects.{cell};
ghost use Rattle.rules.specs.History.{standing_after};
ghost use Rattle.rules.specs.History.{fits as recordFits};
ghost use Rattle.records.specs.Test.{Cell, CanFollow, history_frame};

use crate::record_at;
use desk::fields::{
    balance_of, is_amount, is_asset, is_domain, is_member, is_payee, is_within, of_eight,
};
use rules::limits::{ASSETS, HIGHEST_NUMBER, HISTORY_ROWS, RECORD_WIDTH};
use rules::rows::{Kind, Record};
use std::marker::Model;

// Whether the first `records` rows of the table are a history in frame: "The whole used history is
// tested." More records than a history can have, or than the table has rows, are none.
pub fn history_in_frame(history: &[u64], records: usize) -> bool
    ensures { result ≡ history_frame history.now records }
{
    if HISTORY_ROWS < records || history.len() < records * RECORD_WIDTH {
        return false;
    }
    // At first an empty book's: all balances 0, and member 1 holding every domain.
    let mut standing = Standing {
        balances: [0; 128],
        holders: [1; 8],
    };
    for i in 0..records {
        let r = record_at(history, i);
        if !standing.fits(r) {
            return false;
        }
        standing.follow(r);
    }
    true
}

// What the replay carries from record to record. It is lent to each record: handed on by value, its copies would
// be near half of what a trace costs.
#[derive(Drop)]
struct Standing {
    balances: [u64; 128],
    holders: [u64; 8],
}

impl Model for Standing {
    ghost use Rattle.rules.specs.History.{Standing};

    ghost Value = { Standing };

    ghost view = { λ s. record { balances = s.balances; holders = s.holders } };
}

impl Standing {
    // Whether the record has a good kind, every field in its limit, no equal members, and a sender with
    // the amount or the domain, "at that point of the replay".
    #[tactic(auto, using(crate::proofs::ByKind::fits_by_kind))]
    fn fits(&self, r: Record) -> bool
        ensures { result ≡ recordFits self.now r }
    {
        let enough = r.amount <= balance_of(&self.balances, r.first, r.asset);
        match Kind::try_from(r.kind) {
            Ok(Kind::Claim) => {
                is_asset(r.asset)
                    && is_amount(r.amount)
                    && is_member(r.first)
                    && is_within(1, HIGHEST_NUMBER, r.second)
            }
            Ok(Kind::Transfer) => {
                is_asset(r.asset)
                    && is_amount(r.amount)
                    && is_member(r.first)
                    && is_member(r.second)
                    && r.first != r.second
                    && enough
            }
            Ok(Kind::Withdrawal) => {
                is_asset(r.asset)
                    && is_amount(r.amount)
                    && is_member(r.first)
                    && is_payee(r.second)
                    && enough
            }
            Ok(Kind::Grant) => {
                is_domain(r.asset)
                    && r.amount == 1
                    && is_member(r.first)
                    && is_member(r.second)
                    && r.first != r.second
                    && of_eight(&self.holders, r.asset) == r.first
            }
            Err(_) => false,
        }
    }

    // What a record that fits leaves to the next.
    fn follow(&mut self, r: Record)
        requires { CanFollow self.old r }
        ensures { self.new ≡ standing_after self.old r }
    {
        match Kind::try_from(r.kind) {
            Ok(Kind::Claim) => {
                let to = cell(r.first, r.asset);
                self.balances[to] += r.amount;
            }
            Ok(Kind::Transfer) => {
                let from = cell(r.first, r.asset);
                let to = cell(r.second, r.asset);
                self.balances[from] -= r.amount;
                self.balances[to] += r.amount;
            }
            Ok(Kind::Withdrawal) => {
                let from = cell(r.first, r.asset);
                self.balances[from] -= r.amount;
            }
            Ok(Kind::Grant) => {
                let domain = (r.asset - 1) as usize;
                self.holders[domain] = r.second;
            }
            Err(_) => {}
        }
    }
}

// Where a member's balance in an asset lies. The record fits, so the limits are not tested a second time.
fn cell(m: u64, a: u64) -> usize
    requires { Cell m a }
    ensures is_cell { result ≡ cell m a }
    ensures has_balance { result < 128 }
{
    ((m - 1) * ASSETS + (a - 1)) as usize
}
