// The line reader: a word, so many numbers after it, each after a tab, and nothing after the last.
ghost use Rattle.std.specs.Prelude.{◌+◌, ◌≡◌, Err, MatchResult, length};
ghost use Rattle.rules.specs.Lists.{same};
ghost use Rattle.rules.specs.Lines.{deposit_form, claim_form, transfer_form, withdraw_form, send_form, settle_form, grant_form, sign_form, trace_form};
ghost use Rattle.rules.specs.Lines.{Numbers, numbers_of, formed, read_whole, unread, read_line};
ghost use Rattle.lines.specs.Reading.{wanted_in};

use fields::{field_end, next_field};
use rules::calls::{
    Call, ClaimFields, FailsAt, GrantFields, SignFields, TransferFields, WithdrawalFields,
};
use rules::limits::{MOST_BYTES, MOST_HELD};
use rules::rows::{Deposit, DepositNumber, Nonce};

// A line "has at most 120 bytes". One that has more is read for the field that it tells, and no further than it would
// be held.
pub fn read_line(s: &[u8]) -> Result<Call, FailsAt>
    ensures { result ≡ read_line s.now }
{
    if MOST_BYTES < s.len() {
        return Err(unread_field(&s[..MOST_HELD]));
    }
    read_whole(s)
}

// The field that an over-long or unfinished line tells.
#[tactic(auto, unfolding(rules::specs::Lines::unread))]
pub fn unread_field(s: &[u8]) -> FailsAt
    ensures { Err result ≡ unread (read_whole s.now) }
{
    match read_whole(s) {
        Ok(call) => FailsAt(count_with_word(call)),
        Err(e) => e,
    }
}

// "If all read, their count with the word."
#[tactic(auto, unfolding(rules::specs::Lines::numbers_of))]
fn count_with_word(c: Call) -> u64
    ensures { result ≡ length (numbers_of c) + 1 }
{
    match c {
        Call::Deposit(_) | Call::Claim(_) | Call::Transfer(_) | Call::Withdraw(_) => 5,
        Call::Grant(_) => 4,
        Call::Sign(_) => 3,
        Call::Settle(_) | Call::Trace(_) => 2,
        Call::Send => 1,
    }
}

// "A read line is one of nine calls, each with its own numbers." The word says which, and "the word is field 0".
// One `if` after the other: a `match` on the word was tried, and its proof did not close. It parts into 49 arms of
// words that are none of the nine, each with an answer of its own.
fn read_whole(s: &[u8]) -> Result<Call, FailsAt>
    ensures { result ≡ read_whole s.now }
{
    let (word, rest) = s.split_at(field_end(s));
    if word_is(word, b"deposit") {
        return read_deposit(rest);
    }
    if word_is(word, b"claim") {
        return read_claim(rest);
    }
    if word_is(word, b"transfer") {
        return read_transfer(rest);
    }
    if word_is(word, b"withdraw") {
        return read_withdraw(rest);
    }
    if word_is(word, b"send") {
        return read_send(rest);
    }
    if word_is(word, b"settle") {
        return read_settle(rest);
    }
    if word_is(word, b"grant") {
        return read_grant(rest);
    }
    if word_is(word, b"sign") {
        return read_sign(rest);
    }
    if word_is(word, b"trace") {
        return read_trace(rest);
    }
    Err(FailsAt(0))
}

// The N numbers that are wanted, from field 1 on, and nothing after the last: "one too many the next number". "let ..
// else takes the number out of the field answer, otherwise returns Malformed."
fn numbers<const N: usize>(s: &[u8]) -> Result<[u64; N], FailsAt>
    ensures { MatchResult result (λ ns. wanted_in 1 N s.now ≡ Numbers.all_read ns)
        (λ e. wanted_in 1 N s.now ≡ Numbers.fails_at e.0) }
{
    let mut numbers = [0; N];
    let mut rest = s;
    for (i, number) in numbers.iter_mut().enumerate() {
        let k = i as u64 + 1;
        let Ok((n, after)) = next_field(rest, k) else {
            return Err(FailsAt(k));
        };
        *number = n;
        rest = after;
    }
    if !rest.is_empty() {
        return Err(FailsAt(N as u64 + 1));
    }
    Ok(numbers)
}

// deposit: number, asset, amount, member.
#[tactic(auto, unfolding(rules::specs::Lines::formed, rules::specs::Lines::deposit_form))]
fn read_deposit(s: &[u8]) -> Result<Call, FailsAt>
    ensures { result ≡ formed deposit_form (wanted_in 1 4 s.now) }
{
    let [number, asset, amount, member] = numbers::<4>(s)?;
    let number = DepositNumber(number);
    Ok(Call::Deposit(Deposit {
        number,
        asset,
        amount,
        member,
    }))
}

// claim: member, number, asset, amount.
#[tactic(auto, unfolding(rules::specs::Lines::formed, rules::specs::Lines::claim_form))]
fn read_claim(s: &[u8]) -> Result<Call, FailsAt>
    ensures { result ≡ formed claim_form (wanted_in 1 4 s.now) }
{
    let [member, number, asset, amount] = numbers::<4>(s)?;
    let number = DepositNumber(number);
    Ok(Call::Claim(ClaimFields {
        member,
        number,
        asset,
        amount,
    }))
}

// transfer: from, to, asset, amount.
#[tactic(auto, unfolding(rules::specs::Lines::formed, rules::specs::Lines::transfer_form))]
fn read_transfer(s: &[u8]) -> Result<Call, FailsAt>
    ensures { result ≡ formed transfer_form (wanted_in 1 4 s.now) }
{
    let [from, to, asset, amount] = numbers::<4>(s)?;
    Ok(Call::Transfer(TransferFields {
        from,
        to,
        asset,
        amount,
    }))
}

// withdraw: member, asset, amount, payee.
#[tactic(auto, unfolding(rules::specs::Lines::formed, rules::specs::Lines::withdraw_form))]
fn read_withdraw(s: &[u8]) -> Result<Call, FailsAt>
    ensures { result ≡ formed withdraw_form (wanted_in 1 4 s.now) }
{
    let [member, asset, amount, payee] = numbers::<4>(s)?;
    Ok(Call::Withdraw(WithdrawalFields {
        member,
        asset,
        amount,
        payee,
    }))
}

// send: the word alone.
#[tactic(auto, unfolding(rules::specs::Lines::formed, rules::specs::Lines::send_form))]
fn read_send(s: &[u8]) -> Result<Call, FailsAt>
    ensures { result ≡ formed send_form (wanted_in 1 0 s.now) }
{
    let [] = numbers::<0>(s)?;
    Ok(Call::Send)
}

// settle: nonce.
#[tactic(auto, unfolding(rules::specs::Lines::formed, rules::specs::Lines::settle_form))]
fn read_settle(s: &[u8]) -> Result<Call, FailsAt>
    ensures { result ≡ formed settle_form (wanted_in 1 1 s.now) }
{
    let [nonce] = numbers::<1>(s)?;
    Ok(Call::Settle(Nonce(nonce)))
}

// grant: from, to, domain.
#[tactic(auto, unfolding(rules::specs::Lines::formed, rules::specs::Lines::grant_form))]
fn read_grant(s: &[u8]) -> Result<Call, FailsAt>
    ensures { result ≡ formed grant_form (wanted_in 1 3 s.now) }
{
    let [from, to, domain] = numbers::<3>(s)?;
    Ok(Call::Grant(GrantFields { from, to, domain }))
}

// sign: member, domain.
#[tactic(auto, unfolding(rules::specs::Lines::formed, rules::specs::Lines::sign_form))]
fn read_sign(s: &[u8]) -> Result<Call, FailsAt>
    ensures { result ≡ formed sign_form (wanted_in 1 2 s.now) }
{
    let [member, domain] = numbers::<2>(s)?;
    Ok(Call::Sign(SignFields { member, domain }))
}

// trace: nonce.
#[tactic(auto, unfolding(rules::specs::Lines::formed, rules::specs::Lines::trace_form))]
fn read_trace(s: &[u8]) -> Result<Call, FailsAt>
    ensures { result ≡ formed trace_form (wanted_in 1 1 s.now) }
{
    let [nonce] = numbers::<1>(s)?;
    Ok(Call::Trace(Nonce(nonce)))
}

// Whether the line's first field is this word: `==` takes a slice and an array of bytes only as two slices.
#[tactic(auto, using(crate::proofs::LineLaws::same_test))]
fn word_is(f: &[u8], word: &[u8]) -> bool
    ensures { result ≡ same word.now f.now }
{
    f == word
}
