// The field reader. Fields are parted by one tab; each is a number, or it is told by its own number that it is none.
#![tactic(auto)]

ghost use Rattle.std.specs.Prelude.{◌≡◌, Ok, Err, MatchResult, drop};
ghost use Rattle.rules.specs.Lines.{field_end, after_field, leading_zero};
ghost use Rattle.fields.specs.Reading.{one_more, is_shaped, digits_read, next_read};

use rules::calls::FailsAt;

// Where the first field ends: at the first tab, or at the end of the line.
pub fn field_end(s: &[u8]) -> usize
    ensures { result ≡ field_end s.now }
{
    s.iter().position(|b| *b == b'\t').unwrap_or(s.len())
}

// "The field reader hands back the part of the line after the field", of the field that stands at place `at`: at any
// place of a field it is the same part. It begins with the tab of the field that follows, and is empty where the line
// ends. Where the field ends stands that tab, or the line ends: one look is all.
pub fn after_field(s: &[u8], at: usize) -> &[u8]
    ensures { result.now ≡ after_field (drop at s.now) }
{
    let Some(field) = s.get(at..) else {
        return &[];
    };
    if let [b'\t', ..] = field {
        return field;
    }
    let end = field_end(field);
    &field[end..]
}

// The number of the field that follows, and the part after it. The part that is read begins with that field's tab. One
// pass over the field finds its number and its end. It is field k of the line: "The field reader is to give the field
// where reading failed."
pub fn next_field(s: &[u8], k: u64) -> Result<(u64, &[u8]), FailsAt>
    ensures { MatchResult result (λ read. next_read k s.now ≡ Ok (read.0, read.1.now)) (λ e. next_read k s.now ≡ Err e) }
{
    let Some((_, text)) = s.split_first() else {
        return Err(FailsAt(k));
    };
    let Some((n, end)) = digits(text) else {
        return Err(FailsAt(k));
    };
    let (field, _) = text.split_at(end);
    if is_shaped(field) {
        let rest = after_field(text, end);
        return Ok((n, rest));
    }
    Err(FailsAt(k))
}

// The value of the digits up to the next tab or the end of the line, and where they end. There is none where another
// byte is among them, or where no field can hold the value.
fn digits(s: &[u8]) -> Option<(u64, usize)>
    ensures { result ≡ digits_read s.now }
{
    let mut v: u64 = 0;
    for (i, b) in s.iter().enumerate() {
        if *b == b'\t' {
            return Some((v, i));
        }
        v = one_more(v, *b)?;
    }
    Some((v, s.len()))
}

// One digit more: the number that it makes, where a field can hold it.
#[tactic(auto, using(std::proofs::lemmas::Bool::Decides::nat_tests), unfolding(crate::specs::Reading::one_more))]
fn one_more(v: u64, b: u8) -> Option<u64>
    ensures { result ≡ one_more v b }
{
    if !b.is_ascii_digit() {
        return None;
    }
    v.checked_mul(10)?.checked_add(u64::from(b - b'0'))
}

// "1 to 20 decimal digits, no sign, no leading zero except `0` itself", of a field that has nothing but digits.
#[tactic(auto, using(std::proofs::lemmas::Bool::Decides::nat_tests), unfolding(crate::specs::Reading::is_shaped))]
fn is_shaped(f: &[u8]) -> bool
    ensures { result ≡ is_shaped f.now }
{
    (1..=20).contains(&f.len()) && !is_led(f)
}

// A leading zero: a first digit 0 with another after it.
fn is_led(f: &[u8]) -> bool
    ensures { result ≡ leading_zero f.now }
{
    matches!(f, [b'0', _, ..])
}
