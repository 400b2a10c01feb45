// The bytes that are held of a line that comes in parts.
ghost use Rattle.std.specs.Prelude.{◌≡◌, [], eqb, length};
ghost use Rattle.runner.specs.Machine.{holds};

use rules::limits::MOST_HELD;
use std::marker::Model;

// Of a line over 120 bytes no more than 121 are held: they tell the field of the whole line. A type of its own: what
// comes past them is passed over (`extend`), where the library's `arrayvec` refuses it. Past the bytes that are held are
// zeros, so that they tell the whole value: it may be copied.
#[derive(Clone, Copy)]
pub struct Held {
    bytes: [u8; MOST_HELD],
    len: usize,
}

impl Model for Held {
    ghost use Rattle.std.specs.Prelude.{ℕ, ◌-◌, ◌≡◌, ◌++◌, List, length, take, replicate};
    ghost use Rattle.std.proofs.Common.{arith, sym, ap, ◌∙◌, length-take-le, take-append-drop};
    ghost use Rattle.rules.specs.Limits.{most_held};
    ghost use Rattle.runner.specs.Machine.{HeldIn};

    ghost Value = { List ℕ };

    ghost view = { λ h. take h.len h.bytes };

    ghost invariant = { λ h. HeldIn h.bytes h.len };

    ghost inverse = { λ bs. record { bytes = bs ++ replicate (most_held - length bs) 0; len = length bs } };

    ghost inverse_ok = { λ h k.
        let few : length (take h.len h.bytes) ≡ h.len = length-take-le h.len h.bytes (omega (arith, k.few, k.size)) in
        let padded = ap (λ (n : ℕ). take h.len h.bytes ++ replicate (most_held - n) 0) few in
        let rest = ap (λ (t : List ℕ). take h.len h.bytes ++ t) (sym k.rest) in
        λ i. record { bytes = (padded ∙ rest ∙ take-append-drop h.len h.bytes) i; len = few i } };
}

impl Held {
    // No byte yet.
    pub fn new() -> Self
        ensures { result ≡ [] }
    {
        Held {
            bytes: [0; MOST_HELD],
            len: 0,
        }
    }

    // Whether no byte is held.
    pub fn is_empty(&self) -> bool
        ensures { result ≡ eqb (length self.now) 0 }
    {
        self.len == 0
    }

    // The bytes of a part of a line, as far as there is room for them.
    pub fn extend(&mut self, part: &[u8])
        ensures { self.new ≡ holds self.old part.now }
    {
        let n = part.len().min(MOST_HELD - self.len);
        self.bytes[self.len..self.len + n].copy_from_slice(&part[..n]);
        self.len += n;
    }

    // The line is answered: nothing of the next one is held.
    pub(crate) fn clear(&mut self)
        ensures { self.new ≡ [] }
    {
        if self.len != 0 {
            *self = Held::new();
        }
    }

    // The bytes that are held.
    pub fn as_slice(&self) -> &[u8]
        ensures { result.now ≡ self.now }
    {
        &self.bytes[..self.len]
    }
}
