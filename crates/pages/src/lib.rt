// A page: a buffer of the caller's that is written from a place on. Where the buffer ends, what has no room is
// left out; a caller that has room for the whole of it finds the whole of it (proofs/PageLaws.antt, `put_whole`).
#![tactic(auto)]

ghost use Rattle.std.specs.Prelude.{◌-◌, ◌≤◌, ◌≡◌, [], ◌∷◌, length, take};
ghost use Rattle.rules.specs.Lines.{line_feed, decimal, tabbed};
ghost use Rattle.pages.specs.Writing.{page, put};
ghost use Rattle.pages.specs.Lent.{page_of, SameBuffer};

// The bytes, and the place up to which they are written. That place may lie past the end: then there is no room, and
// nothing more is written. Each function that writes says what the page is afterwards (`page_of`), and that its buffer
// is still the one that was lent: so whoever lent it finds there what is written.
#[derive(Drop)]
pub struct Page<'a> {
    bytes: &'a mut [u8],
    upto: usize,
}

impl<'a> Page<'a> {
    pub fn new(bytes: &'a mut [u8], upto: usize) -> Page<'a>
        ensures begun { page_of result ≡ page bytes.old upto }
        ensures lent { result.bytes.ghost_name ≡ bytes.entry.ghost_name }
    {
        Page { bytes, upto }
    }

    #[tactic(auto, unfolding(crate::specs::Writing::put, crate::specs::Writing::put_byte))]
    pub fn put_byte(&mut self, b: u8)
        ensures written { page_of self.new ≡ put (page_of self.old) (b ∷ []) }
        ensures lent { SameBuffer self.old self.new }
    {
        if self.upto < self.bytes.len() {
            self.bytes[self.upto] = b;
            self.upto += 1;
        }
    }

    #[tactic(auto, using(crate::proofs::PageLaws::put_more), unfolding(crate::specs::Writing::put))]
    pub fn put_bytes(&mut self, text: &[u8])
        ensures written { page_of self.new ≡ put (page_of self.old) text.now }
        ensures lent { SameBuffer self.old self.new }
    {
        for b in text {
            self.put_byte(*b);
        }
    }

    // A number's decimal digits, as the library's `itoa` writes them: at their places on the page where there is room for
    // all of them.
    #[tactic(auto, using(crate::proofs::PageLaws::put_digit, crate::proofs::PageLaws::put_direct, crate::proofs::PageLaws::printed_is, crate::proofs::PageLaws::put_printed))]
    pub fn put_decimal(&mut self, n: u64)
        ensures written { page_of self.new ≡ put (page_of self.old) (decimal n) }
        ensures lent { SameBuffer self.old self.new }
    {
        if n < 10 {
            self.put_byte(b'0' + n as u8);
            return;
        }
        let k = places(n);
        if k <= self.room() {
            itoa::write_digits(n, self.bytes, self.upto + k);
            self.upto += k;
            return;
        }
        self.put_bytes(itoa::Buffer::new().format(n).as_bytes());
    }

    // A further value of a line: its tab, and then its digits.
    #[tactic(auto, using(crate::proofs::PageLaws::put_tabbed))]
    pub fn put_value(&mut self, n: u64)
        ensures written { page_of self.new ≡ put (page_of self.old) (tabbed (n ∷ [])) }
        ensures lent { SameBuffer self.old self.new }
    {
        self.put_byte(b'\t');
        self.put_decimal(n);
    }

    pub fn put_line_feed(&mut self)
        ensures written { page_of self.new ≡ put (page_of self.old) (line_feed ∷ []) }
        ensures lent { SameBuffer self.old self.new }
    {
        self.put_byte(b'\n');
    }

    // How many bytes are left.
    pub fn room(&self) -> usize
        ensures { result ≡ length (page_of self.now).bytes - (page_of self.now).upto }
    {
        self.bytes.len().saturating_sub(self.upto)
    }

    // What is written.
    pub fn written(&self) -> &[u8]
        ensures { result.now ≡ take (page_of self.now).upto (page_of self.now).bytes }
    {
        &self.bytes[..self.upto.min(self.bytes.len())]
    }

    // Nothing is written: the bytes stay, and the next ones are written over them.
    pub fn clear(&mut self)
        ensures cleared { page_of self.new ≡ page (page_of self.old).bytes 0 }
        ensures lent { SameBuffer self.old self.new }
    {
        self.upto = 0;
    }
}

// How many digits a number has.
#[tactic(auto, using(crate::proofs::PageLaws::length_places))]
fn places(n: u64) -> usize
    ensures spelled { result ≡ length (decimal n) }
    ensures some { 1 ≤ result }
    ensures few { result ≤ 20 }
{
    n.max(1).ilog10() as usize + 1
}
