// Which pages the slots of a file have named.
ghost use Rattle.std.specs.Prelude.{◌≡◌, ℕ, ◌<◌, not, eqb, replicate};
ghost use Rattle.endian.specs.Pick.{pick};
ghost use Rattle.page.specs.Layout.{page_limit};
ghost use Rattle.doublewrite.specs.Marks.{mark_bytes, bit_at};

use page::PAGE_LIMIT;

const MARK_BYTES: usize = PAGE_LIMIT / 8;

// A set of pages: a bit for each page that may be lent.
#[derive(Drop)]
pub struct PageSet {
    bits: [u8; MARK_BYTES],
}

impl PageSet {
    // No page.
    pub fn empty() -> PageSet
        ensures { result.bits ≡ replicate mark_bytes 0 }
    {
        PageSet {
            bits: [0; MARK_BYTES],
        }
    }

    // Puts page i into the set, and says whether it was not in it.
    #[tactic(auto, unfolding(crate::specs::Marks::bit_at))]
    pub fn insert(&mut self, i: usize) -> bool
        requires { i < page_limit }
        ensures value { result ≡ not (eqb (bit_at self.old.bits i) 1) }
        ensures by_index { (j : ℕ) → bit_at self.new.bits j ≡ pick (eqb i j) 1 (bit_at self.old.bits j) }
    {
        let fresh = (self.bits[i / 8] >> (i % 8)) % 2 == 0;
        self.bits[i / 8] = self.bits[i / 8] | (1 << (i % 8));
        fresh
    }
}
