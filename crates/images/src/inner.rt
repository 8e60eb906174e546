// What other crates call with a `requires`: the image that a slot is to hold.
ghost use Rattle.std.specs.Prelude.{◌≡◌, List, ℕ, ◌+◌, ◌-◌, ◌/◌, ◌≤◌, ◌<◌, max, length, get_or};
ghost use Rattle.wal.specs.Walk.{entries};
ghost use Rattle.page.specs.Layout.{page_bytes, count_of, slot_at};
ghost use Rattle.rules.specs.Mend.{committed, decided};
ghost use Rattle.fates.specs.Fate.{Ordered};
ghost use Rattle.rules.specs.Row.{Standing, in_log};
ghost use Rattle.change.specs.declared.Source.TheVariants.{Log};
ghost use Rattle.change.specs.Tuples.{source_in, Lies, InLog, Stood};
ghost use Rattle.endian.specs.Numbers.{part};
ghost use Rattle.decide.specs.Decide.{ChangeAt};
ghost use Rattle.images.specs.Tuples.{paged, InPage, PagedAt, image_won, standing_won, Placed};
ghost use Rattle.images.specs.Page.{Sound};

use crate::Slots;
use change::images::{after_image, before_image};
use change::{Image, Source};
use page::HEAD_BYTES;
use page::inner::{count, slot_len, slot_off};

// n bytes of the page from a place on.
fn in_page(place: usize, n: usize) -> Image
    ensures { result ≡ paged place n }
{
    Image {
        source: Source::Page,
        place: place,
        length: n,
        deleted_by: None,
    }
}

// The bytes that an image names, as they stand.
pub fn bytes<'a>(m: Image, log: &'a [u8], page: &'a [u8]) -> &'a [u8]
    requires { Lies log.now page.now m }
    ensures { result.now ≡ part m.place m.length (source_in log.now page.now m.source) }
{
    let end = m.place + m.length;
    match m.source {
        Source::Log => &log[m.place..end],
        Source::Page => &page[m.place..end],
    }
}

// The image that a cell c names, which is not 0.
// Kept (a, fixed memory): a cell is 0, or twice a place and 1 for a committed change, as decide fills it: one u32 for each slot.
pub fn won_image(log: &[u8], c: u32) -> Image
    requires ordered { Ordered log.now }
    requires change_at { ChangeAt log.now (c / 2) }
    ensures by_index { (v : List ℕ) → InLog log.now result (image_won log.now c v) }
    ensures logged_value { (result.source ≡ Log) × ((d : Standing) → standing_won log.now c d ≡ in_log result.place) }
{
    let at = (c / 2) as usize;
    if c % 2 == 1 {
        return after_image(log, at);
    }
    before_image(log, at)
}

// What slot k of a page holds.
pub fn kept_image(page: &[u8], k: usize) -> Image
    requires { Sound page.now }
    ensures in_page { InPage page.now result (slot_at page.now k) }
    ensures paged_at { PagedAt page.now k result }
{
    if count(page) <= k {
        return in_page(HEAD_BYTES, 0);
    }
    in_page(HEAD_BYTES + slot_off(page, k), slot_len(page, k))
}

// One more than the highest touched slot of page i, by the starts of the pages.
pub fn top_of(starts: &[u32; 4097], i: usize) -> usize
    requires { (i < 4096) × (get_or starts.now i 0 ≤ get_or starts.now (i + 1) 0) }
    ensures { result ≡ get_or starts.now (i + 1) 0 - get_or starts.now i 0 }
{
    (starts[i + 1] - starts[i]) as usize
}

// How many slots page i is to have.
pub fn slots_for(page: &[u8], starts: &[u32; 4097], i: usize) -> usize
    requires { (length page.now ≡ page_bytes) × (i < 4096) × (get_or starts.now i 0 ≤ get_or starts.now (i + 1) 0) }
    ensures { result ≡ max (count_of page.now) (get_or starts.now (i + 1) 0 - get_or starts.now i 0) }
{
    count(page).max(top_of(starts, i))
}

impl<'a> Slots<'a> {
    // The image that slot k is to hold.
    pub fn image(&self, k: usize) -> Image
        requires { Sound self.now.page.now }
        ensures stood { Stood self.now.log.now self.now.page.now result (decided (committed (entries self.now.log.now)) (entries self.now.log.now) self.now.i k (slot_at self.now.page.now k)) }
        ensures placed { Placed self.now.log.now self.now.page.now self.now.i k result }
    {
        if k >= self.top || self.cells[k] == 0 {
            return kept_image(self.page, k);
        }
        won_image(self.log, self.cells[k])
    }
}
