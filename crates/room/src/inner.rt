// What other crates call with a `requires`: the lowest touched page that has no room for what it is to hold.
ghost use Rattle.std.specs.Prelude.{◌≡◌, ◌+◌, ◌<◌, max};
ghost use Rattle.wal.specs.Walk.{entries};
ghost use Rattle.page.specs.Layout.{count_of, pages_in};
ghost use Rattle.page.specs.Packed.{room_for};
ghost use Rattle.refusals.specs.Verdict.{told};
ghost use Rattle.rules.specs.Mend.{committed, top_of, slots_for};
ghost use Rattle.rules.specs.Recover.{is_tight, tight_from};
ghost use Rattle.cells.specs.Cell.{Starts};
ghost use Rattle.images.specs.Page.{Sound, Touched};

use decide::Changes;
use images::Slots;
use images::inner::{slots_for, top_of};
use page::{BODY_BYTES, PAGE_BYTES};
use refusals::{Refusal, Refused};

// The bytes that the n slots of a page and their tuples need.
fn room(slots: &Slots, n: usize) -> usize
    requires sound { Sound slots.now.page.now }
    requires n_value { n ≡ max (count_of slots.now.page.now) (top_of slots.now.i (entries slots.now.log.now)) }
    ensures { result ≡ room_for (slots_for (committed (entries slots.now.log.now)) (entries slots.now.log.now) slots.now.i slots.now.page.now) }
{
    let mut sum: usize = 0;
    for k in 0..n {
        sum += 4 + slots.image(k).length;
    }
    sum
}

// Whether page i is touched and has no room for what it is to hold: no page has room for more than 4,080 slots.
fn is_tight(
    changes: &Changes,
    starts: &[u32; 4097],
    pages: &[u8],
    i: usize,
    cells: &mut [u32; 4080],
) -> bool
    requires starts { Starts (entries changes.now.log.now) changes.now.n starts.now }
    requires touched { Touched changes.now.log.now pages.now i (i + 1) }
    requires i_lt_n { (i < changes.now.n) × (changes.now.n ≡ pages_in pages.now) }
    ensures { result ≡ is_tight (entries changes.now.log.now) pages.now i }
{
    let top = top_of(starts, i);
    if top == 0 {
        return false;
    }
    if 4080 < top {
        return true;
    }
    changes.decide(i, top, cells);
    let a = i * PAGE_BYTES;
    let e = a + PAGE_BYTES;
    let log = changes.log;
    let page = &pages[a..e];
    let slots = Slots {
        log,
        page,
        i,
        top,
        cells,
    };
    BODY_BYTES < room(&slots, slots_for(page, starts, i))
}

// Refusal 14: the lowest touched page that has no room.
pub fn tight(changes: &Changes, starts: &[u32; 4097], pages: &[u8]) -> Result<(), Refused>
    requires starts { Starts (entries changes.now.log.now) changes.now.n starts.now }
    requires touched { Touched changes.now.log.now pages.now 0 changes.now.n }
    requires n_value { changes.now.n ≡ pages_in pages.now }
    ensures { told result ≡ tight_from (entries changes.now.log.now) pages.now changes.now.n 0 }
{
    let mut cells = [0u32; 4080];
    for i in 0..changes.n {
        if is_tight(changes, starts, pages, i, &mut cells) {
            return Err(Refusal::PageOverfull.at(i));
        }
    }
    Ok(())
}
