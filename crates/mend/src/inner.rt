// What other crates call with a `requires`: mending all touched pages.
ghost use Rattle.std.specs.Prelude.{◌≡◌, ◌+◌, ◌-◌, ◌*◌, ◌≤◌, ◌<◌, max, length, replicate};
ghost use Rattle.std.proofs.Math.Seq.{paste};
ghost use Rattle.endian.specs.Numbers.{bytes_of, number_at};
ghost use Rattle.wal.specs.Walk.{entries, end_of};
ghost use Rattle.page.specs.Layout.{page_bytes, body_bytes, body_of, count_of, page_at, magic_of, type_of, id_of, lsn_of};
ghost use Rattle.page.specs.Packed.{room_for, body, tuple_bytes};
ghost use Rattle.page.specs.Writer.{with_slot};
ghost use Rattle.rules.specs.Order.{one};
ghost use Rattle.rules.specs.Mend.{committed, top_of, slots_for, repacked, mend};
ghost use Rattle.rules.specs.Recover.{is_touched, mended_from, touched_from};
ghost use Rattle.cells.specs.Cell.{Starts};
ghost use Rattle.cells.specs.Measure.{LastAt, Lasts};
ghost use Rattle.change.specs.Tuples.{Lies, tuple_in};
ghost use Rattle.images.specs.Page.{Sound, Touched, Fitting};

use change::Image;
use crc32c::inner::Tables;
use decide::Changes;
use endian::Lsn;
use endian::inner::{put_u64, u64_at};
use images::Slots;
use images::inner::{bytes, slots_for, top_of};
use page::inner::{id, kind, lsn, magic, page_at, put_slot, seal, store};
use page::{BODY_BYTES, HEAD_BYTES, PAGE_BYTES, PageHead, RESERVED_AT};

// Stamps the tuple that starts at a place of the working page as deleted by transaction x.
fn stamp(work: &mut [u8], at: usize, x: u64)
    requires { at + 24 ≤ length work.old }
    ensures { work.new ≡ paste (paste work.old (at + 8) (bytes_of 8 x) 8) (at + 16) (bytes_of 1 1) 1 }
{
    put_u64(work, at + 8, x);
    work[at + 16] = 1;
}

// Puts the tuple that an image stands for into the working page as slot k, so that it ends at top of the body. Gives back where it starts.
fn put_image(work: &mut [u8], k: usize, top: usize, log: &[u8], page: &[u8], m: Image) -> usize
    requires lies { Lies log.now page.now m }
    requires work_len { (length work.old ≡ page_bytes) × (4 * k + 4 + m.length ≤ top) × (top ≤ body_bytes) }
    ensures value { result ≡ top - m.length }
    ensures work_after { work.new ≡ with_slot work.old k top (tuple_in log.now page.now m) }
{
    let start = put_slot(work, k, top, bytes(m, log, page));
    let Some(x) = m.deleted_by else {
        return start;
    };
    stamp(work, HEAD_BYTES + start, x.0);
    start
}

// Fills a zeroed working page with the n slots that a page is to have and their tuples. Gives back where the last tuple starts.
fn fill(work: &mut [u8], slots: &Slots, n: usize) -> usize
    requires work_value { work.old ≡ replicate page_bytes 0 }
    requires sound { Sound slots.now.page.now }
    requires n_value { n ≡ max (count_of slots.now.page.now) (top_of slots.now.i (entries slots.now.log.now)) }
    requires fits { room_for (slots_for (committed (entries slots.now.log.now)) (entries slots.now.log.now) slots.now.i slots.now.page.now) ≤ body_bytes }
    ensures value { result ≡ body_bytes - tuple_bytes (slots_for (committed (entries slots.now.log.now)) (entries slots.now.log.now) slots.now.i slots.now.page.now) }
    ensures work_after { body_of work.new ≡ body (slots_for (committed (entries slots.now.log.now)) (entries slots.now.log.now) slots.now.i slots.now.page.now) }
{
    let mut top = BODY_BYTES;
    for k in 0..n {
        let m = slots.image(k);
        top = put_image(work, k, top, slots.log, slots.page, m);
    }
    top
}

// What a page is to keep in its header, and the larger of its own LSN and that of the change at a place, the last one on it.
fn head_for(log: &[u8], page: &[u8], at: usize) -> PageHead
    requires { (length page.now ≡ page_bytes) × (at + 12 ≤ length log.now) }
    ensures { (result.magic ≡ magic_of page.now) × (result.kind ≡ type_of page.now) × (result.id.0 ≡ id_of page.now) × (result.lsn.0 ≡ max (lsn_of page.now) (number_at 8 (at + 4) log.now)) }
{
    let own = lsn(page);
    PageHead {
        magic: magic(page),
        kind: kind(page),
        id: id(page),
        lsn: Lsn(own.0.max(u64_at(log, at + 4))),
    }
}

// Writes a page, repacked with its n slots, into a zeroed working page; the last change on it is at the place last.
fn repack(t: &Tables, work: &mut [u8], slots: &Slots, n: usize, last: usize)
    requires work_value { work.old ≡ replicate page_bytes 0 }
    requires sound { Sound slots.now.page.now }
    requires n_value { n ≡ max (count_of slots.now.page.now) (top_of slots.now.i (entries slots.now.log.now)) }
    requires last_at { LastAt slots.now.log.now (end_of slots.now.log.now) slots.now.i last }
    requires fits { room_for (slots_for (committed (entries slots.now.log.now)) (entries slots.now.log.now) slots.now.i slots.now.page.now) ≤ body_bytes }
    ensures { work.new ≡ repacked (committed (entries slots.now.log.now)) (entries slots.now.log.now) slots.now.i slots.now.page.now }
{
    let top = fill(work, slots, n);
    let h = head_for(slots.log, slots.page, last);
    seal(t, work, h, &slots.page[RESERVED_AT..HEAD_BYTES], n, top);
}

// Mends page i in its place: built in a working page first. Says how many pages it rewrote, 0 or 1.
fn mend_page(
    t: &Tables,
    changes: &Changes,
    starts: &[u32; 4097],
    lasts: &[u32; 4096],
    pages: &mut [u8],
    i: usize,
    cells: &mut [u32; 4080],
) -> u64
    requires starts { Starts (entries changes.now.log.now) changes.now.n starts.now }
    requires lasts { Lasts changes.now.log.now (end_of changes.now.log.now) changes.now.n lasts.now }
    requires touched { Touched changes.now.log.now pages.old i (i + 1) }
    requires fitting { Fitting changes.now.log.now pages.old i (i + 1) }
    requires i_lt_n { (i < changes.now.n) × (length pages.old ≡ changes.now.n * page_bytes) }
    ensures pages_after { pages.new ≡ paste pages.old (i * page_bytes) (mend (entries changes.now.log.now) i (page_at i pages.old)) page_bytes }
    ensures value { result ≡ one (is_touched (entries changes.now.log.now) i) }
{
    let top = top_of(starts, i);
    if top == 0 {
        return 0;
    }
    changes.decide(i, top, cells);
    let mut work = [0u8; PAGE_BYTES];
    let page = page_at(pages, i);
    let slots = Slots {
        log: changes.log,
        page,
        i,
        top,
        cells,
    };
    let n = slots_for(page, starts, i);
    repack(t, &mut work, &slots, n, lasts[i] as usize);
    store(pages, i, &work);
    1
}

// Mends all pages and says how many it rewrote.
pub fn mend_all(
    t: &Tables,
    changes: &Changes,
    starts: &[u32; 4097],
    lasts: &[u32; 4096],
    pages: &mut [u8],
) -> u64
    requires starts { Starts (entries changes.now.log.now) changes.now.n starts.now }
    requires lasts { Lasts changes.now.log.now (end_of changes.now.log.now) changes.now.n lasts.now }
    requires touched { Touched changes.now.log.now pages.old 0 changes.now.n }
    requires fitting { Fitting changes.now.log.now pages.old 0 changes.now.n }
    requires n_value { length pages.old ≡ changes.now.n * page_bytes }
    ensures pages_after { pages.new ≡ mended_from (entries changes.now.log.now) pages.old changes.now.n 0 }
    ensures value { result ≡ touched_from (entries changes.now.log.now) changes.now.n 0 }
{
    let mut cells = [0u32; 4080];
    let mut rewritten: u64 = 0;
    for i in 0..changes.n {
        rewritten += mend_page(t, changes, starts, lasts, pages, i, &mut cells);
    }
    rewritten
}
