// Two page areas: the refusals, and the lowest page that differs.
ghost use Rattle.std.specs.Prelude.{◌≡◌, true, false, ◌<◌, max, length, ltb, None};
ghost use Rattle.refusals.specs.Verdict.{verdict, told};
ghost use Rattle.endian.specs.Pick.{pick};
ghost use Rattle.wal.specs.Walk.{entries};
ghost use Rattle.page.specs.Layout.{page_bytes, data_type, count_of, pages_in, page_at, type_of};
ghost use Rattle.page.specs.Fault.{fault_of};
ghost use Rattle.rules.specs.Lent.{lent};
ghost use Rattle.rules.specs.Mend.{top_of};
ghost use Rattle.images.specs.Page.{Sound};
ghost use Rattle.recovery.specs.Ready.{Ready};
ghost use Rattle.audit.specs.Judge.{refused_by, or_else, judge_from};
ghost use Rattle.audit.specs.Known.{Faultless, PageKnown, compared_from};

use crate::bytes::same;
use crate::pages::{difference, head_agrees, nothing, slots_finding};
use crate::{Finding, PageJudged};
use cells::Scratch;
use crc32c::inner::Tables;
use endian::{Lsn, PageNumber};
use images::Slots;
use images::inner::slots_for;
use page::PAGE_BYTES;
use page::inner::{fault, first_bad, page_at};
use recovery::inner::decide_page;
use refusals::{Refusal, Refused, Verdict};

fn refused(number: u64, place: u64) -> Finding
    ensures { result ≡ refused_by (verdict number place) }
{
    Finding {
        verdict: Verdict {
            number: number,
            place: place,
        },
        differs: false,
        page: PageNumber(0),
        slot: 0,
    }
}

// What a refusal finds, and nothing where there is none.
fn told(r: Result<(), Refused>) -> Finding
    ensures { result ≡ refused_by (told r) }
{
    match r {
        Ok(_) => nothing(),
        Err(e) => refused(e.refusal.number(), e.place),
    }
}

// Whether the page at an index has no fault.
fn is_sound(t: &Tables, magic: u64, i: usize, page: &[u8]) -> bool
    requires page_len { length page.now ≡ page_bytes }
    ensures page_value { result ≡ true → fault_of magic i page.now ≡ None }
    ensures fact { result ≡ false → fault_of magic i page.now ≡ None → ⊥ }
{
    fault(t, magic, PageNumber(i as u64), page).is_none()
}

// Page i, which was p and now is q, and which the log does not touch. The same bytes need no second look.
fn untouched(t: &Tables, magic: u64, log: &[u8], i: usize, p: &[u8], q: &[u8]) -> PageJudged
    requires log_value { (top_of i (entries log.now) ≡ 0) × (length q.now ≡ page_bytes) × (fault_of magic i p.now ≡ None) }
    ensures { PageKnown magic (entries log.now) i p.now q.now result }
{
    if same(p, q) {
        return PageJudged {
            sound: true,
            finding: nothing(),
        };
    }
    PageJudged {
        sound: is_sound(t, magic, i, q),
        finding: difference(i, 0),
    }
}

// The same of a touched page, a Data page before, which is to have n slots.
fn touched(t: &Tables, magic: u64, slots: &Slots, n: usize, q: &[u8]) -> PageJudged
    requires sound { Sound slots.now.page.now }
    requires n_value { n ≡ max (count_of slots.now.page.now) (top_of slots.now.i (entries slots.now.log.now)) }
    requires nonzero { (0 < top_of slots.now.i (entries slots.now.log.now)) × (length q.now ≡ page_bytes) × (type_of slots.now.page.now ≡ data_type) }
    ensures { PageKnown magic (entries slots.now.log.now) slots.now.i slots.now.page.now q.now result }
{
    if !is_sound(t, magic, slots.i, q) {
        return PageJudged {
            sound: false,
            finding: nothing(),
        };
    }
    if !head_agrees(slots.page, q) {
        return PageJudged {
            sound: true,
            finding: difference(slots.i, 0),
        };
    }
    PageJudged {
        sound: true,
        finding: slots_finding(slots, n, q),
    }
}

// Page i of both areas.
fn page_judged(
    t: &Tables,
    magic: u64,
    log: &[u8],
    before: &[u8],
    after: &[u8],
    i: usize,
    s: &Scratch,
    cells: &mut [u32; 4080],
) -> PageJudged
    requires ready { Ready log.now before.now s.now.starts s.now.lists s.now.fronts s.now.space }
    requires faultless { Faultless magic before.now }
    requires before_len { (length before.now ≡ length after.now) × (i < pages_in before.now) }
    ensures { PageKnown magic (entries log.now) i (page_at i before.now) (page_at i after.now) result }
{
    let top = decide_page(
        log, before, i, &s.starts, &s.lists, &s.fronts, &s.space, cells,
    );
    let page = page_at(before, i);
    let q = page_at(after, i);
    if top == 0 {
        return untouched(t, magic, log, i, page, q);
    }
    let slots = Slots {
        log,
        page,
        i,
        top,
        cells,
    };
    let n = slots_for(page, &s.starts, i);
    touched(t, magic, &slots, n, q)
}

// What is known behind page i, of which g was found: a difference of an earlier page stays, and the pages before the first do not count.
fn earlier(f: Finding, g: Finding, first: usize, i: usize) -> Finding
    ensures { result ≡ pick (ltb i first) f (or_else f g) }
{
    if i < first || f.differs { f } else { g }
}

// The first refusal of the pages after; where there is none, the lowest page from an index on that differs.
fn compare(
    t: &Tables,
    magic: u64,
    log: &[u8],
    before: &[u8],
    after: &[u8],
    first: usize,
    s: &Scratch,
) -> Finding
    requires ready { Ready log.now before.now s.now.starts s.now.lists s.now.fronts s.now.space }
    requires faultless { Faultless magic before.now }
    requires before_len { length before.now ≡ length after.now }
    ensures { result ≡ compared_from magic (entries log.now) before.now after.now first }
{
    let mut cells = [0u32; 4080];
    let mut f = nothing();
    for i in 0..before.len() / PAGE_BYTES {
        let g = page_judged(t, magic, log, before, after, i, s, &mut cells);
        if !g.sound {
            return told(first_bad(t, magic, None, after, i));
        }
        f = earlier(f, g.finding, first, i);
    }
    f
}

// The refusals of recovery, 39, and then what comparing finds.
pub fn judge(
    t: &Tables,
    magic: u64,
    floor: Lsn,
    before: &[u8],
    log: &[u8],
    after: &[u8],
    first: usize,
    s: &mut Scratch,
) -> Finding
    ensures { result ≡ judge_from (lent magic floor.0 before.now log.now) after.now first }
{
    if let Err(e) = recovery::inner::judge(t, magic, floor, before, log, s) {
        return refused(e.refusal.number(), e.place);
    }
    if before.len() != after.len() {
        return refused(Refusal::PageAreasDiffer.number(), 0);
    }
    compare(t, magic, log, before, after, first, s)
}
