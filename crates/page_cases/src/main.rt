// The page cases: a page with each kind of fault, which of several faults and bad pages is given, visible rows one by one and many at a time, cancelled rows, and a free map.
#![tactic(auto)]

ghost use Rattle.std.specs.Prelude.{◌≡◌, length};

use endian::PageNumber;
use page::{Fault, RowList};
use refusals::Refused;
use std::io;

const MAGIC: u64 = 0x0123_4567_89AB_CDEF;

// ---- pages

// The page with n in the two bytes at a place.
fn with(mut p: [u8; 16384], at: usize, n: u16) -> [u8; 16384] {
    endian::put_u16(&mut p, at, n);
    p
}

// The page with its checksum anew.
fn summed(mut p: [u8; 16384]) -> [u8; 16384] {
    let c = crc32c::crc32c(&p[64..]);
    endian::put_u32(&mut p, 12, c);
    p
}

// A page of zeros with a type, an id, an item count, free start and free end, and LSN 9.
fn headed(kind: u16, id: u16, count: u16, start: u16, end: u16) -> [u8; 16384] {
    let mut p = [0u8; 16384];
    endian::put_u64(&mut p, 0, MAGIC);
    let q = with(with(p, 8, kind), 10, count);
    let r = with(with(q, 16, id), 24, 9);
    with(with(r, 32, start), 34, end)
}

// A page with 30 and 40 bytes in slots 0 and 1.
fn base() -> [u8; 16384] {
    let p = with(with(headed(1, 0, 2, 8, 16250), 64, 16290), 66, 30);
    summed(with(with(p, 68, 16250), 70, 40))
}

// ---- what is seen

fn show_fault(rt: &impl Print, f: Option<Fault>) -> io::Result<()> {
    match f {
        None => print!(rt; "sound"),
        Some(Fault::MagicOrType) => print!(rt; "magic or type"),
        Some(Fault::Id) => print!(rt; "id"),
        Some(Fault::Checksum) => print!(rt; "checksum"),
        Some(Fault::Count) => print!(rt; "count"),
        Some(Fault::FreeStart) => print!(rt; "free start"),
        Some(Fault::FreeEnd) => print!(rt; "free end"),
        Some(Fault::Slot(k)) => print!(rt; "slot {k}"),
    }
}

// A refusal's number and place; 0 at 0 where nothing is refused.
fn show_told<T: Drop>(rt: &impl Print, r: Result<T, Refused>) -> io::Result<()> {
    match r {
        Ok(_) => print!(rt; "0 at 0"),
        Err(e) => print!(rt; "{} at {}", e.refusal.number(), e.place),
    }
}

// The name of a case, the first fault of the page at index 0, and the verdict on it.
fn judge(rt: &impl Print, name: &str, p: &[u8; 16384]) -> io::Result<()> {
    let t = crc32c::inner::tables();
    print!(rt; "{name}: ")?;
    show_fault(rt, page::inner::fault(&t, MAGIC, PageNumber(0), p))?;
    print!(rt; ", ")?;
    show_told(rt, page::verify(MAGIC, p))?;
    println!(rt)
}

// ---- the cases

// The page with n in two bytes of its header.
fn changed(rt: &impl Print, name: &str, at: usize, n: u16) -> io::Result<()> {
    let p = with(base(), at, n);
    judge(rt, name, &p)
}

// The page with n in two bytes of its body, and the checksum to match.
fn changed_body(rt: &impl Print, name: &str, at: usize, n: u16) -> io::Result<()> {
    let p = summed(with(base(), at, n));
    judge(rt, name, &p)
}

fn header_cases(rt: &impl Print) -> io::Result<()> {
    judge(rt, "good", &base())?;
    changed(rt, "magic", 0, 0)?;
    changed(rt, "type 7", 8, 7)?;
    changed(rt, "type 6", 8, 6)?;
    changed(rt, "id 1", 16, 1)?;
    changed(rt, "checksum", 12, 0)?;
    changed(rt, "a byte of the gap", 100, 1)?;
    changed(rt, "count 4081", 10, 4081)?;
    changed(rt, "free start 9", 32, 9)?;
    changed(rt, "free end 7", 34, 7)?;
    changed(rt, "free end 16321", 34, 16321)?;
    changed(rt, "free end 16320", 34, 16320)?;
    changed(rt, "free end 8", 34, 8)
}

fn slot_cases(rt: &impl Print) -> io::Result<()> {
    changed_body(rt, "length 23", 70, 23)?;
    changed_body(rt, "length 24", 70, 24)?;
    changed_body(rt, "deleted byte 2", 16370, 2)?;
    changed_body(rt, "deleted byte 1", 16370, 1)?;
    changed(rt, "offset below free end", 34, 16251)?;
    changed(rt, "offset at free end", 34, 16250)?;
    changed_body(rt, "end past the body", 66, 31)?;
    changed_body(rt, "offset with no length", 70, 0)?;
    changed_body(rt, "length with no offset", 68, 0)
}

fn empty_slot(rt: &impl Print) -> io::Result<()> {
    let p = with(with(base(), 68, 0), 70, 0);
    judge(rt, "empty slot", &summed(p))
}

fn overlap(rt: &impl Print) -> io::Result<()> {
    let p = with(with(base(), 68, 16251), 16331, 0);
    judge(rt, "overlap by one byte", &summed(p))
}

// The tuple of slot 0 stands before that of slot 1, which starts at a place.
fn other_order(rt: &impl Print, name: &str, at: u16) -> io::Result<()> {
    let p = with(with(base(), 64, 16250), 66, 40);
    let q = with(with(p, 68, at), 70, 30);
    judge(rt, name, &summed(with(q, 16369, 0)))
}

fn two_slots(rt: &impl Print) -> io::Result<()> {
    let p = with(with(base(), 68, 16290), 70, 30);
    judge(rt, "one tuple in two slots", &summed(p))
}

fn pair_cases(rt: &impl Print) -> io::Result<()> {
    empty_slot(rt)?;
    overlap(rt)?;
    other_order(rt, "touching, in the other order", 16290)?;
    other_order(rt, "overlap, in the other order", 16289)?;
    two_slots(rt)
}

// ---- which of several faults is given

fn show_verdict(rt: &impl Print, name: &str, r: Result<(), Refused>) -> io::Result<()> {
    print!(rt; "{name}: ")?;
    show_told(rt, r)?;
    println!(rt)
}

// Two pages, of which the first is good and the second has a magic, a type and an id, and its header's numbers.
fn pair(magic: u64, kind: u16, id: u16, crc: u32, count: u16, start: u16, end: u16) -> [u8; 32768] {
    let mut q = with(with(with(base(), 8, kind), 16, id), 10, count);
    endian::put_u64(&mut q, 0, magic);
    endian::put_u32(&mut q, 12, crc);
    let mut a = [0u8; 32768];
    page::inner::store(&mut a, 0, &base());
    page::inner::store(&mut a, 1, &with(with(q, 32, start), 34, end));
    a
}

// A second page that is wrong in every way, mended step by step: 11, 17, 18, and 19 for its count, free start, free end and slot 1.
fn order_cases(rt: &impl Print) -> io::Result<()> {
    let crc = crc32c::crc32c(&base()[64..]);
    show_verdict(
        rt,
        "magic",
        page::verify(MAGIC, &pair(0, 7, 2, 0, 4081, 9, 7)),
    )?;
    show_verdict(
        rt,
        "type",
        page::verify(MAGIC, &pair(MAGIC, 7, 2, 0, 4081, 9, 7)),
    )?;
    show_verdict(
        rt,
        "id",
        page::verify(MAGIC, &pair(MAGIC, 1, 2, 0, 4081, 9, 7)),
    )?;
    show_verdict(
        rt,
        "checksum",
        page::verify(MAGIC, &pair(MAGIC, 1, 1, 0, 4081, 9, 7)),
    )?;
    show_verdict(
        rt,
        "count",
        page::verify(MAGIC, &pair(MAGIC, 1, 1, crc, 4081, 9, 7)),
    )?;
    show_verdict(
        rt,
        "free start",
        page::verify(MAGIC, &pair(MAGIC, 1, 1, crc, 2, 9, 7)),
    )?;
    show_verdict(
        rt,
        "free end",
        page::verify(MAGIC, &pair(MAGIC, 1, 1, crc, 2, 8, 7)),
    )?;
    show_verdict(
        rt,
        "slot 1",
        page::verify(MAGIC, &pair(MAGIC, 1, 1, crc, 2, 8, 16251)),
    )?;
    show_verdict(
        rt,
        "good",
        page::verify(MAGIC, &pair(MAGIC, 1, 1, crc, 2, 8, 16250)),
    )
}

// A free page, a Data page with a free end too low, a page with another id, and one of zeros.
fn bad_area() -> [u8; 65536] {
    let mut a = [0u8; 65536];
    page::inner::store(&mut a, 0, &summed(headed(4, 0, 0, 0, 16320)));
    page::inner::store(&mut a, 1, &summed(headed(1, 1, 1, 4, 3)));
    page::inner::store(&mut a, 2, &summed(headed(4, 3, 0, 0, 16320)));
    a
}

fn show_from(rt: &impl Print, pages: &[u8], first: u64) -> io::Result<()> {
    print!(rt; "from {first}")?;
    show_verdict(rt, "", page::verify_from(MAGIC, pages, PageNumber(first)))
}

// The lower page's number is given; from a page on, that of the next bad one.
fn from_cases(rt: &impl Print, a: &[u8]) -> io::Result<()>
    requires { length a.now ≡ 65536 }
{
    show_from(rt, a, 0)?;
    show_from(rt, a, 1)?;
    show_from(rt, a, 2)?;
    show_from(rt, a, 3)?;
    show_from(rt, a, 4)?;
    show_from(rt, a, 18446744073709551615)?;
    show_from(rt, &a[0..65535], 4)
}

// ---- areas

// A deleted row of 24 bytes, an empty slot, rows of 30 and 40 bytes.
fn rows_page() -> [u8; 16384] {
    let p = with(with(headed(1, 0, 4, 16, 16226), 64, 16296), 66, 24);
    let q = with(with(p, 72, 16266), 74, 30);
    summed(with(with(with(q, 76, 16226), 78, 40), 16376, 1))
}

// Four rows of 24 bytes: neither deleted nor with an xmax, though its xmin and its pad bytes are not 0; with an xmax of 2 to the 56; deleted; both.
fn states_page() -> [u8; 16384] {
    let p = with(with(headed(1, 0, 4, 16, 16224), 64, 16296), 66, 24);
    let q = with(with(with(with(p, 68, 16272), 70, 24), 72, 16248), 74, 24);
    let r = with(
        with(with(with(q, 76, 16224), 78, 24), 16366, 256),
        16377,
        257,
    );
    summed(with(
        with(with(with(r, 16350, 256), 16328, 1), 16296, 7),
        16304,
        1,
    ))
}

// One row of 100 bytes.
fn row_page() -> [u8; 16384] {
    summed(with(with(headed(1, 2, 1, 4, 16220), 64, 16220), 66, 100))
}

// Rows; a free page; a row.
fn area() -> [u8; 49152] {
    let mut a = [0u8; 49152];
    page::inner::store(&mut a, 0, &rows_page());
    page::inner::store(&mut a, 1, &summed(headed(4, 1, 0, 0, 16320)));
    page::inner::store(&mut a, 2, &row_page());
    a
}

fn show_row(rt: &impl Print, pages: &[u8], i: u64, k: usize) -> io::Result<()> {
    print!(rt; "rows from {i}, {k}")?;
    let r = page::next_visible(MAGIC, pages, PageNumber(i), k);
    match r {
        Err(e) => println!(rt; ": refused by {}", e.refusal.number()),
        Ok(Some(w)) => println!(rt;
            ": page {}, slot {}, length {}, at {}",
            w.page.0, w.slot, w.length, w.offset
        ),
        Ok(None) => println!(rt; ": none"),
    }
}

// The first nine of some numbers.
fn show_nine(rt: &impl Print, s: &[u64]) -> io::Result<()> {
    for n in s.iter().take(9) {
        print!(rt; " {n}")?;
    }
    println!(rt)
}

fn show_answer(
    rt: &impl Print,
    name: &str,
    i: u64,
    k: usize,
    r: Result<RowList, Refused>,
) -> io::Result<()> {
    print!(rt; "{name}{i}, {k}: ")?;
    show_told(rt, r)?;
    match r {
        Ok(l) => print!(rt; ", rows {}, on from {}, {}:", l.count, l.page.0, l.slot),
        Err(_) => print!(rt; ", rows 0, on from 0, 0:"),
    }
}

// What a listing gives back, and the numbers that it was lent.
fn show_list(rt: &impl Print, pages: &[u8], i: u64, k: usize, rows: &mut [u64]) -> io::Result<()> {
    let l = page::list_visible(MAGIC, pages, PageNumber(i), k, rows);
    show_answer(rt, "list from ", i, k, l)?;
    show_nine(rt, rows)
}

// The same of the cancelled rows.
fn show_cancelled(
    rt: &impl Print,
    pages: &[u8],
    i: u64,
    k: usize,
    rows: &mut [u64],
) -> io::Result<()> {
    let l = page::list_cancelled(MAGIC, pages, PageNumber(i), k, rows);
    show_answer(rt, "cancelled from ", i, k, l)?;
    show_nine(rt, rows)
}

fn show_map(rt: &impl Print, name: &str, pages: &[u8], map: &mut [u8]) -> io::Result<()> {
    let r = page::free_map(MAGIC, pages, map);
    print!(rt; "{name}: ")?;
    show_told(rt, r)?;
    println!(rt;
        ", free {}, map {:04x}",
        r.unwrap_or(0),
        endian::u16_at(map, 0)
    )
}

fn row_cases(rt: &impl Print, a: &[u8]) -> io::Result<()>
    requires { length a.now ≡ 49152 }
{
    show_row(rt, a, 0, 0)?;
    show_row(rt, a, 0, 3)?;
    show_row(rt, a, 0, 4)?;
    show_row(rt, a, 1, 0)?;
    show_row(rt, a, 2, 1)?;
    show_row(rt, a, 3, 0)?;
    show_row(rt, a, 18446744073709551615, 18446744073709551615)?;
    show_row(rt, &a[0..49151], 0, 0)?;
    show_row(rt, &a[16384..], 0, 0)?;
    show_row(rt, &a[0..0], 0, 0)
}

fn list_cases(rt: &impl Print, a: &[u8]) -> io::Result<()>
    requires { length a.now ≡ 49152 }
{
    show_list(rt, a, 0, 0, &mut [9u64; 9])?;
    show_list(rt, a, 2, 0, &mut [9u64; 9])?;
    show_list(rt, a, 0, 3, &mut [9u64; 8])?;
    show_list(rt, a, 2, 1, &mut [9u64; 4])?;
    show_list(rt, a, 0, 0, &mut [9u64; 3])?;
    show_list(rt, a, 1, 0, &mut [9u64; 0])?;
    show_list(rt, &a[16384..], 0, 0, &mut [9u64; 4])
}

// Of the four, the first alone is visible.
fn state_cases(rt: &impl Print, p: &[u8]) -> io::Result<()> {
    show_row(rt, p, 0, 0)?;
    show_row(rt, p, 0, 1)?;
    show_list(rt, p, 0, 0, &mut [9u64; 5])?;
    show_cancelled(rt, p, 0, 0, &mut [9u64; 8])?;
    show_cancelled(rt, p, 0, 3, &mut [9u64; 8])
}

fn cancelled_cases(rt: &impl Print, a: &[u8]) -> io::Result<()>
    requires { length a.now ≡ 49152 }
{
    show_cancelled(rt, a, 0, 0, &mut [9u64; 9])?;
    show_cancelled(rt, a, 0, 1, &mut [9u64; 4])?;
    show_cancelled(rt, a, 0, 0, &mut [9u64; 3])?;
    show_cancelled(rt, &a[16384..], 0, 0, &mut [9u64; 4])
}

fn map_cases(rt: &impl Print, a: &[u8]) -> io::Result<()>
    requires { length a.now ≡ 49152 }
{
    show_map(rt, "three pages", a, &mut [255u8; 2])?;
    show_map(rt, "no map", a, &mut [255u8; 0])?;
    show_map(rt, "bad pages", &a[16384..], &mut [255u8; 2])?;
    show_map(rt, "half a page", &a[0..8192], &mut [255u8; 2])?;
    show_map(rt, "no pages", &a[0..0], &mut [255u8; 2])
}

fn main(rt: HostRuntime) -> io::Result<()> {
    header_cases(&rt)?;
    slot_cases(&rt)?;
    pair_cases(&rt)?;
    order_cases(&rt)?;
    from_cases(&rt, &bad_area())?;
    let a = area();
    row_cases(&rt, &a)?;
    list_cases(&rt, &a)?;
    state_cases(&rt, &states_page())?;
    cancelled_cases(&rt, &a)?;
    map_cases(&rt, &a)
}
