// The catalog cases: payloads cut short at each field, the bytes after the names, layout bytes and lengths of names at their bounds, by both readers; rows written and read
// back; and the search past unreadable, cancelled and other rows.
#![tactic(auto)]

ghost use Rattle.std.specs.Prelude.{◌≡◌, ◌≤◌, ◌<◌, length};

use catalog::{Layout, Part, TableRow};
use endian::PageNumber;
use refusals::Refused;
use std::io;

const MAGIC: u64 = 0x0123_4567_89AB_CDEF;

// ---- payloads

// A table with root page 9, "app" and "orders", in the newest form of 32 bytes with a layout byte; then two bytes more.
fn payload(table: u32, layout: u16) -> [u8; 34]
    requires { layout < 256 }
{
    let mut b = [7u8; 34];
    let _ = catalog::write(table, PageNumber(9), b"app", b"orders", 0, 258, &mut b);
    endian::put_u16(&mut b, 23, layout + 512);
    b
}

// The refusal's number and place; 0 at 0 for none.
fn verdict<T>(rt: &impl Print, r: &Result<T, Refused>) -> io::Result<()> {
    match r {
        Ok(_) => print!(rt; " 0 at 0"),
        Err(e) => print!(rt; " {} at {}", e.refusal.number(), e.place),
    }
}

// What is shown where a row is refused.
const NO_ROW: TableRow = TableRow {
    table: 0,
    root: PageNumber(0),
    schema: Part { at: 0, length: 0 },
    name: Part { at: 0, length: 0 },
    layout: Layout::Heap,
    version: 0,
};

// What a reader says.
fn show(rt: &impl Print, r: Result<TableRow, Refused>) -> io::Result<()> {
    verdict(rt, &r)?;
    let row = r.unwrap_or(NO_ROW);
    let schema = row.schema;
    let name = row.name;
    println!(rt;
        " table {} root {} schema {} {} name {} {} layout {} version {}",
        row.table,
        row.root.0,
        schema.at,
        schema.length,
        name.at,
        name.length,
        row.layout.number(),
        row.version
    )
}

// What both readers say of a payload.
fn readers(rt: &impl Print, s: &[u8]) -> io::Result<()> {
    print!(rt; "{} bytes, newest:", s.len())?;
    show(rt, catalog::read(s))?;
    print!(rt; "    older:")?;
    show(rt, catalog::read_older(s))
}

// The first n bytes of a payload.
fn cut(rt: &impl Print, s: &[u8], n: usize) -> io::Result<()> {
    if n <= s.len() {
        readers(rt, &s[0..n])?;
    }
    Ok(())
}

// Without the last byte of each field, and with it.
fn fields_cut(rt: &impl Print, b: &[u8]) -> io::Result<()> {
    cut(rt, b, 0)?;
    cut(rt, b, 3)?;
    cut(rt, b, 4)?;
    cut(rt, b, 11)?;
    cut(rt, b, 12)?;
    cut(rt, b, 13)?;
    cut(rt, b, 15)?;
    cut(rt, b, 16)?;
    cut(rt, b, 17)?;
    cut(rt, b, 22)
}

// 0, 1, 2, 8, 9 and 10 bytes after the names.
fn after_the_names(rt: &impl Print, b: &[u8]) -> io::Result<()> {
    cut(rt, b, 23)?;
    cut(rt, b, 24)?;
    cut(rt, b, 25)?;
    cut(rt, b, 31)?;
    cut(rt, b, 32)?;
    cut(rt, b, 33)
}

// A layout byte in the second and in the newest form.
fn layout_of(rt: &impl Print, layout: u16) -> io::Result<()>
    requires { layout < 256 }
{
    println!(rt; "layout {layout}")?;
    let b = payload(14, layout);
    cut(rt, &b, 24)?;
    cut(rt, &b, 32)
}

fn read_cases(rt: &impl Print) -> io::Result<()> {
    fields_cut(rt, &payload(14, 1))?;
    after_the_names(rt, &payload(14, 1))?;
    layout_of(rt, 0)?;
    layout_of(rt, 1)?;
    layout_of(rt, 2)?;
    layout_of(rt, 255)
}

// ---- written

// What writing answers, the two bytes behind what it wrote, and what is read back.
fn written(
    rt: &impl Print,
    schema: &[u8],
    name: &[u8],
    layout: u8,
    area: &mut [u8],
) -> io::Result<()> {
    let most = 18446744073709551615;
    let written = catalog::write(14, PageNumber(most), schema, name, layout, most, area);
    print!(rt;
        "names of {} and {}, layout {layout}, area {}",
        schema.len(),
        name.len(),
        area.len()
    )?;
    print!(rt; ":")?;
    verdict(rt, &written)?;
    let length = written.unwrap_or(0);
    println!(rt;
        ", length {length}, behind it {:04x}",
        endian::u16_at(area, length)
    )?;
    cut(rt, area, length)
}

// The shortest row; 36; and 37 for an area one byte too short.
fn no_names(rt: &impl Print) -> io::Result<()> {
    written(rt, b"", b"", 0, &mut [7u8; 23])?;
    written(rt, b"", b"", 0, &mut [7u8; 22])?;
    written(rt, b"", b"", 1, &mut [7u8; 25])?;
    written(rt, b"", b"", 2, &mut [7u8; 25])?;
    written(rt, b"", b"", 255, &mut [7u8; 25])
}

// Names of 255 bytes, and 37 for 256, after 36.
fn long_names(rt: &impl Print) -> io::Result<()> {
    written(rt, &[65u8; 255], b"", 1, &mut [7u8; 278])?;
    written(rt, b"", &[65u8; 255], 1, &mut [7u8; 278])?;
    written(rt, &[65u8; 255], &[65u8; 255], 0, &mut [7u8; 533])?;
    written(rt, &[65u8; 255], &[65u8; 255], 0, &mut [7u8; 532])?;
    written(rt, &[65u8; 256], b"", 0, &mut [7u8; 600])?;
    written(rt, b"", &[65u8; 256], 0, &mut [7u8; 600])?;
    written(rt, &[65u8; 256], &[65u8; 256], 2, &mut [7u8; 600])
}

// ---- the search

// The page with n in the two bytes at a place.
fn with(mut p: [u8; 16384], at: usize, n: u16) -> [u8; 16384] {
    endian::put_u16(&mut p, at, n);
    p
}

// A page of a type with an id, of so many slots, whose tuples start at 15,000 of the body.
fn headed(kind: u16, id: u16, count: u16) -> [u8; 16384]
    requires { count ≤ 100 }
{
    let mut p = [0u8; 16384];
    endian::put_u64(&mut p, 0, MAGIC);
    let q = with(with(p, 8, kind), 10, count);
    with(with(with(q, 16, id), 32, 4 * count), 34, 15000)
}

// The page with its checksum anew.
fn summed(mut p: [u8; 16384]) -> [u8; 16384] {
    let c = crc32c::crc32c(&p[64..]);
    endian::put_u32(&mut p, 12, c);
    p
}

// The page with the 32 bytes of a payload at a place.
fn with_payload(mut p: [u8; 16384], at: usize, b: &[u8]) -> [u8; 16384]
    requires { at ≤ 16000 }
{
    endian::put_u64(&mut p, at, endian::u64_at(b, 0));
    endian::put_u64(&mut p, at + 8, endian::u64_at(b, 8));
    endian::put_u64(&mut p, at + 16, endian::u64_at(b, 16));
    endian::put_u64(&mut p, at + 24, endian::u64_at(b, 24));
    p
}

// The page with a table's row in slot k, 100 bytes behind that of the slot before it: its deleted byte, its layout byte, and the first n bytes of its payload.
fn with_row(p: [u8; 16384], k: usize, table: u32, deleted: u16, layout: u16, n: u16) -> [u8; 16384]
    requires { (k < 10) × (layout < 256) × (n ≤ 32) }
{
    let o = 15000 + 100 * k;
    let q = with(with(p, 64 + 4 * k, o as u16), 66 + 4 * k, 24 + n);
    with_payload(
        with(q, 64 + o + 16, deleted),
        64 + o + 24,
        &payload(table, layout),
    )
}

// Table 13; 14 cut short, cancelled by its deleted byte and by its xmax, of no known layout, and with two bytes after the names; a row with no payload.
fn passed_over() -> [u8; 16384] {
    let p = with_row(headed(1, 1, 7), 0, 13, 0, 0, 32);
    let q = with_row(with_row(p, 1, 14, 0, 0, 22), 2, 14, 1, 0, 32);
    let x = with(with_row(q, 3, 14, 0, 0, 32), 15372, 1);
    let r = with_row(with_row(x, 4, 14, 0, 2, 32), 5, 14, 0, 0, 25);
    summed(with_row(r, 6, 0, 0, 0, 0))
}

// An empty slot; table 14 in the first form; the same in the newest; table 15.
fn named() -> [u8; 16384] {
    let p = with_row(headed(1, 2, 4), 1, 14, 0, 0, 23);
    summed(with_row(with_row(p, 2, 14, 0, 1, 32), 3, 15, 0, 1, 24))
}

// A free page with the bytes of a row for table 16; rows that are passed over; rows with names.
fn area() -> [u8; 49152] {
    let mut a = [0u8; 49152];
    page::inner::store(
        &mut a,
        0,
        &summed(with_row(headed(4, 0, 1), 0, 16, 0, 0, 32)),
    );
    page::inner::store(&mut a, 1, &passed_over());
    page::inner::store(&mut a, 2, &named());
    a
}

fn find(rt: &impl Print, pages: &[u8], table: u32) -> io::Result<()> {
    print!(rt; "table {table}")?;
    match catalog::find_table(MAGIC, pages, table) {
        Err(e) => println!(rt; ": refused by {} at {}", e.refusal.number(), e.place),
        Ok(Some(w)) => println!(rt;
            ": page {}, slot {}, length {}, at {}",
            w.page.0, w.slot, w.length, w.offset
        ),
        Ok(None) => println!(rt; ": none"),
    }
}

fn find_cases(rt: &impl Print, a: &[u8]) -> io::Result<()> {
    find(rt, a, 13)?;
    find(rt, a, 14)?;
    find(rt, a, 15)?;
    find(rt, a, 16)?;
    find(rt, a, 0)?;
    find(rt, a, 4294967295)?;
    find(rt, b"", 14)
}

// The area with one byte changed.
fn find_in(rt: &impl Print, at: usize, b: u8) -> io::Result<()>
    requires { at < 49152 }
{
    let mut a = area();
    a[at] = b;
    find(rt, &a, 14)
}

// It refuses as the listing does, also where a row stands before the page at fault: 1, 11, 17, 18, 19.
fn find_refused(rt: &impl Print, a: &[u8]) -> io::Result<()>
    requires { length a.now ≡ 49152 }
{
    find(rt, &a[0..49151], 14)?;
    find_in(rt, 32768, 0)?;
    find_in(rt, 32784, 3)?;
    find_in(rt, 49151, 1)?;
    find_in(rt, 32802, 255)
}

fn main(rt: HostRuntime) -> io::Result<()> {
    read_cases(&rt)?;
    no_names(&rt)?;
    long_names(&rt)?;
    let a = area();
    find_cases(&rt, &a)?;
    find_refused(&rt, &a)
}
