// The summary cases: the file of the paper written and read, every area that is too short, every refusal at its number, several faults in one file, spellings of 1 to 11 groups, and
// rows by number and by steps.
#![tactic(auto)]

ghost use Rattle.std.specs.Prelude.{◌≡◌, length};

use endian::{Lsn, PageNumber};
use std::io;
use summary::SummaryRow;

const MAGIC: u64 = 0x0123_4567_89AB_CDEF;

// ---- pages

// The page with n in the two bytes at a place.
fn with(mut p: [u8; 16384], at: usize, n: u16) -> [u8; 16384] {
    endian::put_u16(&mut p, at, n);
    p
}

// The page with its checksum anew.
fn summed(mut p: [u8; 16384]) -> [u8; 16384] {
    let c = crc32c::crc32c(&p[64..]);
    endian::put_u32(&mut p, 12, c);
    p
}

// A page of zeros with a type, an id, an item count, free start and free end.
fn headed(kind: u16, id: u16, count: u16, start: u16, end: u16) -> [u8; 16384] {
    let mut p = [0u8; 16384];
    endian::put_u64(&mut p, 0, MAGIC);
    let q = with(with(p, 8, kind), 10, count);
    with(with(with(q, 16, id), 32, start), 34, end)
}

// Pages 0 and 1, free, and page 2, with 40 bytes in slot 0.
fn pages() -> [u8; 49152] {
    let mut a = [0u8; 49152];
    page::inner::store(&mut a, 0, &summed(headed(4, 0, 0, 0, 16320)));
    page::inner::store(&mut a, 1, &summed(headed(4, 1, 0, 0, 16320)));
    let p = with(with(headed(1, 2, 1, 4, 16280), 64, 16280), 66, 40);
    page::inner::store(&mut a, 2, &summed(p));
    a
}

// ---- what is seen

// The bytes of an area, the first last, as two numbers of eight; a byte past its end counts as 0.
fn show_area(rt: &impl Print, s: &[u8]) -> io::Result<()> {
    println!(rt;
        " area {:016x}{:016x}",
        endian::u64_at(s, 8),
        endian::u64_at(s, 0)
    )
}

fn show_row(rt: &impl Print, row: SummaryRow) -> io::Result<()> {
    print!(rt;
        ", page {} slot {} length {}",
        row.page.0, row.slot, row.length
    )
}

// Writes the summary of pages into an area, and shows the answer and the area.
fn written(
    rt: &impl Print,
    name: &str,
    magic: u64,
    p: &[u8],
    lsn: u64,
    area: &mut [u8],
) -> io::Result<()> {
    let (number, place, length) = match summary::write(magic, p, Lsn(lsn), area) {
        Ok(length) => (0, 0, length),
        Err(e) => (e.refusal.number(), e.place, 0),
    };
    print!(rt;
        "{name} into {}: {number} at {place}, length {length},",
        area.len()
    )?;
    show_area(rt, area)
}

// Reads a file, and shows the answer.
fn judged(rt: &impl Print, name: &str, file: &[u8]) -> io::Result<()> {
    match summary::read(file) {
        Ok(s) => println!(rt;
            "{name}: 0 at 0, last LSN {}, count {}, first row at {}",
            s.lsn.0, s.count, s.first
        ),
        Err(e) => println!(rt;
            "{name}: {} at {}, last LSN 0, count 0, first row at 0",
            e.refusal.number(),
            e.place
        ),
    }
}

// A row that is none is shown as zeros.
const NO_ROW: SummaryRow = SummaryRow {
    page: PageNumber(0),
    slot: 0,
    length: 0,
};

fn row_of(rt: &impl Print, file: &[u8], n: u64) -> io::Result<()> {
    let (number, place, row) = match summary::row(file, n) {
        Ok(row) => (0, 0, row),
        Err(e) => (e.refusal.number(), e.place, None),
    };
    print!(rt; "row {n}: {number} at {place}")?;
    show_row(rt, row.unwrap_or(NO_ROW))?;
    println!(rt)
}

fn step_of(rt: &impl Print, file: &[u8], place: usize) -> io::Result<()> {
    let s = summary::step(file, place);
    print!(rt; "step from {place} to {}", s.after)?;
    show_row(rt, s.row)?;
    println!(rt)
}

// ---- the cases

const EXAMPLE: [u8; 7] = [1, 172, 2, 1, 2, 0, 40];

fn write_cases(rt: &impl Print, p: &[u8]) -> io::Result<()> {
    for length in 0..9 {
        let mut area = [238u8; 8];
        written(rt, "one row", MAGIC, p, 300, &mut area[..length])?;
    }
    written(rt, "one row", MAGIC, p, 300, &mut [238u8; 16])
}

fn other_writes(rt: &impl Print, p: &[u8]) -> io::Result<()> {
    written(rt, "another magic", 1, p, 300, &mut [238u8; 0])?;
    written(
        rt,
        "the greatest LSN",
        MAGIC,
        p,
        18446744073709551615,
        &mut [238u8; 16],
    )?;
    written(
        rt,
        "the greatest LSN",
        MAGIC,
        p,
        18446744073709551615,
        &mut [238u8; 14],
    )?;
    written(rt, "no pages", MAGIC, &[], 0, &mut [238u8; 3])?;
    written(rt, "no pages", MAGIC, &[], 0, &mut [238u8; 2])
}

fn row_cases(rt: &impl Print) -> io::Result<()> {
    let e = EXAMPLE;
    judged(rt, "the example", &e)?;
    row_of(rt, &e, 0)?;
    row_of(rt, &e, 1)?;
    row_of(rt, &e, 18446744073709551615)?;
    step_of(rt, &e, 4)?;
    step_of(rt, &e, 5)?;
    step_of(rt, &e, 7)?;
    step_of(rt, &e, 18446744073709551615)?;
    row_of(rt, &e[..6], 0)
}

// The example cut at every byte.
fn cut_cases(rt: &impl Print) -> io::Result<()> {
    let e = EXAMPLE;
    judged(rt, "cut at 0", &e[..0])?;
    judged(rt, "cut at 1", &e[..1])?;
    judged(rt, "cut at 2", &e[..2])?;
    judged(rt, "cut at 3", &e[..3])?;
    judged(rt, "cut at 4", &e[..4])?;
    judged(rt, "cut at 5", &e[..5])?;
    judged(rt, "cut at 6", &e[..6])
}

// A last LSN of 1 to 10 groups.
fn group_cases(rt: &impl Print) -> io::Result<()> {
    judged(rt, "1 group", &[1, 1, 0])?;
    judged(rt, "2 groups", &[1, 128, 1, 0])?;
    judged(rt, "3 groups", &[1, 128, 128, 1, 0])?;
    judged(rt, "4 groups", &[1, 128, 128, 128, 1, 0])?;
    judged(rt, "5 groups", &[1, 128, 128, 128, 128, 1, 0])?;
    judged(rt, "6 groups", &[1, 128, 128, 128, 128, 128, 1, 0])?;
    judged(rt, "7 groups", &[1, 128, 128, 128, 128, 128, 128, 1, 0])?;
    judged(
        rt,
        "8 groups",
        &[1, 128, 128, 128, 128, 128, 128, 128, 1, 0],
    )?;
    judged(
        rt,
        "9 groups",
        &[1, 128, 128, 128, 128, 128, 128, 128, 128, 1, 0],
    )?;
    judged(
        rt,
        "10 groups",
        &[1, 128, 128, 128, 128, 128, 128, 128, 128, 128, 1, 0],
    )
}

fn spelling_cases(rt: &impl Print) -> io::Result<()> {
    judged(
        rt,
        "2^64 - 1",
        &[1, 255, 255, 255, 255, 255, 255, 255, 255, 255, 1, 0],
    )?;
    judged(
        rt,
        "2^64",
        &[1, 128, 128, 128, 128, 128, 128, 128, 128, 128, 2, 0],
    )?;
    judged(
        rt,
        "11 groups",
        &[1, 128, 128, 128, 128, 128, 128, 128, 128, 128, 128, 1, 0],
    )?;
    judged(rt, "2 groups, the last 0", &[1, 133, 0, 0])?;
    judged(
        rt,
        "10 groups, the last 0",
        &[1, 128, 128, 128, 128, 128, 128, 128, 128, 128, 0, 0],
    )?;
    judged(
        rt,
        "11 groups, the last 0",
        &[1, 128, 128, 128, 128, 128, 128, 128, 128, 128, 128, 0, 0],
    )?;
    judged(rt, "edition with a zero group", &[129, 0, 5, 0])?;
    judged(rt, "count with a zero group", &[1, 5, 128, 0])
}

fn edition_cases(rt: &impl Print) -> io::Result<()> {
    judged(rt, "edition 0", &[0, 5, 0])?;
    judged(rt, "edition 1", &[1, 5, 0])?;
    judged(rt, "edition 2", &[2, 5, 0])?;
    judged(rt, "edition 129", &[129, 1, 5, 0])
}

fn range_cases(rt: &impl Print) -> io::Result<()> {
    judged(
        rt,
        "page 4095 slot 4079 length 24",
        &[1, 5, 1, 255, 31, 239, 31, 24],
    )?;
    judged(rt, "page 4096", &[1, 5, 1, 128, 32, 0, 24])?;
    judged(rt, "slot 4080", &[1, 5, 1, 0, 240, 31, 24])?;
    judged(rt, "length 23", &[1, 5, 1, 0, 0, 23])?;
    judged(rt, "length 16316", &[1, 5, 1, 0, 0, 188, 127])?;
    judged(rt, "length 16317", &[1, 5, 1, 0, 0, 189, 127])
}

fn order_cases(rt: &impl Print) -> io::Result<()> {
    judged(rt, "next slot", &[1, 5, 2, 7, 5, 24, 7, 6, 24])?;
    judged(rt, "next page", &[1, 5, 2, 7, 5, 24, 8, 0, 24])?;
    judged(rt, "the same slot", &[1, 5, 2, 7, 5, 24, 7, 5, 24])?;
    judged(rt, "a lower slot", &[1, 5, 2, 7, 5, 24, 7, 4, 24])?;
    judged(rt, "a lower page", &[1, 5, 2, 7, 5, 24, 6, 9, 24])?;
    judged(
        rt,
        "the third row",
        &[1, 5, 3, 7, 5, 24, 7, 6, 24, 7, 6, 24],
    )
}

fn end_cases(rt: &impl Print) -> io::Result<()> {
    judged(rt, "a byte left over", &[1, 5, 0, 0])?;
    judged(rt, "a byte behind a row", &[1, 5, 1, 2, 0, 40, 128])?;
    judged(rt, "a row more promised", &[1, 5, 2, 2, 0, 40])?;
    judged(
        rt,
        "2^64 - 1 rows promised",
        &[
            1, 5, 255, 255, 255, 255, 255, 255, 255, 255, 255, 1, 2, 0, 40,
        ],
    )
}

// Several faults in one file: the first number at fault, and of its faults the lowest.
fn several_faults(rt: &impl Print) -> io::Result<()> {
    judged(rt, "edition 2, spelled too long", &[130, 0, 128, 0])?;
    judged(rt, "edition 2, then a zero group", &[2, 128, 0])?;
    judged(
        rt,
        "page 4096, spelled too long",
        &[1, 5, 2, 7, 5, 24, 128, 160, 0],
    )?;
    judged(
        rt,
        "a lower page, spelled too long",
        &[1, 5, 2, 7, 5, 24, 134, 0, 0],
    )?;
    judged(
        rt,
        "slot 4080 on an earlier page",
        &[1, 5, 2, 7, 5, 24, 6, 240, 31, 23],
    )?;
    judged(
        rt,
        "slot 4080 on the same page",
        &[1, 5, 2, 7, 5, 24, 7, 240, 31, 23],
    )?;
    judged(
        rt,
        "length 23, then bytes left over",
        &[1, 5, 1, 0, 0, 23, 9],
    )?;
    judged(rt, "a length that does not end", &[1, 5, 1, 0, 0, 128])
}

// A thousand groups that go on, and the same and then a last one that is 0.
fn long_cases(rt: &impl Print) -> io::Result<()> {
    let mut f = [128u8; 1001];
    judged(rt, "1000 groups", &f[..1000])?;
    f[1000] = 0;
    judged(rt, "1000 groups and a zero", &f)
}

fn main(rt: HostRuntime) -> io::Result<()> {
    let p = pages();
    write_cases(&rt, &p)?;
    other_writes(&rt, &p)?;
    row_cases(&rt)?;
    cut_cases(&rt)?;
    group_cases(&rt)?;
    spelling_cases(&rt)?;
    edition_cases(&rt)?;
    range_cases(&rt)?;
    order_cases(&rt)?;
    end_cases(&rt)?;
    several_faults(&rt)?;
    long_cases(&rt)
}
