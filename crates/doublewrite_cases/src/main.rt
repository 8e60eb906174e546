// The cases of double-write files: each refusal at its boundary, copies that are taken and that are not, and lists and areas of the writer.
#![tactic(auto)]

ghost use Rattle.std.specs.Prelude.{◌≤◌};

use refusals::Refused;
use std::io;

const MAGIC: u64 = 0x0123_4567_89AB_CDEF;

// ---- two pages, and the file of both

// A page of type 0 with an id, and a byte of its body.
fn page(id: u64, byte: u16) -> [u8; 16384] {
    let mut p = [0u8; 16384];
    endian::put_u64(&mut p, 0, MAGIC);
    endian::put_u64(&mut p, 16, id);
    endian::put_u16(&mut p, 5000, byte);
    let c = crc32c::crc32c(&p[64..]);
    endian::put_u32(&mut p, 12, c);
    p
}

fn pages() -> [u8; 32768] {
    let mut a = [0u8; 32768];
    page::inner::store(&mut a, 0, &page(0, 7));
    page::inner::store(&mut a, 1, &page(1, 8));
    a
}

fn file() -> [u8; 32808] {
    let mut f = [0u8; 32808];
    let _ = doublewrite::write(&pages(), &[0, 1], &mut f);
    f
}

// The pages with n in the two bytes at a place.
fn torn(at: usize, n: u16) -> [u8; 32768] {
    let mut a = pages();
    endian::put_u16(&mut a, at, n);
    a
}

// The file with n in the four bytes at a place.
fn with(mut f: [u8; 32808], at: usize, n: u32) -> [u8; 32808] {
    endian::put_u32(&mut f, at, n);
    f
}

// The file with n in the four bytes at a place, and its checksum anew.
fn sealed(at: usize, n: u32) -> [u8; 32808] {
    let mut f = with(file(), at, n);
    let c = crc32c::crc32c(&f[0..32800]);
    endian::put_u32(&mut f, 32800, c);
    f
}

// ---- reading

// The name of a case, and the refusal's number and place; 0 at 0 for none.
fn verdict<T>(rt: &impl Print, name: &str, r: &Result<T, Refused>) -> io::Result<()> {
    match r {
        Ok(_) => print!(rt; "{name}: 0 at 0"),
        Err(e) => print!(rt; "{name}: {} at {}", e.refusal.number(), e.place),
    }
}

fn read(rt: &impl Print, name: &str, f: &[u8], lent: usize) -> io::Result<()> {
    let slots = doublewrite::read(f, lent);
    verdict(rt, name, &slots)?;
    println!(rt; ", slots {}", slots.unwrap_or(0))
}

fn header_cases(rt: &impl Print) -> io::Result<()> {
    read(rt, "as written", &file(), 2)?;
    read(rt, "one byte short", &file()[0..32807], 2)?;
    read(rt, "a slot short", &file()[0..16416], 2)?;
    read(rt, "23 bytes", &file()[0..23], 2)?;
    read(rt, "no bytes", &[], 2)?;
    read(rt, "another name", &sealed(4, 0x5257_4C43), 2)?;
    read(rt, "version 2", &sealed(8, 2), 2)?;
    read(rt, "version 0", &sealed(8, 0), 2)?;
    read(rt, "a slot more by its count", &sealed(12, 3), 2)?;
    read(rt, "a slot less by its count", &sealed(12, 1), 2)
}

fn one_byte_long(rt: &impl Print) -> io::Result<()> {
    let mut f = [0u8; 32809];
    let _ = doublewrite::write(&pages(), &[0, 1], &mut f);
    read(rt, "one byte long", &f, 2)
}

fn footer_cases(rt: &impl Print) -> io::Result<()> {
    read(rt, "checksum", &with(file(), 32800, 0), 2)?;
    read(rt, "byte of a copy", &with(file(), 5000, 1), 2)?;
    read(rt, "mark", &with(file(), 32804, 0xDEAD_BEEE), 2)?;
    read(
        rt,
        "mark, highest byte first",
        &with(file(), 32804, 0xEFBE_ADDE),
        2,
    )?;
    read(
        rt,
        "checksum and mark",
        &with(with(file(), 32800, 0), 32804, 0),
        2,
    )?;
    read(rt, "mark, page not lent", &with(sealed(16, 2), 32804, 0), 2)?;
    read(rt, "page named twice", &sealed(16, 1), 2)?;
    read(rt, "page past the last", &sealed(16, 2), 2)?;
    read(rt, "page past 32 bits", &sealed(20, 1), 2)?;
    read(rt, "pages 0 and 2 of 3", &sealed(16408, 2), 3)
}

fn count_cases(rt: &impl Print) -> io::Result<()> {
    read(rt, "for 1 page", &file(), 1)?;
    read(rt, "for no page", &file(), 0)?;
    read(rt, "for 4096 pages", &file(), 4096)?;
    read(rt, "for 4097 pages", &file(), 4097)?;
    read(rt, "no file for 4097 pages", &[], 4097)
}

fn id(rt: &impl Print, name: &str, f: &[u8], k: usize) -> io::Result<()> {
    let n = doublewrite::slot_id(f, k);
    println!(rt; "{name}: {}", n.0)
}

fn id_cases(rt: &impl Print) -> io::Result<()> {
    id(rt, "slot 1", &file(), 1)?;
    id(
        rt,
        "slot 1 of a file with another checksum",
        &with(file(), 32800, 0),
        1,
    )?;
    id(rt, "slot 2", &file(), 2)?;
    id(rt, "the last of all slots", &file(), 18446744073709551615)?;
    id(rt, "slot 1, one byte short", &file()[0..32807], 1)?;
    id(rt, "slot 1, another id", &sealed(16408, 9), 1)
}

// ---- repair

// The name of a case, the answer, and the verdict on the pages afterwards.
fn repair(rt: &impl Print, name: &str, mut a: [u8; 32768], f: &[u8]) -> io::Result<()> {
    let restored = doublewrite::repair(MAGIC, &mut a, f);
    verdict(rt, name, &restored)?;
    print!(rt; ", restored {}", restored.unwrap_or(0))?;
    verdict(rt, ", pages", &page::verify(MAGIC, &a))?;
    println!(rt)
}

fn page_cases(rt: &impl Print) -> io::Result<()> {
    repair(rt, "nothing torn", pages(), &file())?;
    repair(rt, "page 1 torn", torn(20000, 1), &file())?;
    repair(rt, "checksum of page 0", torn(12, 1), &file())?;
    repair(rt, "page 1 with another id", torn(16400, 9), &file())?;
    repair(rt, "page 0 of another magic", torn(0, 1), &file())?;
    repair(rt, "page 0 of type 7", torn(8, 7), &file())?;
    repair(rt, "file refused", torn(20000, 1), &with(file(), 32804, 0))
}

fn copy_cases(rt: &impl Print) -> io::Result<()> {
    repair(rt, "torn copy", torn(20000, 1), &sealed(20000, 1))?;
    repair(
        rt,
        "copy of another magic",
        torn(20000, 1),
        &sealed(16416, 1),
    )?;
    repair(rt, "copy of type 7", torn(20000, 1), &sealed(16424, 7))?;
    repair(
        rt,
        "copy of page 0 for page 1",
        torn(20000, 1),
        &sealed(16432, 0),
    )?;
    repair(rt, "start of a file", torn(20000, 1), &file()[0..24])
}

fn area_cases(rt: &impl Print) -> io::Result<()> {
    let mut a = torn(20000, 1);
    let restored = doublewrite::repair(MAGIC, &mut a[0..32767], &file());
    verdict(rt, "one byte of the pages short", &restored)?;
    println!(rt)
}

// ---- writing

fn write(
    rt: &impl Print,
    name: &str,
    pages: &[u8],
    list: &[u64],
    area: &mut [u8],
) -> io::Result<()> {
    let length = doublewrite::write(pages, list, area);
    verdict(rt, name, &length)?;
    println!(rt; ", length {}", length.unwrap_or(0))
}

fn list_cases(rt: &impl Print) -> io::Result<()> {
    let mut f = file();
    write(rt, "both", &pages(), &[0, 1], &mut f)?;
    write(rt, "the later one", &pages(), &[1], &mut f)?;
    write(rt, "none", &pages(), &[], &mut f)?;
    write(rt, "falling", &pages(), &[1, 0], &mut f)?;
    write(rt, "twice", &pages(), &[0, 0], &mut f)?;
    write(rt, "past the last", &pages(), &[0, 2], &mut f)?;
    write(rt, "past 32 bits", &pages(), &[4294967296], &mut f)?;
    write(
        rt,
        "a byte of a page short",
        &pages()[0..32767],
        &[0, 1],
        &mut f,
    )
}

// Writes into the first n bytes of an area.
fn write_into(rt: &impl Print, name: &str, list: &[u64], n: usize) -> io::Result<()>
    requires { n ≤ 32808 }
{
    let mut f = file();
    write(rt, name, &pages(), list, &mut f[0..n])
}

fn room_cases(rt: &impl Print) -> io::Result<()> {
    write_into(rt, "both into a byte less", &[0, 1], 32807)?;
    write_into(rt, "falling into a byte less", &[1, 0], 32807)?;
    write_into(rt, "none into 24 bytes", &[], 24)?;
    write_into(rt, "none into 23 bytes", &[], 23)
}

fn no_pages(rt: &impl Print) -> io::Result<()> {
    let mut f = [0u8; 24];
    write(rt, "none of no pages", &[], &[], &mut f)?;
    read(rt, "the area of these", &f, 0)
}

fn main(rt: HostRuntime) -> io::Result<()> {
    header_cases(&rt)?;
    one_byte_long(&rt)?;
    footer_cases(&rt)?;
    count_cases(&rt)?;
    id_cases(&rt)?;
    page_cases(&rt)?;
    copy_cases(&rt)?;
    area_cases(&rt)?;
    list_cases(&rt)?;
    room_cases(&rt)?;
    no_pages(&rt)
}
