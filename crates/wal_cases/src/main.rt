// Lengths, tails, unused room, checksums and places of a log, and a row image that holds a whole entry.
#![tactic(auto)]

ghost use Rattle.std.specs.Prelude.{◌≤◌};

use crate::trip::there_and_back;
use endian::{put_u16, put_u32, put_u64};
use std::{fmt, io};
use wal::reader::{backward_at, forward_at, kept_part, opened_at};
use wal::{EntryView, Kind, Reading, end_of, entry_at, header_fault};

mod trip;

// ---- logs

// The mark and version 1.
fn put_header(log: &mut [u8]) {
    put_u32(log, 0, 0x4E4C_4157);
    put_u16(log, 4, 1);
}

// The checksum and the last length of the entry of n bytes at place, in a log that has all of them.
fn seal(log: &mut [u8], place: u16, n: u16) {
    if n < 8 {
        return;
    }
    let from = place as usize;
    let end = from + (n - 8) as usize;
    if log.len() < end {
        return;
    }
    let sum = crc32c::crc32c(&log[from..end]);
    put_u32(log, end, sum);
    put_u32(log, end + 4, n as u32);
}

// An LSN, a transaction, a type and a table for the entry at place.
fn put_fields(log: &mut [u8], place: usize, kind: Kind)
    requires { place ≤ 65535 }
{
    put_u64(log, place + 4, 0x0102_0304_0506_0708);
    put_u64(log, place + 12, 0x1112_1314_1516_1718);
    put_u16(log, place + 20, kind.number() as u16);
    put_u32(log, place + 21, 0x2122_2324);
}

// The inner lengths of the entry at place.
fn put_inner(log: &mut [u8], place: usize, key: u8, old: u8, new: u8)
    requires { place ≤ 65535 }
{
    let behind = place + 27 + key as usize;
    put_u16(log, place + 25, key as u16);
    put_u32(log, behind, old as u32);
    put_u32(log, behind + 4 + old as usize, new as u32);
}

// A sealed entry of 43 bytes and a key, an old and a new value of so many; what these hold is as it was.
fn put_entry(log: &mut [u8], place: u16, kind: Kind, key: u8, old: u8, new: u8) {
    let n = 43 + key as u16 + old as u16 + new as u16;
    let at = place as usize;
    put_u32(log, at, n as u32);
    put_fields(log, at, kind);
    put_inner(log, at, key, old, new);
    seal(log, place, n);
}

// ---- what is found

// What is read forward, as it is printed.
#[derive(Clone, Copy)]
struct Ahead(Reading);

// What is read backward, as it is printed.
#[derive(Clone, Copy)]
struct Behind(Option<EntryView>);

// An entry, as it is printed.
#[derive(Clone, Copy)]
struct Entry(EntryView);

impl fmt::Display for Ahead {
    fn fmt<W: fmt::Write>(&self, f: &mut fmt::Formatter<W>) -> fmt::Result {
        match self.0 {
            Reading::Whole(v) => write!(f, "{}", Entry(v)),
            Reading::End => f.write_str("exact end"),
            Reading::Torn => f.write_str("torn tail"),
            Reading::Unused => f.write_str("unused"),
            Reading::Damage => f.write_str("damage"),
        }
    }
}

impl fmt::Display for Behind {
    fn fmt<W: fmt::Write>(&self, f: &mut fmt::Formatter<W>) -> fmt::Result {
        match self.0 {
            Some(v) => write!(f, "{}", Entry(v)),
            None => f.write_str("none"),
        }
    }
}

impl fmt::Display for Entry {
    fn fmt<W: fmt::Write>(&self, f: &mut fmt::Formatter<W>) -> fmt::Result {
        let v = self.0;
        write!(
            f,
            "entry at {} of {} lsn {} transaction {}",
            v.place, v.length, v.lsn.0, v.txn.0
        )?;
        write!(
            f,
            " type {} table {} key {} old {} new {}",
            v.kind, v.table, v.key_len, v.old_len, v.new_len
        )
    }
}

// A step forward, and the place after it.
fn forward(rt: &impl Print, log: &[u8], from: usize) -> io::Result<usize> {
    let mut at = from;
    let found = forward_at(log, &mut at);
    println!(rt; "  forward from {from}: {}", Ahead(found))?;
    Ok(at)
}

// A step backward, and the place after it.
fn backward(rt: &impl Print, log: &[u8], from: usize) -> io::Result<usize> {
    let mut at = from;
    let found = backward_at(log, &mut at);
    println!(rt; "  backward from {from}: {}", Behind(found))?;
    Ok(at)
}

// The number of the header's refusal, 0 for none.
fn number(log: &[u8]) -> u64 {
    match header_fault(log) {
        Ok(()) => 0,
        Err(e) => e.number(),
    }
}

// The refusal of the header, the end of the walk and what stands there.
fn show(rt: &impl Print, name: &str, log: &[u8]) -> io::Result<()> {
    let end = end_of(log);
    println!(rt;
        "{name}: number {}, end {end}, {}",
        number(log),
        Ahead(entry_at(log, end))
    )
}

// The same of its first n bytes.
fn show_first(rt: &impl Print, name: &str, log: &[u8], n: usize) -> io::Result<()> {
    if n <= log.len() {
        show(rt, name, &log[0..n])?;
    }
    Ok(())
}

// What a reader of the log holds, and where it is opened.
fn opened(rt: &impl Print, log: &[u8]) -> io::Result<()> {
    println!(rt;
        "  a reader holds {} bytes, at {} or at {}",
        kept_part(log).len(),
        opened_at(log, false),
        opened_at(log, true)
    )
}

// A reader opened behind the header or at the end, and what it finds by two steps forward and one back.
fn travel(rt: &impl Print, name: &str, log: &[u8], end: bool) -> io::Result<()> {
    let t = there_and_back(log, end);
    println!(rt; "{name}: number {}", t.number)?;
    println!(rt; "  forward: {}", Ahead(t.first))?;
    println!(rt; "  forward: {}", Ahead(t.second))?;
    println!(rt; "  backward: {}", Behind(t.third))?;
    println!(rt; "  at {}", t.place)
}

// ---- cases

fn headers(rt: &impl Print) -> io::Result<()> {
    let mut log = [0u8; 32];
    show(rt, "no mark", &log)?;
    opened(rt, &log)?;
    put_header(&mut log);
    show(rt, "header only", &log)?;
    opened(rt, &log)?;
    show_first(rt, "31 bytes", &log, 31)?;
    put_u16(&mut log, 4, 2);
    show(rt, "version 2", &log)
}

fn places(rt: &impl Print) -> io::Result<()> {
    let mut log = [0u8; 75];
    put_header(&mut log);
    put_entry(&mut log, 32, Kind::Begin, 0, 0, 0);
    show(rt, "a Begin", &log)?;
    opened(rt, &log)?;
    forward(rt, &log, 0)?;
    forward(rt, &log, 31)?;
    let at = forward(rt, &log, 32)?;
    forward(rt, &log, at)?;
    forward(rt, &log, 76)?;
    forward(rt, &log, 0xFFFF_FFFF_FFFF_FFFF)?;
    Ok(())
}

fn places_back(rt: &impl Print) -> io::Result<()> {
    let mut log = [0u8; 75];
    put_header(&mut log);
    put_entry(&mut log, 32, Kind::Begin, 0, 0, 0);
    let at = backward(rt, &log, 75)?;
    backward(rt, &log, at)?;
    backward(rt, &log, 0)?;
    backward(rt, &log, 36)?;
    backward(rt, &log, 74)?;
    backward(rt, &log, 76)?;
    backward(rt, &log, 0xFFFF_FFFF_FFFF_FFFF)?;
    Ok(())
}

fn tails(rt: &impl Print) -> io::Result<()> {
    let mut log = [0u8; 75];
    put_header(&mut log);
    put_entry(&mut log, 32, Kind::Begin, 0, 0, 0);
    show_first(rt, "header and 42 bytes of a Begin", &log, 74)?;
    show_first(rt, "4 bytes left", &log, 36)?;
    show_first(rt, "3 bytes left", &log, 35)?;
    show_first(rt, "2 bytes left", &log, 34)?;
    show_first(rt, "1 byte left", &log, 33)
}

fn lengths(rt: &impl Print) -> io::Result<()> {
    let mut log = [0u8; 75];
    put_header(&mut log);
    put_u32(&mut log, 32, 42);
    show(rt, "length 42", &log)?;
    put_u32(&mut log, 32, 43);
    show(rt, "length 43 of zeros", &log)?;
    put_u32(&mut log, 32, 44);
    show(rt, "length 44, one past the end", &log)?;
    put_u32(&mut log, 32, 32705);
    show(rt, "length 32705, past the end", &log)?;
    put_u32(&mut log, 32, 32706);
    show(rt, "length 32706, past the end", &log)
}

// A Begin, and zero bytes behind it.
fn room(rt: &impl Print) -> io::Result<()> {
    let mut log = [0u8; 80];
    put_header(&mut log);
    put_entry(&mut log, 32, Kind::Begin, 0, 0, 0);
    show_first(rt, "a Begin and 1 zero byte", &log, 76)?;
    show_first(rt, "a Begin and 3 zero bytes", &log, 78)?;
    show_first(rt, "a Begin and 4 zero bytes", &log, 79)?;
    show(rt, "a Begin and 5 zero bytes", &log)
}

// The end found by walking is at the zero bytes, and a step backward from it finds the Begin.
fn room_steps(rt: &impl Print) -> io::Result<()> {
    let mut log = [0u8; 100];
    put_header(&mut log);
    put_entry(&mut log, 32, Kind::Begin, 0, 0, 0);
    show(rt, "a Begin and 25 zero bytes", &log)?;
    opened(rt, &log)?;
    let at = forward(rt, &log, 75)?;
    backward(rt, &log, at)?;
    forward(rt, &log, 96)?;
    forward(rt, &log, 97)?;
    Ok(())
}

fn spoiled_room(rt: &impl Print) -> io::Result<()> {
    let mut log = [0u8; 100];
    put_header(&mut log);
    put_entry(&mut log, 32, Kind::Begin, 0, 0, 0);
    log[99] = 1;
    show(rt, "the last of them 1", &log)
}

// Cuts with zero bytes behind them.
fn cut_room(rt: &impl Print) -> io::Result<()> {
    let mut log = [0u8; 100];
    put_header(&mut log);
    log[32] = 43;
    show_first(
        rt,
        "a length of 43 cut after its first byte, 3 zero bytes",
        &log,
        36,
    )?;
    show(
        rt,
        "a length of 43 cut after its first byte, 67 zero bytes",
        &log,
    )?;
    log[32] = 0;
    show(
        rt,
        "a length of 256 cut after its first byte, 67 zero bytes",
        &log,
    )?;
    put_entry(&mut log, 32, Kind::Begin, 0, 0, 0);
    put_u16(&mut log, 72, 0);
    log[74] = 0;
    show(
        rt,
        "a Begin without its last three bytes, 28 zero bytes",
        &log,
    )?;
    log[71] = 0;
    show(
        rt,
        "a Begin without its last four bytes, 29 zero bytes",
        &log,
    )
}

// The log and its longest entry.
fn longest(rt: &impl Print) -> io::Result<()> {
    let mut log = [7u8; 32737];
    put_header(&mut log);
    put_u32(&mut log, 32, 32705);
    put_fields(&mut log, 32, Kind::Delete);
    put_inner(&mut log, 32, 0, 0, 0);
    put_u32(&mut log, 63, 32662);
    seal(&mut log, 32, 32705);
    show(rt, "an entry of 32705 bytes", &log)?;
    forward(rt, &log, 32)?;
    backward(rt, &log, 32737)?;
    show_first(rt, "its last byte cut off", &log, 32736)
}

// One byte more, and sealed.
fn longer(rt: &impl Print) -> io::Result<()> {
    let mut log = [7u8; 32738];
    put_header(&mut log);
    put_u32(&mut log, 32, 32706);
    put_fields(&mut log, 32, Kind::Delete);
    put_inner(&mut log, 32, 0, 0, 0);
    put_u32(&mut log, 63, 32663);
    seal(&mut log, 32, 32706);
    show(rt, "an entry of 32706 bytes", &log)?;
    backward(rt, &log, 32738)?;
    Ok(())
}

fn damages(rt: &impl Print) -> io::Result<()> {
    let mut log = [0u8; 80];
    put_header(&mut log);
    put_entry(&mut log, 32, Kind::Commit, 3, 2, 0);
    show(rt, "an entry of 48 bytes", &log)?;
    log[40] = 0xFF;
    show(rt, "a byte of its LSN changed", &log)?;
    put_entry(&mut log, 32, Kind::Commit, 3, 2, 0);
    put_u32(&mut log, 72, 0);
    show(rt, "another checksum", &log)?;
    put_entry(&mut log, 32, Kind::Commit, 3, 2, 0);
    put_u32(&mut log, 76, 47);
    show(rt, "another last length", &log)
}

fn inner_damages(rt: &impl Print) -> io::Result<()> {
    let mut log = [0u8; 80];
    put_header(&mut log);
    put_entry(&mut log, 32, Kind::Commit, 3, 2, 0);
    put_u16(&mut log, 57, 4);
    seal(&mut log, 32, 48);
    show(rt, "a key length of one more, sealed", &log)?;
    put_entry(&mut log, 32, Kind::Commit, 3, 2, 0);
    put_u32(&mut log, 62, 0xFFFF_FFFF);
    seal(&mut log, 32, 48);
    show(rt, "an old length past the entry, sealed", &log)?;
    put_entry(&mut log, 32, Kind::Commit, 3, 2, 0);
    put_u32(&mut log, 68, 1);
    seal(&mut log, 32, 48);
    show(rt, "a new length of one more, sealed", &log)
}

fn two_entries(rt: &impl Print) -> io::Result<()> {
    let mut log = [0u8; 140];
    put_header(&mut log);
    put_entry(&mut log, 32, Kind::Begin, 0, 0, 0);
    put_entry(&mut log, 75, Kind::Update, 10, 2, 7);
    show(rt, "two entries and 3 bytes", &log)?;
    opened(rt, &log)?;
    let a = forward(rt, &log, 32)?;
    let b = forward(rt, &log, a)?;
    let c = forward(rt, &log, b)?;
    let d = backward(rt, &log, c)?;
    let e = backward(rt, &log, d)?;
    backward(rt, &log, e)?;
    Ok(())
}

// The new value of the entry at 32 holds a whole entry, of the bytes 85 to 128.
fn image(rt: &impl Print) -> io::Result<()> {
    let mut log = [0u8; 145];
    put_header(&mut log);
    put_entry(&mut log, 85, Kind::Begin, 0, 0, 0);
    put_entry(&mut log, 32, Kind::Insert, 10, 0, 60);
    show(rt, "a row image that holds a whole entry", &log)?;
    let a = forward(rt, &log, 32)?;
    let b = backward(rt, &log, a)?;
    backward(rt, &log, b)?;
    let c = backward(rt, &log, 128)?;
    backward(rt, &log, c)?;
    Ok(())
}

// Two entries and three bytes of a third: refused without its header, torn, and without those bytes.
fn readers(rt: &impl Print) -> io::Result<()> {
    let mut log = [0u8; 140];
    put_entry(&mut log, 32, Kind::Begin, 0, 0, 0);
    put_entry(&mut log, 75, Kind::Update, 10, 2, 7);
    travel(rt, "a reader of a log that is refused", &log, false)?;
    travel(rt, "the same, from its end", &log, true)?;
    put_header(&mut log);
    travel(rt, "a reader of a torn log", &log, false)?;
    travel(rt, "the same, from its end", &log, true)?;
    travel(
        rt,
        "a reader of a log with an exact end",
        &log[0..137],
        false,
    )?;
    travel(rt, "the same, from its end", &log[0..137], true)
}

fn main(rt: HostRuntime) -> io::Result<()> {
    headers(&rt)?;
    places(&rt)?;
    places_back(&rt)?;
    tails(&rt)?;
    lengths(&rt)?;
    room(&rt)?;
    room_steps(&rt)?;
    spoiled_room(&rt)?;
    cut_room(&rt)?;
    longest(&rt)?;
    longer(&rt)?;
    damages(&rt)?;
    inner_damages(&rt)?;
    two_entries(&rt)?;
    image(&rt)?;
    readers(&rt)
}
