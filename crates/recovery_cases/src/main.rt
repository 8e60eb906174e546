// Recovery end to end: the cases of the written rules, the traps, and rows that are read before recovery.
#![tactic(auto)]

ghost use Rattle.std.specs.Prelude.{◌≤◌};

use crate::build::{
    BEGIN, CHECKPOINT, COMMIT, Key, MAGIC, ROLLBACK, Row, bare, delete, empty, holding, insert,
    put_header, put_page, put_slot, update, used,
};
use endian::{
    Lsn, PageNumber as Page, TxnNumber as Txn, put_u16, put_u32, put_u64, u16_at, u64_at,
};
use rules::{Answer, RowHead};
use std::io;

mod build;

// ---- what is seen

fn show_answer(rt: &impl Print, a: Answer) -> io::Result<()> {
    print!(rt;
        ": {} at {}, last {}, tail {} ending {}, transactions {} {} {}, changes {} {} {} {}, pages {}",
        a.number,
        a.place,
        a.last_lsn.0,
        a.tail,
        a.ending,
        a.committed,
        a.rolled_back,
        a.unended,
        a.changes_committed,
        a.changes_rolled_back,
        a.changes_unended,
        a.changes_zero,
        a.rewritten
    )
}

fn show_record(rt: &impl Print, t: &[u64; 18], a: usize) -> io::Result<()>
    requires { a ≤ 12 }
{
    print!(rt;
        " {} {} {} {} {} {}",
        t[a],
        t[a + 1],
        t[a + 2],
        t[a + 3],
        t[a + 4],
        t[a + 5]
    )
}

fn show_slot(rt: &impl Print, p: &[u8], k: u8) -> io::Result<()> {
    if u16_at(p, 10) <= k as u16 {
        return Ok(());
    }
    let s = 64 + 4 * k as usize;
    let t = 64 + u16_at(p, s) as usize;
    print!(rt; ", slot {k} ({}, {})", u16_at(p, s), u16_at(p, s + 2))?;
    if t != 64 {
        print!(rt;
            " xmin {} xmax {} deleted {}",
            u64_at(p, t),
            u64_at(p, t + 8),
            u16_at(p, t + 16) % 256
        )?;
    }
    Ok(())
}

// A page is kept, or has numbers, slots and a checksum of all its bytes.
fn show_page(rt: &impl Print, name: &str, before: &[u8], p: &[u8]) -> io::Result<()> {
    print!(rt; "{name}")?;
    if before == p {
        return print!(rt; " kept");
    }
    print!(rt;
        " count {}, free {} to {}, lsn {}",
        u16_at(p, 10),
        u16_at(p, 32),
        u16_at(p, 34),
        u64_at(p, 24)
    )?;
    show_slot(rt, p, 0)?;
    show_slot(rt, p, 1)?;
    print!(rt; ", sum {:08x}", crc32c::crc32c(p))
}

// Recovery of two pages with three records, which hold 99s; and once more, of what it left.
fn case(
    rt: &impl Print,
    name: &str,
    before: [u8; 32768],
    floor: u64,
    log: &[u8],
) -> io::Result<()> {
    let mut p = before;
    let mut t = [99u64; 18];
    let a = recovery::recover_flat(MAGIC, Lsn(floor), &mut p, used(log), &mut t);
    print!(rt; "{name}")?;
    show_answer(rt, a)?;
    show_page(rt, "; page 0", &before[0..16384], &p[0..16384])?;
    show_page(rt, "; page 1", &before[16384..], &p[16384..])?;
    print!(rt; "; table")?;
    show_record(rt, &t, 0)?;
    show_record(rt, &t, 6)?;
    show_record(rt, &t, 12)?;
    let mut q = p;
    let b = recovery::recover_flat(MAGIC, Lsn(floor), &mut q, used(log), &mut t);
    print!(rt; "; again {}", b.number)?;
    show_page(rt, ", pages", &p, &q)?;
    println!(rt)
}

// Recovery of no pages from the first n bytes of a log.
fn first(rt: &impl Print, name: &str, log: &[u8], n: usize) -> io::Result<()> {
    if log.len() < n {
        return Ok(());
    }
    let mut p = [0u8; 0];
    let mut t = [99u64; 18];
    let a = recovery::recover_flat(MAGIC, Lsn(0), &mut p, &log[0..n], &mut t);
    print!(rt; "{name}")?;
    show_answer(rt, a)?;
    println!(rt)
}

fn show_head(rt: &impl Print, h: RowHead) -> io::Result<()> {
    print!(rt;
        ": {} at {}, filled {}, xmin {}, xmax {}, deleted {}, pad {:014x}",
        h.number, h.place, h.filled as u8, h.xmin.0, h.xmax.0, h.deleted, h.pad
    )
}

// A row before recovery: header and payload, and both again with the place.
fn read<'a>(
    rt: &impl Print,
    name: &str,
    p: &'a [u8],
    log: &'a [u8],
    page: Page,
    slot: u16,
) -> io::Result<()> {
    print!(rt; "{name}")?;
    show_head(rt, recovery::read_row(MAGIC, Lsn(0), p, log, page, slot))?;
    let b = recovery::row_payload(MAGIC, Lsn(0), p, log, page, slot);
    print!(rt;
        ", payload of {} from {:016x}, sum {:08x}",
        b.len(),
        u64_at(b, 0),
        crc32c::crc32c(b)
    )?;
    let w = recovery::locate_row(MAGIC, Lsn(0), p, log, page, slot);
    print!(rt; "; located")?;
    show_head(rt, w.head)?;
    println!(rt; ", source {} at {} of {}", w.source, w.offset, w.length)
}

// Recovery, and slot 0 of page 0 before it.
fn both(rt: &impl Print, name: &str, p: [u8; 32768], log: &[u8]) -> io::Result<()> {
    case(rt, name, p, 0, log)?;
    read(rt, name, &p, used(log), Page(0), 0)
}

// ---- the cases

// A Begin with zero bytes behind it.
fn roomy(rt: &impl Print, mut log: [u8; 100]) -> io::Result<()> {
    first(rt, "and 3 zero bytes", &log, 78)?;
    first(rt, "and 4 zero bytes", &log, 79)?;
    first(rt, "and 25 zero bytes", &log, 100)?;
    log[99] = 1;
    first(rt, "and 25 bytes, the last one 1", &log, 100)
}

fn ends(rt: &impl Print) -> io::Result<()> {
    let mut log = [0u8; 100];
    put_header(&mut log);
    first(rt, "header only", &log, 32)?;
    first(rt, "31 bytes", &log, 31)?;
    bare(&mut log, Lsn(1), Txn(7), BEGIN);
    first(rt, "42 bytes of a Begin", &log, 74)?;
    first(rt, "a Begin", &log, 75)?;
    roomy(rt, log)?;
    put_u32(&mut log, 32, 42);
    first(rt, "length 42", &log, 70)?;
    read(rt, "length 42", &empty(), used(&log), Page(0), 0)?;
    put_u32(&mut log, 32, 32705);
    first(rt, "length 32705", &log, 75)?;
    put_u32(&mut log, 32, 32706);
    first(rt, "length 32706", &log, 75)
}

fn inserted(rt: &impl Print) -> io::Result<()> {
    let mut log = [0u8; 300];
    let r = Row(Txn(7), 30);
    put_header(&mut log);
    bare(&mut log, Lsn(1), Txn(7), BEGIN);
    insert(&mut log, Lsn(2), Txn(7), Key(Page(0), 0), r);
    case(rt, "begin 7, insert, no commit", empty(), 0, &log)?;
    case(
        rt,
        "no commit, row on the page",
        holding(r, Lsn(2)),
        0,
        &log,
    )?;
    bare(&mut log, Lsn(3), Txn(7), COMMIT);
    case(rt, "with commit", empty(), 0, &log)?;
    let mut p = holding(r, Lsn(2));
    put_slot(&mut p, 0, 1, 15900, Row(Txn(3), 40));
    case(rt, "with commit, its slot is taken", p, 0, &log)?;
    insert(&mut log, Lsn(4), Txn(0), Key(Page(0), 1), Row(Txn(0), 40));
    case(rt, "30 and 40 bytes", empty(), 0, &log)
}

fn updated(rt: &impl Print) -> io::Result<()> {
    let mut log = [0u8; 500];
    let a = Row(Txn(3), 30);
    let b = Row(Txn(7), 34);
    let c = Row(Txn(8), 50);
    put_header(&mut log);
    bare(&mut log, Lsn(1), Txn(7), BEGIN);
    update(&mut log, Lsn(2), Txn(7), a, b);
    bare(&mut log, Lsn(3), Txn(7), COMMIT);
    bare(&mut log, Lsn(4), Txn(8), BEGIN);
    update(&mut log, Lsn(5), Txn(8), b, c);
    case(rt, "7 updates, 8 unended", holding(a, Lsn(0)), 0, &log)?;
    case(rt, "8 unended, on the page", holding(c, Lsn(5)), 0, &log)
}

fn deleted(rt: &impl Print) -> io::Result<()> {
    let mut log = [0u8; 500];
    let a = Row(Txn(3), 30);
    put_header(&mut log);
    bare(&mut log, Lsn(1), Txn(8), BEGIN);
    update(&mut log, Lsn(2), Txn(8), a, Row(Txn(8), 50));
    bare(&mut log, Lsn(3), Txn(8), ROLLBACK);
    bare(&mut log, Lsn(4), Txn(9), BEGIN);
    delete(&mut log, Lsn(5), Txn(9), a);
    bare(&mut log, Lsn(6), Txn(9), COMMIT);
    both(rt, "8 rolls back, 9 deletes", holding(a, Lsn(0)), &log)
}

fn large(rt: &impl Print, name: &str, slot: u16, length: u16) -> io::Result<()> {
    let mut log = [0u8; 16600];
    let r = Row(Txn(7), length);
    put_header(&mut log);
    bare(&mut log, Lsn(1), Txn(7), BEGIN);
    insert(&mut log, Lsn(2), Txn(7), Key(Page(0), slot), r);
    bare(&mut log, Lsn(3), Txn(7), COMMIT);
    case(rt, name, empty(), 0, &log)
}

fn zeros(rt: &impl Print) -> io::Result<()> {
    let mut log = [0u8; 300];
    put_header(&mut log);
    insert(&mut log, Lsn(1), Txn(0), Key(Page(0), 0), Row(Txn(7), 30));
    bare(&mut log, Lsn(2), Txn(0), CHECKPOINT);
    case(rt, "insert by 0", empty(), 0, &log)?;
    bare(&mut log, Lsn(3), Txn(0), BEGIN);
    case(rt, "begin 0", empty(), 0, &log)
}

// 7 commits, 8 rolls back, 9 is unended, 0 commits by itself; then a clash.
fn each_kind(rt: &impl Print) -> io::Result<()> {
    let mut log = [0u8; 900];
    put_header(&mut log);
    bare(&mut log, Lsn(1), Txn(7), BEGIN);
    bare(&mut log, Lsn(2), Txn(8), BEGIN);
    bare(&mut log, Lsn(3), Txn(9), BEGIN);
    insert(&mut log, Lsn(4), Txn(7), Key(Page(0), 0), Row(Txn(7), 30));
    insert(&mut log, Lsn(5), Txn(8), Key(Page(0), 1), Row(Txn(8), 31));
    insert(&mut log, Lsn(6), Txn(9), Key(Page(1), 0), Row(Txn(9), 32));
    insert(&mut log, Lsn(7), Txn(0), Key(Page(1), 1), Row(Txn(0), 33));
    bare(&mut log, Lsn(8), Txn(8), ROLLBACK);
    bare(&mut log, Lsn(9), Txn(7), COMMIT);
    case(rt, "each kind of transaction", empty(), 0, &log)?;
    insert(&mut log, Lsn(10), Txn(0), Key(Page(1), 0), Row(Txn(0), 34));
    case(rt, "a clash", empty(), 0, &log)
}

// A log whose last LSN is 8.
fn log_to_8() -> [u8; 200] {
    let mut log = [0u8; 200];
    put_header(&mut log);
    bare(&mut log, Lsn(7), Txn(7), BEGIN);
    bare(&mut log, Lsn(8), Txn(7), COMMIT);
    log
}

fn floors(rt: &impl Print) -> io::Result<()> {
    let log = log_to_8();
    let mut p = empty();
    put_page(&mut p, 1, 1, Lsn(9));
    case(rt, "page LSN 9, floor 8", p, 8, &log)?;
    case(rt, "page LSN 9, floor 9", p, 9, &log)
}

// Faults of page 0, each of which comes before the one before it.
fn worse(rt: &impl Print, mut p: [u8; 32768], log: &[u8]) -> io::Result<()> {
    put_u16(&mut p, 34, 16321);
    both(rt, "and its free end past the body", p, log)?;
    put_u32(&mut p, 12, 0);
    both(rt, "and its checksum wrong", p, log)?;
    put_u64(&mut p, 16, 1);
    both(rt, "and its id wrong", p, log)?;
    put_u64(&mut p, 0, 0);
    both(rt, "and its magic wrong", p, log)
}

// Page 0 is newer than the log, page 1 torn.
fn faults(rt: &impl Print) -> io::Result<()> {
    let log = log_to_8();
    let mut p = empty();
    put_page(&mut p, 0, 1, Lsn(9));
    put_u32(&mut p, 16396, 0);
    case(rt, "page 0 not newer, page 1 torn", p, 9, &log)?;
    both(rt, "page 0 newer, page 1 torn", p, &log)?;
    worse(rt, p, &log)
}

// Page 0 has room, page 1 has not.
fn late(rt: &impl Print) -> io::Result<()> {
    let mut log = [0u8; 17000];
    let r = Row(Txn(7), 16313);
    put_header(&mut log);
    bare(&mut log, Lsn(1), Txn(7), BEGIN);
    insert(&mut log, Lsn(2), Txn(7), Key(Page(0), 0), Row(Txn(7), 30));
    insert(&mut log, Lsn(3), Txn(7), Key(Page(1), 1), r);
    bare(&mut log, Lsn(4), Txn(7), COMMIT);
    case(rt, "no room on page 1", empty(), 0, &log)?;
    insert(&mut log, Lsn(5), Txn(0), Key(Page(2), 0), Row(Txn(0), 30));
    case(rt, "and a change to page 2", empty(), 0, &log)
}

fn reads<'a>(rt: &impl Print, p: &'a [u8], log: &'a [u8]) -> io::Result<()> {
    read(rt, "a row from the log", p, log, Page(0), 0)?;
    read(rt, "a row from the page", p, log, Page(0), 1)?;
    read(rt, "an empty slot", p, log, Page(0), 2)?;
    read(rt, "slot 65535", p, log, Page(0), 65535)?;
    read(rt, "a page not lent", p, log, Page(2), 0)?;
    read(rt, "a page of type 2", p, log, Page(1), 0)
}

fn rows(rt: &impl Print) -> io::Result<()> {
    let mut log = [0u8; 500];
    let a = Row(Txn(3), 30);
    let mut p = holding(a, Lsn(0));
    put_slot(&mut p, 0, 1, 15900, Row(Txn(4), 40));
    put_page(&mut p, 1, 2, Lsn(0));
    put_header(&mut log);
    bare(&mut log, Lsn(1), Txn(7), BEGIN);
    update(&mut log, Lsn(2), Txn(7), a, Row(Txn(7), 50));
    bare(&mut log, Lsn(3), Txn(7), COMMIT);
    bare(&mut log, Lsn(4), Txn(8), BEGIN);
    insert(&mut log, Lsn(5), Txn(8), Key(Page(0), 2), Row(Txn(8), 60));
    reads(rt, &p, used(&log))
}

fn main(rt: HostRuntime) -> io::Result<()> {
    ends(&rt)?;
    inserted(&rt)?;
    updated(&rt)?;
    deleted(&rt)?;
    large(&rt, "16316 bytes in slot 0", 0, 16316)?;
    large(&rt, "16312 bytes in slot 1", 1, 16312)?;
    large(&rt, "16313 bytes in slot 1", 1, 16313)?;
    zeros(&rt)?;
    each_kind(&rt)?;
    floors(&rt)?;
    faults(&rt)?;
    late(&rt)?;
    rows(&rt)
}
