// The judging cases: our own pages, and with other flags and another LSN; pages that were not mended; the row twice, another byte of it, another reserved byte, another byte of a page that the log does not
// touch; each page that differs one after the other; and refusals of either side.
#![tactic(auto)]

use audit::Finding;
use endian::{Lsn, PageNumber, put_u16, put_u32, put_u64};
use std::io;

const MAGIC: u64 = 0x0123_4567_89AB_CDEF;

fn show(rt: &impl Print, name: &str, f: Finding) -> io::Result<()> {
    let v = f.verdict;
    println!(rt;
        "{name}: {} at {}, differs {}, page {} slot {}",
        v.number, v.place, f.differs as u8, f.page.0, f.slot
    )
}

fn judged(rt: &impl Print, name: &str, before: &[u8], log: &[u8], after: &[u8]) -> io::Result<()> {
    show(rt, name, audit::judge(MAGIC, Lsn(0), before, log, after))
}

fn judged_from(
    rt: &impl Print,
    name: &str,
    before: &[u8],
    log: &[u8],
    after: &[u8],
    first: u64,
) -> io::Result<()> {
    show(
        rt,
        name,
        audit::judge_from(MAGIC, Lsn(0), before, log, after, PageNumber(first)),
    )
}

// The same of the first bytes of each, so many of them.
fn judged_fronts(
    rt: &impl Print,
    name: &str,
    before: &[u8],
    b: usize,
    log: &[u8],
    l: usize,
    after: &[u8],
    a: usize,
) -> io::Result<()> {
    if before.len() < b {
        return Ok(());
    }
    if log.len() < l {
        return Ok(());
    }
    if after.len() < a {
        return Ok(());
    }
    judged(rt, name, &before[0..b], &log[0..l], &after[0..a])
}

// ---- two Data pages, and an Insert of a row of 30 bytes into slot 0 of page 0

fn summed(mut p: [u8; 32768]) -> [u8; 32768] {
    let c = crc32c::crc32c(&p[64..16384]);
    put_u32(&mut p, 12, c);
    let d = crc32c::crc32c(&p[16448..32768]);
    put_u32(&mut p, 16396, d);
    p
}

fn pages() -> [u8; 32768] {
    let mut p = [0u8; 32768];
    put_u64(&mut p, 0, MAGIC);
    put_u16(&mut p, 8, 1);
    put_u16(&mut p, 34, 16320);
    put_u64(&mut p, 16384, MAGIC);
    put_u16(&mut p, 16392, 1);
    put_u64(&mut p, 16400, 1);
    put_u16(&mut p, 16418, 16320);
    summed(p)
}

fn insert() -> [u8; 115] {
    let mut l = [0u8; 115];
    put_u32(&mut l, 0, 0x4E4C_4157);
    put_u16(&mut l, 4, 1);
    put_u32(&mut l, 32, 83);
    put_u64(&mut l, 36, 1);
    put_u16(&mut l, 52, 4);
    put_u16(&mut l, 57, 10);
    put_u32(&mut l, 73, 30);
    put_u64(&mut l, 77, 7);
    put_u32(&mut l, 101, 0x7261_6567);
    let c = crc32c::crc32c(&l[32..107]);
    put_u32(&mut l, 107, c);
    put_u32(&mut l, 111, 83);
    l
}

fn recovered(mut p: [u8; 32768], log: &[u8]) -> [u8; 32768] {
    let mut t = [0u64; 4];
    recovery::recover_flat(MAGIC, Lsn(0), &mut p, log, &mut t);
    p
}

// The row once more, in slot 1.
fn twice(mut p: [u8; 32768]) -> [u8; 32768] {
    put_u16(&mut p, 10, 2);
    put_u16(&mut p, 32, 8);
    put_u16(&mut p, 34, 16260);
    put_u16(&mut p, 68, 16260);
    put_u16(&mut p, 70, 30);
    put_u64(&mut p, 16324, 7);
    put_u32(&mut p, 16348, 0x7261_6567);
    summed(p)
}

// Another byte in the gap of page 1, and its checksum as it was.
fn torn(mut p: [u8; 32768]) -> [u8; 32768] {
    put_u16(&mut p, 16600, 1);
    p
}

// ---- the cases

fn with(mut p: [u8; 32768], at: usize, n: u16) -> [u8; 32768] {
    put_u16(&mut p, at, n);
    summed(p)
}

fn differences(
    rt: &impl Print,
    before: &[u8; 32768],
    log: &[u8; 115],
    ours: [u8; 32768],
) -> io::Result<()> {
    judged(rt, "our own pages", before, log, &ours)?;
    judged(rt, "other flags", before, log, &with(ours, 8, 257))?;
    judged(rt, "another LSN", before, log, &with(ours, 24, 999))?;
    judged(rt, "not mended", before, log, before)?;
    judged(rt, "the row twice", before, log, &twice(ours))?;
    judged(
        rt,
        "another byte of the row",
        before,
        log,
        &with(ours, 16378, 1),
    )?;
    judged(rt, "another reserved byte", before, log, &with(ours, 60, 1))?;
    judged(
        rt,
        "another byte of the gap of page 0",
        before,
        log,
        &with(ours, 200, 1),
    )?;
    judged(
        rt,
        "another byte of the gap of page 1",
        before,
        log,
        &with(ours, 16600, 1),
    )
}

fn refusals(
    rt: &impl Print,
    before: &[u8; 32768],
    log: &[u8; 115],
    ours: [u8; 32768],
) -> io::Result<()> {
    judged_fronts(
        rt,
        "a log of 31 bytes",
        before,
        32768,
        log,
        31,
        &ours,
        32768,
    )?;
    judged_fronts(
        rt,
        "half a page before",
        before,
        8192,
        log,
        115,
        &ours,
        32768,
    )?;
    judged_fronts(rt, "a page fewer", before, 32768, log, 115, &ours, 16384)?;
    judged(
        rt,
        "another magic after",
        before,
        log,
        &with(ours, 16384, 1),
    )?;
    judged(rt, "another id after", before, log, &with(ours, 16400, 2))?;
    judged(rt, "a wrong checksum after", before, log, &torn(ours))?;
    judged(
        rt,
        "a wrong free start after",
        before,
        log,
        &with(ours, 32, 8),
    )
}

fn one_by_one(
    rt: &impl Print,
    before: &[u8; 32768],
    log: &[u8; 115],
    ours: [u8; 32768],
) -> io::Result<()> {
    let both = with(with(ours, 60, 1), 16444, 1);
    judged_from(rt, "from page 0", before, log, &both, 0)?;
    judged_from(rt, "from page 1", before, log, &both, 1)?;
    judged_from(rt, "from page 2", before, log, &both, 2)?;
    judged_from(
        rt,
        "from the last page there can be",
        before,
        log,
        &both,
        18446744073709551615,
    )
}

fn main(rt: HostRuntime) -> io::Result<()> {
    let before = pages();
    let log = insert();
    let ours = recovered(before, &log);
    differences(&rt, &before, &log, ours)?;
    refusals(&rt, &before, &log, ours)?;
    one_by_one(&rt, &before, &log, ours)
}
