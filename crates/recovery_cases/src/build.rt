// Pages and logs for the cases, written byte by byte.
use endian::{Lsn, PageNumber as Page, TxnNumber as Txn, put_u16, put_u32, put_u64, u16_at};

pub const MAGIC: u64 = 0x0123_4567_89AB_CDEF;

pub const BEGIN: u8 = 1;

pub const COMMIT: u8 = 2;

pub const ROLLBACK: u8 = 3;

const INSERT: u8 = 4;

const DELETE: u8 = 5;

pub const CHECKPOINT: u8 = 7;

const UPDATE: u8 = 10;

// ---- rows

// The tuple of so many bytes that a transaction makes; of 0 bytes, none.
#[derive(Clone, Copy)]
pub struct Row(pub Txn, pub u16);

// A page and a slot.
#[derive(Clone, Copy)]
pub struct Key(pub Page, pub u16);

// Bytes that tell their places and a seed.
fn fill(s: &mut [u8], seed: u8) {
    for i in 0..s.len() {
        s[i] = (i % 251) as u8 ^ seed;
    }
}

fn put_row(s: &mut [u8], at: u32, r: Row) {
    let a = at as usize;
    let e = a + r.1 as usize;
    if s.len() < e {
        return;
    }
    fill(&mut s[a..e], (r.1 % 251) as u8);
    let xmin = r.0;
    if r.1 != 0 {
        put_u64(s, a, xmin.0);
        put_u64(s, a + 8, 0);
        put_u16(s, a + 16, 0);
    }
}

// ---- pages

// The checksum of a page's body.
fn sum(p: &mut [u8], index: u8) {
    let a = index as usize * 16384;
    let b = a + 64;
    let e = a + 16384;
    if p.len() < e {
        return;
    }
    let c = crc32c::crc32c(&p[b..e]);
    put_u32(p, a + 12, c);
}

// The header of an empty page, with marks in its flags and reserved bytes.
pub fn put_page(p: &mut [u8], index: u8, kind: u8, lsn: Lsn) {
    let a = index as usize * 16384;
    put_u64(p, a, MAGIC);
    put_u32(p, a + 8, 256 + kind as u32);
    put_u64(p, a + 16, index as u64);
    put_u64(p, a + 24, lsn.0);
    put_u32(p, a + 32, 16320 * 65536);
    put_u64(p, a + 36, 0x0908_0706_0504_0302);
    put_u32(p, a + 60, 0x0D0C_0B0A);
    sum(p, index);
}

// A row at an offset below those before, in slot k, which is the page's last.
pub fn put_slot(p: &mut [u8], index: u8, k: u8, offset: u16, r: Row) {
    let a = index as usize * 16384;
    let s = a + 64 + 4 * k as usize;
    put_u16(p, s, offset);
    put_u16(p, s + 2, r.1);
    put_u16(p, a + 10, k as u16 + 1);
    put_u16(p, a + 32, 4 * k as u16 + 4);
    put_u16(p, a + 34, offset);
    put_row(p, index as u32 * 16384 + 64 + offset as u32, r);
    sum(p, index);
}

// Two data pages without rows.
pub fn empty() -> [u8; 32768] {
    let mut p = [0u8; 32768];
    put_page(&mut p, 0, 1, Lsn(0));
    put_page(&mut p, 1, 1, Lsn(0));
    p
}

// The same with a row in slot 0 of the first page, and an LSN there.
pub fn holding(r: Row, lsn: Lsn) -> [u8; 32768] {
    let mut p = empty();
    put_page(&mut p, 0, 1, lsn);
    put_slot(&mut p, 0, 0, 16000, r);
    p
}

// ---- logs: bytes 8 and 9, which no reader looks at, hold the place of the next entry

pub fn put_header(log: &mut [u8]) {
    put_u32(log, 0, 0x4E4C_4157);
    put_u16(log, 4, 1);
    put_u16(log, 8, 32);
}

fn next(log: &[u8]) -> u16 {
    u16_at(log, 8)
}

fn moved(log: &mut [u8], n: u16) {
    let to = next(log) as u32 + n as u32;
    if to < 65536 {
        put_u16(log, 8, to as u16);
    }
}

// A number of so many bytes; what it writes behind them is written over.
fn push(log: &mut [u8], n: u64, bytes: u16) {
    let at = next(log) as usize;
    put_u64(log, at, n);
    moved(log, bytes);
}

fn push_key(log: &mut [u8], k: Key) {
    let page = k.0;
    push(log, page.0, 8);
    push(log, k.1 as u64, 2);
}

fn push_row(log: &mut [u8], r: Row) {
    let at = next(log) as u32;
    put_row(log, at, r);
    moved(log, r.1);
}

// A value: its length, in an update the key again, and the row.
fn push_value(log: &mut [u8], kind: u8, k: Key, r: Row) {
    let n = r.1 as u64;
    if kind != UPDATE {
        push(log, n, 4);
        push_row(log, r);
        return;
    }
    push(log, n + 10, 4);
    push_key(log, k);
    push_row(log, r);
}

// An entry up to its key; says where it starts.
fn push_front(log: &mut [u8], lsn: Lsn, txn: Txn, kind: u8) -> u16 {
    let from = next(log);
    push(log, 0, 4);
    push(log, lsn.0, 8);
    push(log, txn.0, 8);
    push(log, kind as u64, 1);
    push(log, 77, 4);
    from
}

// Its lengths and its checksum.
fn seal(log: &mut [u8], from: u16) {
    let a = from as usize;
    let e = next(log) as usize;
    if e < a {
        return;
    }
    if log.len() < e {
        return;
    }
    let n = (e - a) as u32 + 8;
    put_u32(log, a, n);
    let c = crc32c::crc32c(&log[a..e]);
    push(log, c as u64, 4);
    push(log, n as u64, 4);
}

// An entry with no key and no values.
pub fn bare(log: &mut [u8], lsn: Lsn, txn: Txn, kind: u8) {
    let from = push_front(log, lsn, txn, kind);
    push(log, 0, 2);
    push(log, 0, 8);
    seal(log, from);
}

fn change(log: &mut [u8], lsn: Lsn, txn: Txn, kind: u8, k: Key, old: Row, new: Row) {
    let from = push_front(log, lsn, txn, kind);
    push(log, 10, 2);
    push_key(log, k);
    push_value(log, kind, k, old);
    push_value(log, kind, k, new);
    seal(log, from);
}

pub fn insert(log: &mut [u8], lsn: Lsn, txn: Txn, k: Key, new: Row) {
    change(log, lsn, txn, INSERT, k, Row(Txn(0), 0), new);
}

// An update and a delete of slot 0 of page 0.
pub fn update(log: &mut [u8], lsn: Lsn, txn: Txn, old: Row, new: Row) {
    change(log, lsn, txn, UPDATE, Key(Page(0), 0), old, new);
}

pub fn delete(log: &mut [u8], lsn: Lsn, txn: Txn, old: Row) {
    change(log, lsn, txn, DELETE, Key(Page(0), 0), old, Row(Txn(0), 0));
}

// The written part of a log.
pub fn used(log: &[u8]) -> &[u8] {
    let n = next(log) as usize;
    if log.len() < n {
        return log;
    }
    &log[0..n]
}
