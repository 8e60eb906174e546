// Reads and writes at the start, at the end and past the end of a slice.
#![tactic(auto)]

use endian::{put_u16, put_u32, put_u64, u16_at, u32_at, u64_at};
use std::io;

fn number(rt: &impl Print, n: u64) -> io::Result<()> {
    print!(rt; " {n:x}")
}

// What each width reads at a place.
fn reads(rt: &impl Print, name: &str, s: &[u8], at: usize) -> io::Result<()> {
    println!(rt;
        "{name} {:x} {:x} {:x}",
        u16_at(s, at),
        u32_at(s, at),
        u64_at(s, at)
    )
}

fn said(rt: &impl Print, done: bool) -> io::Result<()> {
    if done {
        print!(rt; " written")
    } else {
        print!(rt; " refused")
    }
}

// Writes at a place of ten bytes, each width on bytes of its own, and what then stands there.
fn writes(rt: &impl Print, name: &str, at: usize) -> io::Result<()> {
    print!(rt; "{name}")?;
    let mut a = [0xEEu8; 10];
    said(rt, put_u16(&mut a, at, 0x1234))?;
    number(rt, u64_at(&a, 2))?;
    let mut b = [0xEEu8; 10];
    said(rt, put_u32(&mut b, at, 0x1234_5678))?;
    number(rt, u64_at(&b, 2))?;
    let mut c = [0xEEu8; 10];
    said(rt, put_u64(&mut c, at, 0x1234_5678_9ABC_DEF0))?;
    number(rt, u64_at(&c, 2))?;
    println!(rt)
}

fn main(rt: HostRuntime) -> io::Result<()> {
    let s = [1u8, 2, 3, 4, 5, 6, 7, 8, 9, 10];
    reads(&rt, "empty slice at 0:", &[0u8; 0], 0)?;
    reads(
        &rt,
        "empty slice at the largest place:",
        &[0u8; 0],
        0xFFFF_FFFF_FFFF_FFFF,
    )?;
    reads(&rt, "ten bytes at 0:", &s, 0)?;
    reads(&rt, "ten bytes at 2:", &s, 2)?;
    reads(&rt, "ten bytes at 7:", &s, 7)?;
    reads(&rt, "ten bytes at 9:", &s, 9)?;
    reads(&rt, "ten bytes at the end:", &s, 10)?;
    reads(&rt, "ten bytes past the end:", &s, 11)?;
    reads(
        &rt,
        "ten bytes at the largest place:",
        &s,
        0xFFFF_FFFF_FFFF_FFFF,
    )?;
    writes(&rt, "at 2:", 2)?;
    writes(&rt, "at 7:", 7)?;
    writes(&rt, "at 9:", 9)?;
    writes(&rt, "at 10:", 10)?;
    writes(&rt, "at the largest place:", 0xFFFF_FFFF_FFFF_FFFF)
}
