// The checksum vectors of RFC 3720, section B.4, and the check value, each whole and in two pieces.
#![tactic(auto)]

use crc32c::{START, crc32c, finish, update};
use std::io;

// Writes the name, the checksum of s, and the checksum of its two pieces around cut.
fn show(rt: &impl Print, name: &str, s: &[u8], cut: usize) -> io::Result<()> {
    print!(rt; "{name} {:08x}", crc32c(s))?;
    if cut <= s.len() {
        let half = update(START, &s[0..cut]);
        print!(rt; " {:08x}", finish(update(half, &s[cut..])))?;
    }
    println!(rt)
}

fn main(rt: HostRuntime) -> io::Result<()> {
    show(&rt, "empty", &[0u8; 0], 0)?;
    show(&rt, "check value of 123456789", b"123456789", 4)?;
    let zeros = [0u8; 32];
    show(&rt, "32 zeros", &zeros, 32)?;
    let ones = [255u8; 32];
    show(&rt, "32 ones", &ones, 1)?;
    let up = [
        0u8, 1, 2, 3, 4, 5, 6, 7, 8, 9, 10, 11, 12, 13, 14, 15, 16, 17, 18, 19, 20, 21, 22, 23, 24,
        25, 26, 27, 28, 29, 30, 31,
    ];
    let down = [
        31u8, 30, 29, 28, 27, 26, 25, 24, 23, 22, 21, 20, 19, 18, 17, 16, 15, 14, 13, 12, 11, 10,
        9, 8, 7, 6, 5, 4, 3, 2, 1, 0,
    ];
    show(&rt, "0 to 31 rising", &up, 8)?;
    show(&rt, "31 to 0 falling", &down, 9)?;
    let command = [
        0x01u8, 0xC0, 0, 0, 0, 0, 0, 0, 0, 0, 0, 0, 0, 0, 0, 0, 0x14, 0, 0, 0, 0, 0, 0x04, 0, 0, 0,
        0, 0x14, 0, 0, 0, 0x18, 0x28, 0, 0, 0, 0, 0, 0, 0, 0x02, 0, 0, 0, 0, 0, 0, 0,
    ];
    show(&rt, "read command", &command, 43)?;
    let long = [7u8; 40000];
    show(&rt, "40000 sevens", &long, 16320)
}
