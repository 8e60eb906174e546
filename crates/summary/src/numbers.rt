// Numbers in groups of seven bits, written and read.
ghost use Rattle.std.specs.Prelude.{◌≡◌, ◌+◌, ◌^◌, ◌≤◌, ◌<◌, length, drop};
ghost use Rattle.refusals.specs.Verdict.{by_number};
ghost use Rattle.summary.specs.Number.{any_number, groups, misspelt, spelling, value_at};
ghost use Rattle.summary.specs.Inner.{put, end_of, Ends, number_at, three};

use crate::Number;
use refusals::{Refusal, Refused};

// How many groups a number below 16,384 has. It takes no jump, which would often be guessed wrong.
fn small_size(n: u64) -> usize
    requires { n < 16384 }
    ensures { result ≡ length (groups n) }
{
    if n < 128 { 1 } else { 2 }
}

// How many groups a number has. Those of a row are small.
pub fn size(n: u64) -> usize
    ensures { (result ≡ length (groups n)) × (result ≤ 10) }
{
    if n < 16384 {
        return small_size(n);
    }
    n.ilog2() as usize / 7 + 1
}

// Writes a number at a place and gives back the place after it: its lowest group, then the rest as a smaller number of the same kind. It calls itself, and is no loop: docs/ARCHITECTURE.md names that form.
pub fn put_number(area: &mut [u8], at: usize, n: u64) -> usize
    requires { at + length (groups n) ≤ length area.old }
    ensures value { result ≡ at + length (groups n) }
    ensures area_after { area.new ≡ put area.old at (groups n) }
{
    if n < 128 {
        area[at] = n as u8;
        return at + 1;
    }
    area[at] = (128 + n % 128) as u8;
    put_number(area, at + 1, n / 128)
}

// How many groups three numbers have.
pub fn three_size(a: u64, b: u64, c: u64) -> usize
    ensures { (result ≡ length (three a b c)) × (result ≤ 30) }
{
    size(a) + size(b) + size(c)
}

// Writes three numbers one behind the other, and gives back the place after them.
pub fn put_three(area: &mut [u8], at: usize, a: u64, b: u64, c: u64) -> usize
    requires { at + length (three a b c) ≤ length area.old }
    ensures value { result ≡ at + length (three a b c) }
    ensures area_after { area.new ≡ put area.old at (three a b c) }
{
    let second = put_number(area, at, a);
    let third = put_number(area, second, b);
    put_number(area, third, c)
}

// Where the last group of the number at a place stands: the first byte without the high bit. None where the file ends before.
fn last_group(file: &[u8], at: usize) -> Option<usize>
    ensures { result ≡ end_of file.now at }
{
    let groups = file.get(at..)?;
    let before = groups.iter().position(|group| *group < 128)?;
    Some(at + before)
}

// Whether the number at a place, whose last group stands at end, has more groups than the fewest or is over 64 bits.
fn is_misspelt(file: &[u8], at: usize, end: usize) -> bool
    requires { Ends file.now at end }
    ensures { result ≡ misspelt (spelling (drop at file.now)) }
{
    let before = end - at;
    let top = file[end];
    if before == 0 {
        return false;
    }
    if top == 0 {
        return true;
    }
    if before < 9 {
        return false;
    }
    if 9 < before {
        return true;
    }
    1 < top
}

// The number at a place, whose last group stands at end.
fn value(file: &[u8], at: usize, end: usize) -> u64
    requires ends { Ends file.now at end }
    requires at_bound { value_at file.now at < 2 ^ 64 }
    ensures { result ≡ value_at file.now at }
{
    let mut n: u64 = 0;
    let mut p = end + 1;
    while at < p {
        p -= 1;
        n = 128 * n + u64::from(file[p]) % 128;
    }
    n
}

// Reads the number at a place, whatever it is. Most numbers have one group: a byte without the high bit is the number itself.
pub fn read(file: &[u8], at: usize) -> Result<Number, Refused>
    ensures { by_number result ≡ number_at any_number file.now at }
{
    if at < file.len() && file[at] < 128 {
        return Ok(Number {
            value: u64::from(file[at]),
            after: at + 1,
        });
    }
    let Some(end) = last_group(file, at) else {
        return Err(Refusal::SummaryEndsEarly.at(at));
    };
    if is_misspelt(file, at, end) {
        return Err(Refusal::SummarySpelling.at(at));
    }
    Ok(Number {
        value: value(file, at, end),
        after: end + 1,
    })
}
