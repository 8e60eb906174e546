// Little-endian numbers in byte slices, and the three kinds of number that files hold.
#![tactic(auto)]

ghost use Rattle.std.specs.Prelude.{◌≡◌, ◌+◌, leb, length};
ghost use Rattle.endian.specs.Numbers.{number_at, written};

pub mod inner;

// A log sequence number.
#[derive(Clone, Copy, PartialEq, Eq, PartialOrd, Ord)]
pub struct Lsn(pub u64);

// A transaction's number; 0 is the transaction of changes that commit by themselves.
#[derive(Clone, Copy, PartialEq, Eq, PartialOrd, Ord)]
pub struct TxnNumber(pub u64);

// A page's number: its index among the lent pages.
#[derive(Clone, Copy, PartialEq, Eq, PartialOrd, Ord)]
pub struct PageNumber(pub u64);

// The three readers and the three writers below stay one by one: they are entries by name (docs/API.md), and the bool of a writer is its whole answer there.

// Whether w bytes stand at place at of a slice of len bytes.
fn within(len: usize, at: usize, w: usize) -> bool
    ensures { result ≡ leb (at + w) len }
{
    if len < at {
        return false;
    }
    w <= len - at
}

// The number of the two bytes at place at; a byte past the end counts as 0.
pub fn u16_at(s: &[u8], at: usize) -> u16
    ensures { result ≡ number_at 2 at s.now }
{
    if within(s.len(), at, 2) {
        return inner::u16_at(s, at);
    }
    inner::short_at(s, at) as u16
}

// The number of the four bytes at place at; a byte past the end counts as 0.
pub fn u32_at(s: &[u8], at: usize) -> u32
    ensures { result ≡ number_at 4 at s.now }
{
    if within(s.len(), at, 4) {
        return inner::u32_at(s, at);
    }
    inner::short_at(s, at) as u32
}

// The number of the eight bytes at place at; a byte past the end counts as 0.
pub fn u64_at(s: &[u8], at: usize) -> u64
    ensures { result ≡ number_at 8 at s.now }
{
    if within(s.len(), at, 8) {
        return inner::u64_at(s, at);
    }
    inner::short_at(s, at)
}

// Writes n into the two bytes at place at and says true; where they are not all there, writes nothing and says false.
pub fn put_u16(s: &mut [u8], at: usize, n: u16) -> bool
    ensures { (result ≡ leb (at + 2) (length s.old)) × (s.new ≡ written 2 at n s.old) }
{
    if within(s.len(), at, 2) {
        inner::put_u16(s, at, n);
        return true;
    }
    false
}

// Writes n into the four bytes at place at and says true; where they are not all there, writes nothing and says false.
pub fn put_u32(s: &mut [u8], at: usize, n: u32) -> bool
    ensures { (result ≡ leb (at + 4) (length s.old)) × (s.new ≡ written 4 at n s.old) }
{
    if within(s.len(), at, 4) {
        inner::put_u32(s, at, n);
        return true;
    }
    false
}

// Writes n into the eight bytes at place at and says true; where they are not all there, writes nothing and says false.
pub fn put_u64(s: &mut [u8], at: usize, n: u64) -> bool
    ensures { (result ≡ leb (at + 8) (length s.old)) × (s.new ≡ written 8 at n s.old) }
{
    if within(s.len(), at, 8) {
        inner::put_u64(s, at, n);
        return true;
    }
    false
}
