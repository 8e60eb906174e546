// The same reads and writes for callers that know the bytes to be there; each asks for that.
ghost use Rattle.std.specs.Prelude.{◌≡◌, ℕ, ◌+◌, ◌≤◌, ◌<◌, length, drop};
ghost use Rattle.std.proofs.Math.Seq.{paste};
ghost use Rattle.endian.specs.Numbers.{number_of, number_at, bytes_of};

pub fn u16_at(s: &[u8], at: usize) -> u16
    requires { at + 2 ≤ length s.now }
    ensures { result ≡ number_at 2 at s.now }
{
    u16::from_le_bytes([s[at], s[at + 1]])
}

pub fn u24_at(s: &[u8], at: usize) -> u32
    requires { at + 3 ≤ length s.now }
    ensures { result ≡ number_at 3 at s.now }
{
    u32::from_le_bytes([s[at], s[at + 1], s[at + 2], 0])
}

pub fn u32_at(s: &[u8], at: usize) -> u32
    requires { at + 4 ≤ length s.now }
    ensures { result ≡ number_at 4 at s.now }
{
    u32::from_le_bytes([s[at], s[at + 1], s[at + 2], s[at + 3]])
}

pub fn u64_at(s: &[u8], at: usize) -> u64
    requires { at + 8 ≤ length s.now }
    ensures { result ≡ number_at 8 at s.now }
{
    u64::from_le_bytes([
        s[at],
        s[at + 1],
        s[at + 2],
        s[at + 3],
        s[at + 4],
        s[at + 5],
        s[at + 6],
        s[at + 7],
    ])
}

// The number of the bytes from place at to the end, of which there are at most seven.
pub fn short_at(s: &[u8], at: usize) -> u64
    requires { length s.now < at + 8 }
    ensures { result ≡ number_of (drop at s.now) }
{
    let mut n: u64 = 0;
    for i in (at..s.len()).rev() {
        n = 256 * n + s[i] as u64;
    }
    n
}

pub fn put_u8(s: &mut [u8], at: usize, n: u8)
    requires { at + 1 ≤ length s.old }
    ensures { s.new ≡ paste s.old at (bytes_of 1 n) 1 }
{
    s[at] = n;
}

pub fn put_u16(s: &mut [u8], at: usize, n: u16)
    requires { at + 2 ≤ length s.old }
    ensures { s.new ≡ paste s.old at (bytes_of 2 n) 2 }
{
    s[at] = (n % 256) as u8;
    s[at + 1] = (n / 256) as u8;
}

pub fn put_u24(s: &mut [u8], at: usize, n: u32)
    requires { (at + 3 ≤ length s.old) × (n < 16777216) }
    ensures { s.new ≡ paste s.old at (bytes_of 3 n) 3 }
{
    put_u16(s, at, (n % 65536) as u16);
    s[at + 2] = (n / 65536) as u8;
}

pub fn put_u32(s: &mut [u8], at: usize, n: u32)
    requires { at + 4 ≤ length s.old }
    ensures { s.new ≡ paste s.old at (bytes_of 4 n) 4 }
{
    put_u16(s, at, (n % 65536) as u16);
    put_u16(s, at + 2, (n / 65536) as u16);
}

pub fn put_u64(s: &mut [u8], at: usize, n: u64)
    requires { at + 8 ≤ length s.old }
    ensures { s.new ≡ paste s.old at (bytes_of 8 n) 8 }
{
    put_u32(s, at, (n % 4294967296) as u32);
    put_u32(s, at + 4, (n / 4294967296) as u32);
}

// Copies all of src into dst from place at on. Byte by byte: `copy_from_slice` would need a `memmove` of those who link the C library.
pub fn copy_in(dst: &mut [u8], at: usize, src: &[u8])
    requires { at + length src.now ≤ length dst.old }
    ensures { dst.new ≡ paste dst.old at src.now (length src.now) }
{
    for (j, b) in src.iter().enumerate() {
        dst[at + j] = *b;
    }
}
