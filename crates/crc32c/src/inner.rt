// The checksum over lent tables: sixteen bytes at a time. A long input is first shortened by a sparse multiple of the polynomial, which needs no table.
ghost use Rattle.std.specs.Prelude.{◌≡◌, ℕ, ◌+◌, ◌*◌, ◌%◌, ◌^◌, ◌<◌, ◌≤◌, List, ◌++◌, length, take, drop};
ghost use Rattle.crc32c.specs.Crc.{shifts, fed, crc32c as crc_of};
ghost use Rattle.crc32c.specs.Tables.{Tables as AreTables, leaves, Upto};
ghost use Rattle.crc32c.specs.Sparse.{history_bytes, chunk_bytes, buffer_bytes, ending_bytes, last_bytes, Filled, Room, carried};

pub use crate::tables::Tables;
use endian::inner::{copy_in, put_u32, u16_at, u32_at};

// From so many bytes on a sparse multiple shortens an input first; shorter ones are done sooner by the tables alone.
const LONG_BYTES: usize = 960;

// As far back as a byte of the sparse multiple reaches: 209, its degree in bytes, twice.
const HISTORY_BYTES: usize = 418;

// What goes behind the history at a time. Eight chunks and the ending are a page's body.
const CHUNK_BYTES: usize = 1984;

const BUFFER_BYTES: usize = HISTORY_BYTES + CHUNK_BYTES;

type Buffer = [u8; BUFFER_BYTES];

// What is left of an input when nothing more is put behind the history: at least as long as it.
const ENDING_BYTES: usize = 448;

// What is left of the ending.
const LAST_BYTES: usize = 224;

// What the byte x leaves after one byte.
fn byte(x: u32) -> u32
    ensures { result ≡ shifts 8 x }
{
    let mut r = x;
    for _ in 0..8u8 {
        r = ((r & 1) * 0x82F6_3B78) ^ (r >> 1);
    }
    r
}

// Entry k, looked up: what the one of the table before leaves after one more byte.
fn entry(words: &[u32; 4096], k: usize) -> u32
    requires { (256 ≤ k) × (k < 4096) × Upto words.now k }
    ensures { result ≡ leaves k }
{
    let x = words[k - 256];
    (x >> 8) ^ words[(x & 255) as usize]
}

// Table n, from the one before it and the first. Looked up are its first sixteen entries and the first entry of each later row of sixteen. Every other entry is the exclusive or of two of these: a byte is that of its low and its high four bits, and what it leaves is that of what they leave.
fn fill_table(words: &mut [u32; 4096], n: usize)
    requires n_in_bounds { (1 ≤ n) × (n < 16) }
    requires earlier { Upto words.old (256 * n) }
    ensures { Upto words.new (256 * n + 256) }
{
    let at = 256 * n;
    'looks: for k in at..at + 16 {
        words[k] = entry(words, k);
    }
    'sums: for row in 1..16usize {
        let k = at + 16 * row;
        let x = entry(words, k);
        for j in 0..16usize {
            words[k + j] = words[at + j] ^ x;
        }
    }
}

// All sixteen tables. Not inlined, so that `tables` itself is short enough for LLVM to put it into its callers: else it has a frame of its own, 16 KiB of stack more below each caller.
#[inline(never)]
fn fill_tables(words: &mut [u32; 4096])
    ensures { AreTables words.new }
{
    'first: for n in 0..256u32 {
        words[n as usize] = byte(n);
    }
    'rest: for n in 1..16usize {
        fill_table(words, n);
    }
}

// The sixteen tables.
pub fn tables() -> Tables {
    let mut words = [0u32; 4096];
    fill_tables(&mut words);
    Tables { words }
}

fn low(x: u32) -> u8
    ensures { result ≡ x % 256 }
{
    (x & 255) as u8
}

// What the byte b leaves in the register after itself and k more bytes.
fn look(t: &Tables, k: usize, b: u8) -> u32
    requires { k < 16 }
    ensures { result ≡ shifts (8 * (k + 1)) b }
{
    t.words[k * 256 + b as usize]
}

// What the four bytes of x leave after themselves and k more bytes.
fn four(t: &Tables, k: usize, x: u32) -> u32
    requires { k ≤ 12 }
    ensures { result ≡ shifts (8 * (k + 4)) x }
{
    look(t, k, low(x >> 24))
        ^ look(t, k + 1, low(x >> 16))
        ^ look(t, k + 2, low(x >> 8))
        ^ look(t, k + 3, low(x))
}

// The register c after the four bytes of s at i, and after k more bytes, which are not yet in it.
fn lead(t: &Tables, k: usize, c: u32, s: &[u8], i: usize) -> u32
    requires { (k ≤ 12) × (i + 4 ≤ length s.now) }
    ensures { result ≡ shifts (8 * k) (fed c (take 4 (drop i s.now))) }
{
    four(t, k, c ^ u32_at(s, i))
}

// What the four bytes of s at i leave after themselves and k more bytes.
fn follow(t: &Tables, k: usize, s: &[u8], i: usize) -> u32
    requires { (k ≤ 12) × (i + 4 ≤ length s.now) }
    ensures { result ≡ shifts (8 * k) (fed 0 (take 4 (drop i s.now))) }
{
    look(t, k, s[i + 3])
        ^ look(t, k + 1, s[i + 2])
        ^ look(t, k + 2, s[i + 1])
        ^ look(t, k + 3, s[i])
}

// The register x after two bytes that are in it already, and after one.
fn two(t: &Tables, x: u32) -> u32
    ensures { result ≡ shifts 16 x }
{
    (x >> 16) ^ look(t, 0, low(x >> 8)) ^ look(t, 1, low(x))
}

fn one(t: &Tables, x: u32) -> u32
    ensures { result ≡ shifts 8 x }
{
    (x >> 8) ^ look(t, 0, low(x))
}

// The register c after sixteen bytes. Only the first four wait for it, so they go in last.
#[inline(always)]
fn sixteen(t: &Tables, c: u32, s: &[u8; 16]) -> u32
    ensures { result ≡ fed c s.now }
{
    follow(t, 0, s, 12) ^ follow(t, 4, s, 8) ^ follow(t, 8, s, 4) ^ lead(t, 12, c, s, 0)
}

// The register start after the bytes of s: the end of what `rest` goes over. Steps of two and of one byte look differently (`two`, `one`), so they are no one function over a width.
fn few(t: &Tables, start: u32, s: &[u8]) -> u32
    ensures { result ≡ fed start s.now }
{
    let mut c = start;
    let (twos, last) = s.as_chunks::<2>();
    for x in twos {
        c = two(t, c ^ u16_at(x, 0) as u32);
    }
    for b in last {
        c = one(t, c ^ *b as u32);
    }
    c
}

// The register start after the bytes of s: the end of what `words` goes over, by eights and by fours, which take the register in at another table each.
fn rest(t: &Tables, start: u32, s: &[u8]) -> u32
    ensures { result ≡ fed start s.now }
{
    let mut c = start;
    let (eights, behind) = s.as_chunks::<8>();
    'eights: for x in eights {
        c = follow(t, 0, x, 4) ^ lead(t, 4, c, x, 0);
    }
    let (fours, last) = behind.as_chunks::<4>();
    'fours: for x in fours {
        c = lead(t, 0, c, x, 0);
    }
    few(t, c, last)
}

// Short inputs: sixteen bytes at a time.
fn words(t: &Tables, start: u32, s: &[u8]) -> u32
    ensures { result ≡ fed start s.now }
{
    let mut c = start;
    let (steps, last) = s.as_chunks::<16>();
    for x in steps {
        c = sixteen(t, c, x);
    }
    rest(t, c, last)
}

// The bytes of s go behind the history. Each takes in five earlier ones: 288, 108, 78, 28 and 0 are the multiple's lower exponents, 144, 54, 39, 14 and 0, twice.
// `Room` stays beside the type (tried without): after a call a proof knows an array's length, and not that its elements are bytes.
fn fill(p: &mut Buffer, s: &[u8])
    requires s_len_bound { length s.now ≤ chunk_bytes }
    requires room { Room buffer_bytes p.old }
    ensures filled { Filled 2 (length s.now) p.old s.now p.new }
    ensures room_2 { Room buffer_bytes p.new }
{
    for (j, b) in s.iter().enumerate() {
        p[j + HISTORY_BYTES] = *b ^ (p[j + 288] ^ (p[j + 108] ^ (p[j + 78] ^ (p[j + 28] ^ p[j]))));
    }
}

// The end of the buffer is the history of the next chunk.
fn back(p: &mut Buffer)
    ensures p_after { take history_bytes p.new ≡ take history_bytes (drop chunk_bytes p.old) }
    ensures room { Room buffer_bytes p.new }
{
    p.copy_within(CHUNK_BYTES.., 0);
}

// A whole chunk goes behind the history, and the end of it becomes the history.
fn chunk(p: &mut Buffer, s: &[u8; CHUNK_BYTES])
    ensures by_index { (r : List ℕ) → history_bytes ≤ length r → carried p.new r ≡ carried p.old (s.now ++ r) }
    ensures room_2 { Room buffer_bytes p.new }
{
    fill(p, s);
    back(p);
}

// The bytes of an ending, each with what the history, which stands in p from n on, leaves for it; behind the history nothing more is left.
fn mix(p: &Buffer, n: usize, s: &[u8], o: &mut [u8; ENDING_BYTES])
    requires { (n ≤ chunk_bytes) × (length s.now ≡ ending_bytes) }
    ensures o_after { fed 0 o.new ≡ carried (drop n p.now) s.now }
    ensures room_2 { Room ending_bytes o.new }
{
    let mut z = [0u8; 736];
    copy_in(&mut z, 0, &p[n..n + HISTORY_BYTES]);
    for (j, b) in s.iter().enumerate() {
        o[j] = *b ^ (z[j + 288] ^ (z[j + 108] ^ (z[j + 78] ^ (z[j + 28] ^ z[j]))));
    }
}

// An ending, from the register 0, is shortened to its second half by the multiple itself: the exponents once, and the same 224 places on.
fn halve(s: &[u8; ENDING_BYTES], o: &mut [u8; LAST_BYTES])
    requires { Room ending_bytes s.now }
    ensures { fed 0 o.new ≡ fed 0 s.now }
{
    let mut p = [0u8; 592];
    'fill: for j in 0..LAST_BYTES {
        p[j + 209] = s[j] ^ (p[j + 144] ^ (p[j + 54] ^ (p[j + 39] ^ (p[j + 14] ^ p[j]))));
    }
    'mix: for i in 0..LAST_BYTES {
        o[i] = s[i + 224] ^ (p[i + 368] ^ (p[i + 278] ^ (p[i + 263] ^ (p[i + 238] ^ p[i + 224]))));
    }
}

// What is left of a long input, in the same steps; a call of `words` would have its own frame, and short inputs would pay for it.
fn last(t: &Tables, s: &[u8; LAST_BYTES]) -> u32
    ensures { result ≡ fed 0 s.now }
{
    let mut c: u32 = 0;
    for x in s.as_chunks::<16>().0 {
        c = sixteen(t, c, x);
    }
    c
}

// The register after the ending s of an input, with the history that stands in p from n on.
fn tail(t: &Tables, p: &Buffer, n: usize, s: &[u8]) -> u32
    requires { (n ≤ chunk_bytes) × (length s.now ≡ ending_bytes) }
    ensures { result ≡ carried (drop n p.now) s.now }
{
    let mut o = [0u8; ENDING_BYTES];
    mix(p, n, s, &mut o);
    let mut q = [0u8; LAST_BYTES];
    halve(&o, &mut q);
    last(t, &q)
}

// The register c after the bytes of s. It goes in with the first four: a history of its bytes and zeros.
fn long(t: &Tables, c: u32, s: &[u8]) -> u32
    requires { ending_bytes ≤ length s.now }
    ensures { result ≡ fed c s.now }
{
    let mut p = [0u8; BUFFER_BYTES];
    put_u32(&mut p, 0, c);
    let (body, ending) = s.split_at(s.len() - ENDING_BYTES);
    let (chunks, behind) = body.as_chunks::<CHUNK_BYTES>();
    for x in chunks {
        chunk(&mut p, x);
    }
    fill(&mut p, behind);
    tail(t, &p, behind.len(), ending)
}

// The register start after the bytes of s.
pub fn update(t: &Tables, start: u32, s: &[u8]) -> u32
    ensures { result ≡ fed start s.now }
{
    if s.len() < LONG_BYTES {
        return words(t, start, s);
    }
    long(t, start, s)
}

// The checksum of s.
pub fn crc32c(t: &Tables, s: &[u8]) -> u32
    ensures { result ≡ crc_of s.now }
{
    update(t, 0xFFFF_FFFF, s) ^ 0xFFFF_FFFF
}
