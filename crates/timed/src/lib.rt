// For the benchmarks alone: what a caller inside the library pays, with the tables made once.
#![tactic(auto)]

ghost use Rattle.std.specs.Prelude.{◌≡◌, ◌+◌, ◌*◌, ◌/◌, ◌≤◌, leb, length};
ghost use Rattle.endian.specs.Pick.{pick};
ghost use Rattle.page.specs.Fault.{verdict_of};
ghost use Rattle.page.specs.FreeMap.{free_pages, ones_of};
ghost use Rattle.page.specs.Layout.{pages_in};
ghost use Rattle.timed.specs.Pieces.{mixed};
ghost use Rattle.wal.specs.Walk.{end_of};

// The checksums of the whole pieces of n bytes of s, mixed into one number.
#[unsafe(no_mangle)]
pub extern "C" fn timed_crc32c(s: &[u8], n: usize) -> u32
    ensures { result ≡ mixed (length s.now / n) n s.now }
{
    if n == 0 {
        return 0;
    }
    let t = crc32c::inner::tables();
    let mut x: u32 = 0;
    for piece in s.chunks_exact(n) {
        x ^= crc32c::inner::crc32c(&t, piece);
    }
    x
}

// The number of the verdict on a page area.
#[unsafe(no_mangle)]
pub extern "C" fn timed_verify(magic: u64, pages: &[u8]) -> u64
    ensures { result ≡ (verdict_of magic pages.now).number }
{
    match page::verify(magic, pages) {
        Ok(()) => 0,
        Err(e) => e.refusal.number(),
    }
}

// The place where the walk of a log ends.
#[unsafe(no_mangle)]
pub extern "C" fn timed_wal_end(log: &[u8]) -> usize
    ensures { result ≡ end_of log.now }
{
    wal::end_of(log)
}

// How many of the lent pages are free, page by page: how the count was made before it was read off the map.
#[unsafe(no_mangle)]
pub extern "C" fn timed_free_pages(pages: &[u8]) -> u64
    ensures { result ≡ free_pages pages.now (pages_in pages.now) 0 }
{
    let n = pages.len() / page::PAGE_BYTES;
    let mut total: u64 = 0;
    for i in 0..n {
        total += page::inner::free_bit(pages, i) as u64;
    }
    total
}

// The ones of a map of at most 65,536 bytes; of a longer one 0.
#[unsafe(no_mangle)]
pub extern "C" fn timed_ones(map: &[u8]) -> u64
    ensures { result ≡ pick (leb (length map.now) 65536) (ones_of map.now) 0 }
{
    if map.len() > 65536 {
        return 0;
    }
    page::inner::ones(map)
}
