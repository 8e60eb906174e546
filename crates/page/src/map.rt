// The map of free pages, a bit for each page.
ghost use Rattle.std.specs.Prelude.{◌≡◌, ◌++◌, ℕ, ◌+◌, ◌*◌, ◌≤◌, ◌<◌, length, drop};
ghost use Rattle.page.specs.FreeMap.{free_bit, bits, map_bytes};

use crate::inner::free_bit;

// The bits of the eight pages from i on, the lowest first.
fn map_byte(pages: &[u8], i: usize) -> u8
    requires { i < 65536 }
    ensures { result ≡ bits pages.now 8 i }
{
    let mut b: u8 = 0;
    for j in (0..8).rev() {
        b = 2 * b + free_bit(pages, i + j);
    }
    b
}

// Writes the first n bytes of the map.
pub fn fill(pages: &[u8], map: &mut [u8], n: usize)
    requires { (n ≤ length map.old) × (n ≤ 4096) }
    ensures { map.new ≡ map_bytes pages.now n 0 ++ drop n map.old }
{
    for m in 0..n {
        map[m] = map_byte(pages, 8 * m);
    }
}
