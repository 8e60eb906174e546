// Whether two runs of bytes are the same.
ghost use Rattle.std.specs.Prelude.{◌≡◌, ◌≤◌, length};
ghost use Rattle.rules.specs.Shape.{same, stamped};

use endian::inner::{short_at, u64_at};

// Eight bytes at a time, then the rest.
pub fn same(a: &[u8], b: &[u8]) -> bool
    ensures { result ≡ same a.now b.now }
{
    if a.len() != b.len() {
        return false;
    }
    let mut i: usize = 0;
    while i + 8 <= a.len() {
        if u64_at(a, i) != u64_at(b, i) {
            return false;
        }
        i += 8;
    }
    short_at(a, i) == short_at(b, i)
}

// The same of a tuple that is to be stamped as deleted by transaction x: its bytes but for xmax and the deleted byte.
pub fn same_stamped(t: &[u8], x: u64, u: &[u8]) -> bool
    requires { (24 ≤ length t.now) × (length t.now ≡ length u.now) }
    ensures { result ≡ same (stamped x t.now) u.now }
{
    if u64_at(t, 0) != u64_at(u, 0) {
        return false;
    }
    if u64_at(u, 8) != x {
        return false;
    }
    if u[16] != 1 {
        return false;
    }
    same(&t[17..], &u[17..])
}
