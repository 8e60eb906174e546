// Finding with guesses: for the remainder of a number, where in the index it was found last. A guess is checked against the log, so
// no promise rests on what is kept.
ghost use Rattle.std.specs.Prelude.{◌≡◌, ◌≤◌, ◌<◌, IfSome};
ghost use Rattle.std.specs.Option.{unwrap_or};
ghost use Rattle.index.specs.Places.{number, Places, Rising};
ghost use Rattle.index.specs.Index.{lookup};

use crate::inner::{number_of, position};
use endian::TxnNumber;

// How many guesses are kept: a prime, so that numbers that agree in their low bits do not meet.
pub const GUESSES: usize = 4093;

// The place at a guess, if its number is t.
fn guessed(log: &[u8], a: &[u32], t: TxnNumber, guess: usize) -> Option<u32>
    requires places { Places log.now a.now }
    requires rising { Rising (number log.now) a.now }
    ensures { IfSome result (λ p. (1 ≤ p) × (p ≡ lookup (number log.now) t.0 a.now)) }
{
    let p = *a.get(guess)?;
    if number_of(log, p) == t.0 {
        return Some(p);
    }
    None
}

// Behind where the number before the one of remainder r was found last.
fn further(guesses: &[u32; GUESSES], r: usize) -> usize
    requires { r < 4093 }
{
    let before = if r == 0 { GUESSES - 1 } else { r - 1 };
    guesses[before] as usize + 1
}

// Finds by search, and keeps where.
fn searched(
    log: &[u8],
    a: &[u32],
    t: TxnNumber,
    r: usize,
    guesses: &mut [u32; GUESSES],
) -> Option<u32>
    requires places { Places log.now a.now }
    requires rising { Rising (number log.now) a.now }
    requires r_bound { r < 4093 }
    ensures found { unwrap_or result 0 ≡ lookup (number log.now) t.0 a.now }
    ensures real { IfSome result (λ p. 1 ≤ p) }
{
    let i = position(log, a, t)?;
    guesses[r] = (i % 4294967296) as u32;
    Some(a[i])
}

// Finds behind where the number before was found, else by search, and keeps where.
fn afar(log: &[u8], a: &[u32], t: TxnNumber, r: usize, guesses: &mut [u32; GUESSES]) -> Option<u32>
    requires places { Places log.now a.now }
    requires rising { Rising (number log.now) a.now }
    requires r_bound { r < 4093 }
    ensures found { unwrap_or result 0 ≡ lookup (number log.now) t.0 a.now }
    ensures real { IfSome result (λ p. 1 ≤ p) }
{
    let n = further(guesses, r);
    let Some(p) = guessed(log, a, t, n) else {
        return searched(log, a, t, r, guesses);
    };
    guesses[r] = (n % 4294967296) as u32;
    Some(p)
}

// The place in an index whose number is t, as `find` gives it.
pub fn near(log: &[u8], a: &[u32], t: TxnNumber, guesses: &mut [u32; GUESSES]) -> Option<u32>
    requires places { Places log.now a.now }
    requires rising { Rising (number log.now) a.now }
    ensures found { unwrap_or result 0 ≡ lookup (number log.now) t.0 a.now }
    ensures real { IfSome result (λ p. 1 ≤ p) }
{
    let r = (t.0 % 4093) as usize;
    let g = guesses[r] as usize;
    if let Some(p) = guessed(log, a, t, g) {
        return Some(p);
    }
    afar(log, a, t, r, guesses)
}
