// The transaction table, for callers that know the log to be accepted. Its walks over the log stay loops with `let .. else`, the form of docs/ARCHITECTURE.md: a step is as long as its entry, so there is no index to count.
ghost use Rattle.std.specs.Prelude.{◌≡◌, true, ◌++◌, map, ℕ, ◌+◌, ◌*◌, ◌/◌, ◌≤◌, ◌<◌, length, get_or, set, take, drop};
ghost use Rattle.wal.specs.Read.{first};
ghost use Rattle.wal.specs.Walk.{entries, end_of};
ghost use Rattle.wal.specs.Prefix.{Met, onward};
ghost use Rattle.rules.specs.Order.{count, is_begin};
ghost use Rattle.table.specs.Flat.{stride, flat_after};
ghost use Rattle.table.specs.Rows.{blank, rows, Full, Rising, Found};
ghost use Rattle.table.specs.Telling.{reach, guessed, Orderly, new_row, begun_rows, Span, tell, told_by, Entered, Untold};

use crate::rows::{key_at, put, row_at, sort, sorted};
use crate::{Row, STRIDE};
use endian::{Lsn, TxnNumber};
use sorting::inner::binary_search_by_key;
use wal::inner::known_at;
use wal::{FIRST, Kind, Reading};

pub mod records;

// The type of an entry that begins a transaction. A number and no Kind: two walks look at it at each entry, and tests by Kind::of are no plainer.
const BEGIN: u8 = 1;

// The numbers of a row that rows are sorted by.
const NUMBER: usize = 0;

const FIRST_LSN: usize = 1;

// How many guesses are kept, one for each remainder of a transaction number.
pub const GUESSES: usize = 16384;

// The row of transaction t, by halves of the rows.
fn search(a: &[u64], t: TxnNumber) -> Option<usize>
    requires { Rising 0 (rows a.now) }
    ensures { Found (rows a.now) t.0 result }
{
    binary_search_by_key(a.len() / STRIDE, |i| key_at(a, i, NUMBER), t.0)
}

// Where the guess for transaction t is kept.
fn slot(t: TxnNumber) -> usize
    ensures { result < guessed }
{
    (t.0 % 16384) as usize
}

// Keeps row i as the guess for transaction t.
fn keep(guesses: &mut [u32], t: TxnNumber, i: usize)
    requires { (guessed ≤ length guesses.old) × (i < 4294967296) }
{
    let h = slot(t);
    guesses[h] = i as u32;
}

// The same as `search`, after the guess that is kept for t; what is found is kept.
fn find(a: &[u64], guesses: &mut [u32], t: TxnNumber) -> Option<usize>
    requires rising { Rising 0 (rows a.now) }
    requires guessed_in_bounds { (guessed ≤ length guesses.old) × (length a.now / stride < 4294967296) }
    ensures { Found (rows a.now) t.0 result }
{
    let h = slot(t);
    let g = guesses[h] as usize;
    if g < a.len() / STRIDE && key_at(a, g, NUMBER) == t.0 {
        return Some(g);
    }
    let r = search(a, t)?;
    keep(guesses, t, r);
    Some(r)
}

// The row after one more entry of its transaction, of a type and an LSN.
#[tactic(auto, unfolding(crate::specs::Telling::told_by, wal::specs::Kind::kind_of, rules::specs::Shape::is_changing))]
fn told(r: Row, kind: u8, lsn: Lsn) -> Row
    requires { r.changes < 18446744073709551615 }
    ensures { result ≡ told_by kind lsn r }
{
    match Kind::of(kind) {
        Some(Kind::Commit) => Row {
            outcome: 1,
            ending: lsn,
            ..r
        },
        Some(Kind::Rollback) => Row {
            outcome: 2,
            ending: lsn,
            ..r
        },
        Some(Kind::Insert | Kind::Delete | Kind::Update) => Row {
            changes: r.changes + 1,
            last: lsn,
            ..r
        },
        _ => r,
    }
}

// Enters an entry of transaction t, after `seen` Begins: the row of a Begin is guessed to be the next one. Says how many Begins were seen then.
fn enter(a: &mut [u64], guesses: &mut [u32], seen: usize, kind: u8, t: TxnNumber, lsn: Lsn) -> usize
    requires rising { Rising 0 (rows a.old) }
    requires by_index { (i : ℕ) → i < length (rows a.old) → (get_or (rows a.old) i blank).changes < 18446744073709551615 }
    requires full { Full a.old × (guessed ≤ length guesses.old) × (length a.old / stride < 4294967296) × (seen < 4294967296) }
    ensures entered { Entered (rows a.old) kind t.0 lsn (rows a.new) }
    ensures upper_bound { result ≤ seen + 1 }
{
    if t.0 == 0 {
        return seen;
    }
    if kind == BEGIN {
        keep(guesses, t, seen);
        return seen + 1;
    }
    let Some(j) = find(a, guesses, t) else {
        return seen;
    };
    let r = row_at(a, j);
    put(a, j, told(r, kind, lsn));
    seen
}

// Enters the entries from a place on.
fn enter_all(log: &[u8], from: usize, end: usize, a: &mut [u64], guesses: &mut [u32])
    requires orderly { Orderly log.now }
    requires met { Met log.now from }
    requires log_value { (end_of log.now ≡ end) × (length log.now < reach) }
    requires untold { Untold log.now from (rows a.old) }
    requires full { Full a.old × (guessed ≤ length guesses.old) × (length a.old / stride < 4294967296) }
    ensures { rows a.new ≡ map (tell (entries log.now)) (rows a.old) }
{
    let mut seen: usize = 0;
    let mut at = from;
    loop {
        let Reading::Whole(e) = known_at(log, at, end) else {
            return;
        };
        let t = e.txn;
        let l = e.lsn;
        seen = enter(a, guesses, seen, e.kind, t, l);
        at = at + e.length;
    }
}

// The row of a Begin, before any other entry of its transaction.
fn new_row(t: TxnNumber, l: Lsn) -> Row
    ensures { result ≡ new_row t l }
{
    Row {
        number: t,
        first: l,
        outcome: 0,
        changes: 0,
        ending: Lsn(0),
        last: Lsn(0),
    }
}

// How many Begins were taken, and where the next one stands, or the end.
#[derive(Clone, Copy)]
pub struct Taken {
    pub count: usize,
    pub next: usize,
}

// Puts a row for each Begin from a place on, as long as there is room.
fn begins(log: &[u8], from: usize, end: usize, a: &mut [u64]) -> Taken
    requires met { Met log.now from }
    requires log_value { end_of log.now ≡ end }
    requires full { Full a.old }
    ensures span { Span log.now from (length a.old / stride) result.count result.next }
    ensures a_after { rows a.new ≡ take result.count (begun_rows (onward log.now from)) ++ drop result.count (rows a.old) }
{
    let room = a.len() / STRIDE;
    let mut n: usize = 0;
    let mut at = from;
    loop {
        let Reading::Whole(e) = known_at(log, at, end) else {
            return Taken { count: n, next: at };
        };
        if e.kind != BEGIN {
            at = at + e.length;
            continue;
        }
        if n == room {
            return Taken { count: n, next: at };
        }
        let t = e.txn;
        let l = e.lsn;
        put(a, n, new_row(t, l));
        n += 1;
        at = at + e.length;
    }
}

// Tells the rows of Begins from a place on by all entries, in any order of their numbers.
fn settle_sorted(log: &[u8], from: usize, end: usize, a: &mut [u64], guesses: &mut [u32])
    requires orderly { Orderly log.now }
    requires met { Met log.now from }
    requires log_value { (end_of log.now ≡ end) × (length log.now < reach) }
    requires a_value { rows a.old ≡ take (length a.old / stride) (begun_rows (onward log.now from)) }
    requires full { Full a.old × (guessed ≤ length guesses.old) × (length a.old / stride < 4294967296) }
    ensures { rows a.new ≡ map (tell (entries log.now)) (rows a.old) }
{
    sort(a, NUMBER);
    enter_all(log, from, end, a, guesses);
    sort(a, FIRST_LSN);
}

// The same; numbers that rise need no sort.
fn settle(log: &[u8], from: usize, end: usize, a: &mut [u64], guesses: &mut [u32])
    requires orderly { Orderly log.now }
    requires met { Met log.now from }
    requires log_value { (end_of log.now ≡ end) × (length log.now < reach) }
    requires a_value { rows a.old ≡ take (length a.old / stride) (begun_rows (onward log.now from)) }
    requires full { Full a.old × (guessed ≤ length guesses.old) × (length a.old / stride < 4294967296) }
    ensures { rows a.new ≡ map (tell (entries log.now)) (rows a.old) }
{
    if sorted(a, NUMBER) {
        enter_all(log, from, end, a, guesses);
        return;
    }
    settle_sorted(log, from, end, a, guesses);
}

// The rows of as many Begins from a place on as there is room for, in log order.
pub fn block(log: &[u8], from: usize, end: usize, a: &mut [u64], guesses: &mut [u32]) -> Taken
    requires orderly { Orderly log.now }
    requires met { Met log.now from }
    requires log_value { (end_of log.now ≡ end) × (length log.now < reach) }
    requires full { Full a.old × (guessed ≤ length guesses.old) }
    ensures span { Span log.now from (length a.old / stride) result.count result.next }
    ensures a_after { rows a.new ≡ map (tell (entries log.now)) (take result.count (begun_rows (onward log.now from))) ++ drop result.count (rows a.old) }
{
    let t = begins(log, from, end, a);
    let cut = STRIDE * t.count;
    settle(log, from, end, &mut a[..cut], guesses);
    t
}

// Puts row n for a Begin.
fn begin_row(a: &mut [u64], guesses: &mut [u32], n: usize, t: TxnNumber, l: Lsn)
    requires { Full a.old × (guessed ≤ length guesses.old) × (n < length a.old / stride) × (n < 4294967296) }
    ensures { rows a.new ≡ set (rows a.old) n (new_row t l) }
{
    put(a, n, new_row(t, l));
    keep(guesses, t, n);
}

// Enters an entry into the first n rows.
fn enter_front(a: &mut [u64], n: usize, guesses: &mut [u32], kind: u8, t: TxnNumber, lsn: Lsn)
    requires rising { Rising 0 (take n (rows a.old)) }
    requires by_index { (i : ℕ) → i < length (take n (rows a.old)) → (get_or (take n (rows a.old)) i blank).changes < 18446744073709551615 }
    requires n_in_bounds { (n ≤ length a.old / stride) × (guessed ≤ length guesses.old) × (n < 4294967296) }
    ensures entered { Entered (take n (rows a.old)) kind t.0 lsn (take n (rows a.new)) }
    ensures a_unchanged { drop n (rows a.new) ≡ drop n (rows a.old) }
{
    let cut = STRIDE * n;
    enter(&mut a[..cut], guesses, n, kind, t, lsn);
}

// The rows of all Begins, told by all entries, in one walk, as long as their numbers rise. Says whether they do.
fn rising(log: &[u8], end: usize, a: &mut [u64], guesses: &mut [u32]) -> bool
    requires orderly { Orderly log.now }
    requires log_value { (end_of log.now ≡ end) × (length log.now < reach) × (length (begun_rows (entries log.now)) ≤ length a.old / stride) }
    requires full { Full a.old × (guessed ≤ length guesses.old) }
    ensures a_after { result ≡ true → rows a.new ≡ map (tell (entries log.now)) (begun_rows (entries log.now)) ++ drop (length (begun_rows (entries log.now))) (rows a.old) }
    ensures a_unchanged { drop (length (begun_rows (entries log.now))) (rows a.new) ≡ drop (length (begun_rows (entries log.now))) (rows a.old) }
{
    let mut n: usize = 0;
    let mut last: u64 = 0;
    let mut at = FIRST;
    loop {
        let Reading::Whole(e) = known_at(log, at, end) else {
            return true;
        };
        let t = e.txn;
        let l = e.lsn;
        if e.kind != BEGIN {
            enter_front(a, n, guesses, e.kind, t, l);
            at = at + e.length;
            continue;
        }
        if t.0 <= last {
            return false;
        }
        begin_row(a, guesses, n, t, l);
        last = t.0;
        n += 1;
        at = at + e.length;
    }
}

// The rows of all Begins, told by all entries.
fn fill_rows(log: &[u8], end: usize, a: &mut [u64], guesses: &mut [u32])
    requires orderly { Orderly log.now }
    requires log_value { (end_of log.now ≡ end) × (length log.now < reach) × (length (begun_rows (entries log.now)) ≤ length a.old / stride) }
    requires full { Full a.old × (guessed ≤ length guesses.old) }
    ensures { rows a.new ≡ map (tell (entries log.now)) (begun_rows (entries log.now)) ++ drop (length (begun_rows (entries log.now))) (rows a.old) }
{
    if rising(log, end, a, guesses) {
        return;
    }
    block(log, FIRST, end, a, guesses);
}

// Fills the front of a table with the records of an accepted log's transactions.
pub fn fill_flat(log: &[u8], end: usize, table: &mut [u64], guesses: &mut [u32])
    requires orderly { Orderly log.now }
    requires log_value { (end_of log.now ≡ end) × (length log.now < reach) × (count is_begin (entries log.now) ≤ length table.old / stride) }
    requires guessed_in_bounds { guessed ≤ length guesses.old }
    ensures { table.new ≡ flat_after (entries log.now) table.old }
{
    let cut = STRIDE * (table.len() / STRIDE);
    fill_rows(log, end, &mut table[..cut], guesses);
}
