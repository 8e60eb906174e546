// The first clash of a log, by one walk for each group of pages.
ghost use Rattle.std.specs.Prelude.{◌≡◌, true, false, ◌+◌, ◌-◌, ◌%◌, ◌^◌, ◌≤◌, ◌<◌, length, get_or, eqb};
ghost use Rattle.wal.specs.Read.{length_at};
ghost use Rattle.wal.specs.Prefix.{Met, Stands, said, before};
ghost use Rattle.rules.specs.Shape.{is_change, is_shaped, page_of, slot_of};
ghost use Rattle.states.specs.Clash.{clash_after};
ghost use Rattle.states.specs.State.{state_after, state_of};
ghost use Rattle.cells.specs.Cell.{Starts, Blank};
ghost use Rattle.cells.specs.Measure.{Sound, FirstBeyond};
ghost use Rattle.clash.specs.Newest.{on_slot, newest_on, kept, Newest};
ghost use Rattle.clash.specs.Open.{is_of, Opens, Quiet};
ghost use Rattle.clash.specs.First.{Shaped, clash_in, FirstIn};
ghost use Rattle.clash.specs.Group.{Known, Ground, cell_for, noted};

use cells::inner::{cell_at, clear, group_end, page_at};
use change::inner::is_change;
use endian::TxnNumber;
use endian::inner::{put_u16, u16_at, u64_at};
use states::inner::{State, look_back, state_after};
use wal::FIRST;
use wal::inner::{place_before, standing};

// Whether v is a place whose entry is of transaction t.
fn is_of(log: &[u8], t: TxnNumber, v: u32) -> bool
    requires { 1 < v → v + 20 ≤ length log.now }
    ensures { result ≡ is_of log.now t.0 v }
{
    v > 1 && TxnNumber(u64_at(log, v as usize + 12)) == t
}

// Notes the entry at `at`, after which its transaction t is open: in a free place of its remainder. Where both are of others, nothing is known any more.
fn enter_open(log: &[u8], at: usize, t: TxnNumber, opens: &mut [u32; 32766])
    requires log_len_bound { (length log.now ≤ 16777216) × (t.0 ≡ (said log.now at).txn) × (state_after (said log.now at).kind ≡ 1) }
    requires met { Met log.now at }
    requires stands { Stands log.now at }
    requires opens { Opens log.now at opens.old }
    ensures { Opens log.now (at + length_at log.now at) opens.new }
{
    let r = (t.0 % 16383) as usize;
    let v = opens[r];
    if is_of(log, t, v) {
        return;
    }
    let w = opens[r + 16383];
    if is_of(log, t, w) {
        return;
    }
    if v == 0 {
        opens[r] = at as u32;
        return;
    }
    if w == 0 {
        opens[r + 16383] = at as u32;
        return;
    }
    opens[r] = 1;
}

// Notes the entry at `at`, after which its transaction t is not open: its place becomes free.
fn enter_ended(log: &[u8], at: usize, t: TxnNumber, opens: &mut [u32; 32766])
    requires t_value { (t.0 ≡ (said log.now at).txn) × (state_after (said log.now at).kind ≡ 1 → ⊥) }
    requires met { Met log.now at }
    requires stands { Stands log.now at }
    requires opens { Opens log.now at opens.old }
    ensures { Opens log.now (at + length_at log.now at) opens.new }
{
    let r = (t.0 % 16383) as usize;
    if is_of(log, t, opens[r]) {
        opens[r] = 0;
        return;
    }
    if !is_of(log, t, opens[r + 16383]) {
        return;
    }
    opens[r + 16383] = 0;
}

// Notes the entry at `at`, of transaction t. Of transaction 0 nothing is kept: none clashes with it.
fn enter(log: &[u8], at: usize, kind: u8, t: TxnNumber, opens: &mut [u32; 32766])
    requires log_len_bound { (length log.now ≤ 16777216) × (kind ≡ (said log.now at).kind) × (t.0 ≡ (said log.now at).txn) }
    requires met { Met log.now at }
    requires stands { Stands log.now at }
    requires opens { Opens log.now at opens.old }
    ensures { Opens log.now (at + length_at log.now at) opens.new }
{
    if t == TxnNumber(0) {
        return;
    }
    if state_after(kind) == State::Open {
        enter_open(log, at, t, opens);
        return;
    }
    enter_ended(log, at, t, opens);
}

// Whether transaction u is open before `at`; by stepping backward where nothing is known of its remainder.
fn is_open(log: &[u8], at: usize, opens: &[u32; 32766], u: TxnNumber) -> bool
    requires u_nonzero { 0 < u.0 }
    requires met { Met log.now at }
    requires opens { Opens log.now at opens.now }
    ensures { result ≡ eqb (state_of u.0 (before log.now at)) 1 }
{
    let r = (u.0 % 16383) as usize;
    let v = opens[r];
    if v == 1 {
        return look_back(log, at, u) == State::Open;
    }
    is_of(log, u, v) || is_of(log, u, opens[r + 16383])
}

// Whether the change at `at`, by transaction t, clashes with the newest one on its slot, which is by transaction u.
fn clashes_with(log: &[u8], at: usize, t: TxnNumber, u: TxnNumber, opens: &[u32; 32766]) -> bool
    requires t_value { (t.0 ≡ (said log.now at).txn) × (is_change (said log.now at) ≡ true) × (u.0 ≡ newest_on (page_of (said log.now at)) (slot_of (said log.now at)) 0 (before log.now at)) }
    requires met { Met log.now at }
    requires opens { Opens log.now at opens.now }
    ensures { result ≡ clash_after (before log.now at) (said log.now at) }
{
    u != TxnNumber(0) && u != t && is_open(log, at, opens, u)
}

// What a cell keeps of transaction t.
fn kept_of(t: TxnNumber) -> u16
    ensures { result ≡ kept t.0 }
{
    if t == TxnNumber(0) {
        return 0;
    }
    (t.0 % 65532) as u16 + 1
}

// The cell of the slot that the entry at `at` changes, if its page is one of the group.
fn cell_for(
    log: &[u8],
    at: usize,
    kind: u8,
    starts: &[u32; 4097],
    lo: usize,
    hi: usize,
) -> Option<usize>
    requires kind_value { (kind ≡ (said log.now at).kind) × (is_shaped (said log.now at) ≡ true) × (lo ≤ hi) × (hi ≤ 4096) }
    requires stands { Stands log.now at }
    requires lo_bound { is_change (said log.now at) ≡ true → lo ≤ page_of (said log.now at) → page_of (said log.now at) < hi → get_or starts.now lo 0 ≤ get_or starts.now (page_of (said log.now at)) 0 }
    requires at_bound { is_change (said log.now at) ≡ true → lo ≤ page_of (said log.now at) → page_of (said log.now at) < hi
        → get_or starts.now (page_of (said log.now at)) 0 - get_or starts.now lo 0 + slot_of (said log.now at) < 327680 }
    ensures { result ≡ cell_for starts.now lo hi (said log.now at) }
{
    if !is_change(kind) {
        return None;
    }
    let i = page_at(log, at, hi);
    if i < lo {
        return None;
    }
    if i >= hi {
        return None;
    }
    let k = u16_at(log, at + 35) as usize;
    Some(cell_at(starts, lo, i, k))
}

// Whether the entry at place changes this slot of this page.
fn on_slot(log: &[u8], place: usize, page: u64, slot: u16) -> bool
    requires stands { Stands log.now place }
    requires place_value { is_shaped (said log.now place) ≡ true }
    ensures { result ≡ on_slot page slot (said log.now place) }
{
    is_change(log[place + 20]) && u64_at(log, place + 27) == page && slot == u16_at(log, place + 35)
}

// The transaction of the newest change on a slot before place, by stepping backward; 0 for none.
fn newest_back(log: &[u8], place: usize, page: u64, slot: u16) -> TxnNumber
    requires met { Met log.now place }
    requires shaped { Shaped log.now place }
    ensures { result.0 ≡ newest_on page slot 0 (before log.now place) }
{
    let mut p = place;
    // A step goes back to the entry before, as far as that one is long: there is no index to count.
    loop {
        if p <= FIRST {
            return TxnNumber(0);
        }
        p = place_before(log, p);
        if on_slot(log, p, page, slot) {
            return TxnNumber(u64_at(log, p + 12));
        }
    }
}

// Whether the change at `at`, by transaction t, clashes; by stepping backward to the newest one on its slot.
fn clashes_back(log: &[u8], at: usize, t: TxnNumber, opens: &[u32; 32766]) -> bool
    requires t_value { (t.0 ≡ (said log.now at).txn) × (is_change (said log.now at) ≡ true) × (is_shaped (said log.now at) ≡ true) }
    requires met { Met log.now at }
    requires stands { Stands log.now at }
    requires shaped { Shaped log.now at }
    requires opens { Opens log.now at opens.now }
    ensures { result ≡ clash_after (before log.now at) (said log.now at) }
{
    let u = newest_back(log, at, u64_at(log, at + 27), u16_at(log, at + 35));
    clashes_with(log, at, t, u, opens)
}

// Whether the place v may tell of a transaction other than t that a cell keeps as x.
fn may_clash(log: &[u8], t: TxnNumber, x: u16, v: u32) -> bool
    requires { 1 < v → v + 20 ≤ length log.now }
    ensures { result ≡ false → Quiet log.now t.0 x v }
{
    if v <= 1 {
        return v != 0;
    }
    let u = TxnNumber(u64_at(log, v as usize + 12));
    u != t && kept_of(u) == x
}

// The same by x, which the cell of the slot keeps: no clash where of that remainder no transaction is open but t, or such as x does not keep; else the log is asked.
fn clashes_by_cell(log: &[u8], at: usize, t: TxnNumber, x: u16, opens: &[u32; 32766]) -> bool
    requires t_value { (t.0 ≡ (said log.now at).txn) × (is_change (said log.now at) ≡ true) × (is_shaped (said log.now at) ≡ true) }
    requires met { Met log.now at }
    requires stands { Stands log.now at }
    requires shaped { Shaped log.now at }
    requires opens { Opens log.now at opens.now }
    requires newest { Newest log.now at (page_of (said log.now at)) (slot_of (said log.now at)) x }
    ensures { result ≡ clash_after (before log.now at) (said log.now at) }
{
    if x == 0 {
        return false;
    }
    let r = (x as usize - 1) % 16383;
    if may_clash(log, t, x, opens[r]) {
        return clashes_back(log, at, t, opens);
    }
    if may_clash(log, t, x, opens[r + 16383]) {
        return clashes_back(log, at, t, opens);
    }
    false
}

// Whether the entry at `at` clashes on a page of the group; if it does not, its cell keeps its transaction.
fn touch(
    log: &[u8],
    at: usize,
    kind: u8,
    t: TxnNumber,
    starts: &[u32; 4097],
    lo: usize,
    hi: usize,
    space: &mut [u8],
    opens: &[u32; 32766],
) -> bool
    requires kind_value { (kind ≡ (said log.now at).kind) × (is_shaped (said log.now at) ≡ true) × (lo ≤ hi) × (hi ≤ 4096) }
    requires t_value { (t.0 ≡ (said log.now at).txn) × (length space.old ≡ 655360) }
    requires met { Met log.now at }
    requires stands { Stands log.now at }
    requires shaped { Shaped log.now at }
    requires known { Known log.now starts.now space.old lo hi at }
    requires opens { Opens log.now at opens.now }
    ensures value { result ≡ clash_in lo hi log.now at }
    ensures space_after { space.new ≡ noted result (cell_for starts.now lo hi (said log.now at)) t.0 space.old }
{
    let Some(c) = cell_for(log, at, kind, starts, lo, hi) else {
        return false;
    };
    if clashes_by_cell(log, at, t, u16_at(space, 2 * c), opens) {
        return true;
    }
    put_u16(space, 2 * c, kept_of(t));
    false
}

// The first clash before limit on a page of the group, or limit; over zeroed space.
fn clash_in(
    log: &[u8],
    limit: usize,
    starts: &[u32; 4097],
    lo: usize,
    hi: usize,
    space: &mut [u8],
) -> usize
    requires log_len_bound { (length log.now ≤ 16777216) × (length space.old ≡ 655360) }
    requires met { Met log.now limit }
    requires ground { Ground log.now starts.now limit lo hi }
    requires blank { Blank space.old }
    ensures { FirstIn lo hi log.now limit result }
{
    let mut opens = [0u32; 32766];
    let mut at = FIRST;
    // A step is as long as the entry itself: there is no index to count.
    while at < limit {
        let v = standing(log, at);
        if touch(log, at, v.kind, v.txn, starts, lo, hi, space, &opens) {
            return at;
        }
        enter(log, at, v.kind, v.txn, &mut opens);
        at += v.length;
    }
    limit
}

// Whether the entry at `at` clashes on a page that is none of the first n.
fn touch_beyond(
    log: &[u8],
    at: usize,
    kind: u8,
    t: TxnNumber,
    n: usize,
    opens: &[u32; 32766],
) -> bool
    requires kind_value { (kind ≡ (said log.now at).kind) × (t.0 ≡ (said log.now at).txn) × (is_shaped (said log.now at) ≡ true) }
    requires met { Met log.now at }
    requires stands { Stands log.now at }
    requires shaped { Shaped log.now at }
    requires opens { Opens log.now at opens.now }
    ensures { result ≡ clash_in n (2 ^ 64) log.now at }
{
    if !is_change(kind) {
        return false;
    }
    let page = u64_at(log, at + 27);
    if page < n as u64 {
        return false;
    }
    clashes_back(log, at, t, opens)
}

// The first clash before limit on a page that is none of the first n, or limit.
// Kept (c): one walk for both over a closure was tried, with the closure over `touch_beyond`. An FnMut that may be called at any arguments (IsAlwaysCallable) did not prove of it, since
// `touch_beyond` asks that the entry stands and that `opens` tells of those before it; `touch` asks that its cells do too.
fn clash_beyond(log: &[u8], limit: usize, n: usize) -> usize
    requires log_len_bound { length log.now ≤ 16777216 }
    requires met { Met log.now limit }
    requires shaped { Shaped log.now limit }
    ensures { FirstIn n (2 ^ 64) log.now limit result }
{
    let mut opens = [0u32; 32766];
    let mut at = FIRST;
    // A step is as long as the entry itself: there is no index to count.
    while at < limit {
        let v = standing(log, at);
        if touch_beyond(log, at, v.kind, v.txn, n, &opens) {
            return at;
        }
        enter(log, at, v.kind, v.txn, &mut opens);
        at += v.length;
    }
    limit
}

// The first clash before stop, or stop: group by group of the first n pages, then the others, of which the first change is at beyond.
pub fn clash(
    log: &[u8],
    stop: usize,
    n: usize,
    beyond: usize,
    starts: &[u32; 4097],
    space: &mut [u8; 655360],
) -> usize
    requires n_bound { (n ≤ 4096) × (length log.now ≤ 16777216) }
    requires met { Met log.now stop }
    requires sound { Sound log.now stop }
    requires starts { Starts (before log.now stop) n starts.now }
    requires first_beyond { FirstBeyond log.now stop n beyond }
    ensures { FirstIn 0 (2 ^ 64) log.now stop result }
{
    let mut limit = stop;
    let mut lo = 0;
    // A step is as many pages as fit into one group: there is no index to count.
    while lo < n {
        let hi = group_end(starts, lo, n);
        clear(space);
        limit = clash_in(log, limit, starts, lo, hi, &mut space[..]);
        lo = hi;
    }
    if beyond < limit {
        return clash_beyond(log, limit, n);
    }
    limit
}
