// Blocks of transaction numbers: the first Begins and endings of each are collected, and the entries of its transactions tested by them.
ghost use Rattle.std.specs.Option.{unwrap_or};
ghost use Rattle.std.specs.Prelude.{◌≡◌, IfSome, not, ◌+◌, ◌≤◌, ◌<◌, length, eqb};
ghost use Rattle.endian.specs.Pick.{pick};
ghost use Rattle.wal.specs.Entry.{begin};
ghost use Rattle.wal.specs.Read.{length_at};
ghost use Rattle.wal.specs.Prefix.{entry_in, said, Stands, Met, before};
ghost use Rattle.rules.specs.Order.{begun, is_open};
ghost use Rattle.order.specs.First.{reach};
ghost use Rattle.order.specs.Blocks.{top_number, Gathered, Blocked, in_block, is_before, Telling, right_in, FirstWrong, every_number};

use crate::inner::kinds::{is_begin, is_checkpoint, is_end};
use crate::{Block, Holding, TOP};
use change::inner::is_change;
use endian::TxnNumber;
use index::inner::build;
use index::inner::collect::{Held, offer};
use index::inner::near::{GUESSES, near};
use wal::inner::known_at;
use wal::{EntryView, FIRST, Reading};

// Nothing is collected yet, of any number.
fn nothing() -> Holding
    ensures { (result.begins.len ≡ 0) × (result.ends.len ≡ 0) × (result.begins.hi.0 ≡ top_number) × (result.ends.hi.0 ≡ top_number) }
{
    let none = Held { len: 0, hi: TOP };
    Holding {
        begins: none,
        ends: none,
    }
}

// Takes an entry in, where it is a Begin or an ending.
fn take_in(
    log: &[u8],
    begins: &mut [u32],
    ends: &mut [u32],
    lo: TxnNumber,
    held: Holding,
    v: EntryView,
) -> Holding
    requires log_len_bound { length log.now < reach }
    requires in_bounds { (2 ≤ length begins.old) × (2 ≤ length ends.old) }
    requires met { Met log.now v.place }
    requires stands { Stands log.now v.place }
    requires v_value { v ≡ entry_in log.now v.place }
    requires gathered { Gathered log.now lo.0 v.place held begins.old ends.old }
    ensures { Gathered log.now lo.0 (v.place + length_at log.now v.place) result begins.new ends.new }
{
    if is_begin(v.kind) {
        let begins = offer(log, begins, lo, held.begins, v.place as u32);
        return Holding {
            begins,
            ends: held.ends,
        };
    }
    if is_end(v.kind) {
        let ends = offer(log, ends, lo, held.ends, v.place as u32);
        return Holding {
            begins: held.begins,
            ends,
        };
    }
    held
}

// Collects the first Begins and endings before stop, of the numbers from lo on. A step of this walk and of the next is as long as its entry, so there is no index to count; `let .. else` is the form of
// docs/ARCHITECTURE.md.
fn collect(log: &[u8], begins: &mut [u32], ends: &mut [u32], lo: TxnNumber, stop: usize) -> Holding
    requires log_len_bound { length log.now < reach }
    requires in_bounds { (2 ≤ length begins.old) × (2 ≤ length ends.old) }
    requires met { Met log.now stop }
    ensures { Gathered log.now lo.0 stop result begins.new ends.new }
{
    let mut held = nothing();
    let mut at = FIRST;
    loop {
        let Reading::Whole(v) = known_at(log, at, stop) else {
            return held;
        };
        held = take_in(log, begins, ends, lo, held, v);
        at = at + v.length;
    }
}

// Makes a block of what was collected.
fn settle(
    log: &[u8],
    begins: &mut [u32],
    ends: &mut [u32],
    lo: TxnNumber,
    stop: usize,
    held: Holding,
) -> Block
    requires met { Met log.now stop }
    requires gathered { Gathered log.now lo.0 stop held begins.old ends.old }
    ensures stop_value { (result.stop ≡ stop) × (result.lo.0 ≡ lo.0) }
    ensures blocked { Blocked log.now result begins.new ends.new }
{
    let hi = held.begins.hi.min(held.ends.hi);
    let begins = build(log, begins, held.begins.len);
    let ends = build(log, ends, held.ends.len);
    Block {
        stop,
        lo,
        hi,
        begins,
        ends,
    }
}

// The block of the numbers from lo on.
fn next_block(log: &[u8], begins: &mut [u32], ends: &mut [u32], lo: TxnNumber, stop: usize) -> Block
    requires log_len_bound { length log.now < reach }
    requires in_bounds { (2 ≤ length begins.old) × (2 ≤ length ends.old) }
    requires met { Met log.now stop }
    ensures stop_value { (result.stop ≡ stop) × (result.lo.0 ≡ lo.0) }
    ensures blocked { Blocked log.now result begins.new ends.new }
{
    let held = collect(log, begins, ends, lo, stop);
    settle(log, begins, ends, lo, stop, held)
}

// Whether there is a place and it is before `at`.
fn is_before(place: Option<u32>, at: usize) -> bool
    requires { IfSome place (λ q. 1 ≤ q) }
    ensures { result ≡ is_before (unwrap_or place 0) at }
{
    place.is_some_and(|q| (q as usize) < at)
}

// Where in two indexes numbers of the same remainder were found last.
#[derive(Drop)]
struct Guesses {
    begins: [u32; GUESSES],
    ends: [u32; GUESSES],
}

// A log, and the first Begins and endings of a block of its transactions, in two indexes.
#[derive(Drop)]
struct Indexed<'a> {
    log: &'a [u8],
    stop: usize,
    lo: TxnNumber,
    hi: TxnNumber,
    begins: &'a [u32],
    ends: &'a [u32],
    ghost telling: { Telling log.now lo.0 hi.0 stop begins.now ends.now },
}

impl<'a> Indexed<'a> {
    // Whether an entry of the block's, of a transaction that is not 0, is in order, by its first Begin and its first ending.
    fn in_turn(&self, v: EntryView, guesses: &mut Guesses) -> bool
        requires met { Met self.now.log.now v.place }
        requires in_block { (v.place ≤ self.now.stop) × (self.now.lo.0 ≤ v.txn.0) × (v.txn.0 ≤ self.now.hi.0) }
        ensures { result ≡ pick (eqb v.kind begin) (not (begun (before self.now.log.now v.place) v.txn.0)) (is_open (before self.now.log.now v.place) v.txn.0) }
    {
        let b = near(self.log, self.begins, v.txn, &mut guesses.begins);
        let started = is_before(b, v.place);
        if is_begin(v.kind) {
            return !started;
        }
        if !started {
            return false;
        }
        let e = near(self.log, self.ends, v.txn, &mut guesses.ends);
        !is_before(e, v.place)
    }

    // Whether an entry is in order, if its number is of the block.
    fn right(&self, v: EntryView, guesses: &mut Guesses) -> bool
        requires met { Met self.now.log.now v.place }
        requires v_value { v ≡ entry_in self.now.log.now v.place }
        requires at_le_stop { v.place ≤ self.now.stop }
        ensures { result ≡ right_in self.now.lo.0 self.now.hi.0 (before self.now.log.now v.place) (said self.now.log.now v.place) }
    {
        if v.txn < self.lo || self.hi < v.txn {
            return true;
        }
        if is_checkpoint(v.kind) {
            return true;
        }
        if v.txn == TxnNumber(0) {
            return is_change(v.kind);
        }
        self.in_turn(v, guesses)
    }

    // The place of the first entry before stop that is out of order and has a number of the block, or stop.
    fn first_wrong(&self, stop: usize) -> usize
        requires met { Met self.now.log.now stop }
        requires stop_le_stop { stop ≤ self.now.stop }
        ensures { FirstWrong self.now.log.now (in_block self.now.lo.0 self.now.hi.0) stop result }
    {
        let mut guesses = Guesses {
            begins: [0u32; GUESSES],
            ends: [0u32; GUESSES],
        };
        let mut at = FIRST;
        loop {
            let Reading::Whole(v) = known_at(self.log, at, stop) else {
                return stop;
            };
            if !self.right(v, &mut guesses) {
                return at;
            }
            at = at + v.length;
        }
    }
}

// The same by the block that two arrays hold.
fn tested(log: &[u8], stop: usize, b: Block, begins: &[u32], ends: &[u32]) -> usize
    requires met { Met log.now stop }
    requires stop_le_stop { stop ≤ b.stop }
    requires blocked { Blocked log.now b begins.now ends.now }
    ensures { FirstWrong log.now (in_block b.lo.0 b.hi.0) stop result }
{
    let block = Indexed {
        log,
        stop: b.stop,
        lo: b.lo,
        hi: b.hi,
        begins: &begins[..b.begins],
        ends: &ends[..b.ends],
    };
    block.first_wrong(stop)
}

// The place of the first entry before stop that is out of order, or stop: block after block. Which number the next begins with is known only once one is made, so no range is gone through.
pub fn by_blocks(log: &[u8], stop: usize, begins: &mut [u32], ends: &mut [u32]) -> usize
    requires log_len_bound { length log.now < reach }
    requires in_bounds { (2 ≤ length begins.old) × (2 ≤ length ends.old) }
    requires met { Met log.now stop }
    ensures { FirstWrong log.now every_number stop result }
{
    let mut best = stop;
    let mut b = next_block(log, begins, ends, TxnNumber(0), stop);
    loop {
        best = tested(log, best, b, begins, ends);
        let last = b.hi == TOP;
        if last {
            return best;
        }
        b = next_block(log, begins, ends, TxnNumber(b.hi.0 + 1), best);
    }
}
