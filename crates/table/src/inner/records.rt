// The records of an accepted log's transactions: rows in blocks, from which each record is taken in turn.
ghost use Rattle.std.specs.Prelude.{◌≡◌, ◌+◌, ◌≤◌, ◌<◌, eqb, length, get_or, drop};
ghost use Rattle.endian.specs.Pick.{pick};
ghost use Rattle.wal.specs.Walk.{entries, end_of};
ghost use Rattle.wal.specs.Prefix.{Met, onward};
ghost use Rattle.rules.specs.Order.{count, is_begin};
ghost use Rattle.rules.specs.Recover.{records_of, table_after};
ghost use Rattle.table.specs.Telling.{reach, Orderly, begun_rows};
ghost use Rattle.table.specs.Holding.{Held, HeldTo, Next, no_record, due};

use crate::inner::{GUESSES, block};
use crate::rows::row_at;
use rules::{Answer, Record};
use wal::FIRST;

// How many numbers the rows of a block have: 10,920 rows.
const NUMBERS: usize = 65520;

// A block of rows: where the Begins behind them stand, the index of the first row's record, and how many rows there are.
#[derive(Drop)]
struct RowBlock {
    next: usize,
    base: usize,
    count: usize,
    rows: [u64; NUMBERS],
}

impl RowBlock {
    // Makes the block that begins with record i, whose Begin is the first from a place on.
    fn load(&mut self, log: &[u8], from: usize, end: usize, i: usize)
        requires orderly { Orderly log.now }
        requires met { Met log.now from }
        requires log_value { (end_of log.now ≡ end) × (length log.now < reach) }
        requires i_in_bounds { (i < length (begun_rows (entries log.now))) × (begun_rows (onward log.now from) ≡ drop i (begun_rows (entries log.now))) }
        ensures held { Held log.now self.new }
        ensures self_after { (self.new.base ≡ i) × (0 < self.new.count) }
    {
        let mut guesses = [0u32; GUESSES];
        let t = block(log, from, end, &mut self.rows, &mut guesses);
        self.next = t.next;
        self.base = i;
        self.count = t.count;
    }

    // Sees that the block has record i, and says which of its rows that is.
    fn ready(&mut self, log: &[u8], end: usize, i: usize) -> usize
        requires { Next log.now end self.old i }
        ensures { Held log.now self.new × (self.new.base + result ≡ i) × (result < self.new.count) }
    {
        if i == 0 {
            self.load(log, FIRST, end, 0);
            return 0;
        }
        if i < self.base + self.count {
            return i - self.base;
        }
        let from = self.next;
        self.load(log, from, end, i);
        0
    }

    // Record i, where those before it were taken from the same block or the one before.
    fn nth_record(&mut self, log: &[u8], end: usize, i: usize) -> Record
        requires { Next log.now end self.old i }
        ensures { (result ≡ get_or (records_of (entries log.now) (entries log.now)) i no_record) × HeldTo log.now self.new (i + 1) }
    {
        let j = self.ready(log, end, i);
        let r = row_at(&self.rows, j);
        Record {
            number: r.number,
            first: r.first,
            outcome: r.outcome as u8,
            changes: r.changes,
            ending: r.ending,
            last: r.last,
        }
    }
}

// How many records an answer tells of; refused, none.
fn many(a: Answer) -> usize
    requires { a.number ≡ 0 → a.committed + a.rolled_back + a.unended < 18446744073709551616 }
    ensures { result ≡ due a }
{
    if a.number != 0 {
        return 0;
    }
    (a.committed + a.rolled_back + a.unended) as usize
}

// Fills the front of a table with the records of an accepted log's transactions. Refused, the table stays.
pub fn fill(log: &[u8], a: Answer, table: &mut [Record])
    requires orderly { a.number ≡ 0 → Orderly log.now }
    requires log_value { a.number ≡ 0 → (end_of log.now ≡ a.tail) × (length log.now < reach) × (count is_begin (entries log.now) ≡ due a) × (due a ≤ length table.old) }
    ensures { table.new ≡ pick (eqb a.number 0) (table_after (entries log.now) table.old) table.old }
{
    let mut held = RowBlock {
        next: 0,
        base: 0,
        count: 0,
        rows: [0; NUMBERS],
    };
    let end = a.tail as usize;
    for i in 0..many(a) {
        table[i] = held.nth_record(log, end, i);
    }
}
