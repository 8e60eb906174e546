// While Begins come with rising numbers, an entry is known to be in order by the place of its transaction's Begin, which is kept as long as the
// transaction is open. Where no place is kept, nothing is said.
ghost use Rattle.std.specs.Prelude.{◌≡◌, true, ℕ, ◌+◌, ◌≤◌, ◌<◌, Some, length, get_or};
ghost use Rattle.wal.specs.Entry.{begin, checkpoint};
ghost use Rattle.wal.specs.Read.{length_at};
ghost use Rattle.wal.specs.Prefix.{Stands, said};
ghost use Rattle.index.specs.Places.{number};
ghost use Rattle.order.specs.First.{reach};
ghost use Rattle.order.specs.Turns.{turns, Turning, TurningAfter};

use crate::inner::kinds::{is_begin, is_checkpoint, is_end};
use change::inner::is_change;
use endian::TxnNumber;
use index::inner::number_of;
use wal::EntryView;

// So many places are kept.
// Kept (a, fixed memory): a cell is a place, or 0 for none; a cell of Option<u32> would take twice the room on the stack.
pub const TURNS: usize = 16384;

// Where the place of a Begin of transaction t may be kept, and the other cell for it.
fn first_cell(t: TxnNumber) -> usize
    ensures { result < turns }
{
    t.0 as usize % TURNS
}

fn other_cell(r: usize) -> usize
    requires { r < turns }
    ensures { result < turns }
{
    (r + TURNS / 2) % TURNS
}

// The cell that the Begin of transaction t is to have.
fn free_cell(t: TxnNumber, opens: &[u32; TURNS]) -> usize
    ensures { result < turns }
{
    let r = first_cell(t);
    if opens[r] == 0 {
        return r;
    }
    other_cell(r)
}

// Whether p is a place, and the entry there is of transaction t.
fn is_of(log: &[u8], p: u32, t: TxnNumber) -> bool
    requires { (p ≡ 0 → ⊥) → p + 20 ≤ length log.now }
    ensures { result ≡ true → (p ≡ 0 → ⊥) × (number log.now p ≡ t.0) }
{
    p != 0 && number_of(log, p) == t.0
}

// The cell that the Begin of transaction t has, if one is known.
fn own_cell(
    log: &[u8],
    at: usize,
    t: TxnNumber,
    highest: TxnNumber,
    opens: &[u32; TURNS],
) -> Option<usize>
    requires { Turning log.now at highest.0 opens.now }
    ensures { (r : ℕ) → result ≡ Some r → (r < turns) × (get_or opens.now r 0 ≡ 0 → ⊥) × (number log.now (get_or opens.now r 0) ≡ t.0) }
{
    let r = first_cell(t);
    if is_of(log, opens[r], t) {
        return Some(r);
    }
    let q = other_cell(r);
    if is_of(log, opens[q], t) {
        return Some(q);
    }
    None
}

// What is known after a Begin.
fn begin_turn(
    log: &[u8],
    v: EntryView,
    highest: TxnNumber,
    opens: &mut [u32; TURNS],
) -> Option<TxnNumber>
    requires stands { Stands log.now v.place }
    requires v_value { (v.kind ≡ (said log.now v.place).kind) × (v.txn.0 ≡ (said log.now v.place).txn) × (v.kind ≡ begin) × (length log.now < reach) }
    requires turning { Turning log.now v.place highest.0 opens.old }
    ensures { TurningAfter log.now (v.place + length_at log.now v.place) result opens.new }
{
    if v.txn <= highest {
        return None;
    }
    let r = free_cell(v.txn, opens);
    opens[r] = v.place as u32;
    Some(v.txn)
}

// Whether the transaction of an entry that is no Begin, which is not 0, is known to be open there.
fn goes_on(log: &[u8], v: EntryView, highest: TxnNumber, opens: &mut [u32; TURNS]) -> bool
    requires stands { Stands log.now v.place }
    requires v_value { (v.kind ≡ (said log.now v.place).kind) × (v.txn.0 ≡ (said log.now v.place).txn) × (v.kind ≡ begin → ⊥) × (v.kind ≡ checkpoint → ⊥) × (v.txn.0 ≡ 0 → ⊥) }
    requires turning { Turning log.now v.place highest.0 opens.old }
    ensures { result ≡ true → Turning log.now (v.place + length_at log.now v.place) highest.0 opens.new }
{
    let Some(r) = own_cell(log, v.place, v.txn, highest, opens) else {
        return false;
    };
    if is_end(v.kind) {
        opens[r] = 0;
    }
    true
}

// What is known after an entry.
pub fn turn(
    log: &[u8],
    v: EntryView,
    turns: Option<TxnNumber>,
    opens: &mut [u32; TURNS],
) -> Option<TxnNumber>
    requires stands { Stands log.now v.place }
    requires v_value { (v.kind ≡ (said log.now v.place).kind) × (v.txn.0 ≡ (said log.now v.place).txn) × (length log.now < reach) }
    requires turning { TurningAfter log.now v.place turns opens.old }
    ensures { TurningAfter log.now (v.place + length_at log.now v.place) result opens.new }
{
    let highest = turns?;
    if is_checkpoint(v.kind) {
        return turns;
    }
    if v.txn == TxnNumber(0) {
        return is_change(v.kind).then_some(highest);
    }
    if is_begin(v.kind) {
        return begin_turn(log, v, highest, opens);
    }
    goes_on(log, v, highest, opens).then_some(highest)
}
