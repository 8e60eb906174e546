// The first walk over a log.
ghost use Rattle.std.specs.Prelude.{◌≤◌, ◌<◌, length};
ghost use Rattle.order.specs.First.{reach, full_of, FirstWalk};

use crate::Walked;
use crate::inner::block::by_blocks;
use crate::inner::scan::scan;
use crc32c::inner::Tables;
use refusals::{Refusal, Refused};

pub mod block;
pub mod kinds;
pub mod scan;
pub mod turn;

// Checksums, and all rules but that on clashes. A fault by rule 8 is told where it comes before the others.
pub fn walk(
    t: &Tables,
    log: &[u8],
    records: Option<u64>,
    begins: &mut [u32],
    ends: &mut [u32],
) -> Result<Walked, Refused>
    requires log_len_bound { length log.now < reach }
    requires in_bounds { (2 ≤ length begins.old) × (2 ≤ length ends.old) }
    ensures { FirstWalk (full_of records) log.now result }
{
    let s = scan(t, log, records);
    if s.turns.is_some() {
        return s.found;
    }
    let place = by_blocks(log, s.stop, begins, ends);
    let earlier = place < s.stop;
    if earlier {
        return Err(Refusal::TransactionOrder.at(place));
    }
    s.found
}
