// A log reader, from its opening on.
ghost use Rattle.std.specs.Prelude.{◌≡◌};
ghost use Rattle.wal_cases.specs.Trip.{trip_of};

use wal::reader::LogReader;
use wal::{EntryView, Reading};

// What two steps forward and one back find, and the reader's place and number after them.
#[derive(Clone, Copy)]
pub struct Trip {
    pub first: Reading,
    pub second: Reading,
    pub third: Option<EntryView>,
    pub place: usize,
    pub number: u64,
}

// A reader is opened and goes from step to step.
#[tactic(auto, unfolding(crate::specs::Trip::trip_of))]
pub fn there_and_back(log: &[u8], end: bool) -> Trip
    ensures { result ≡ trip_of end log.now }
{
    let mut reader = LogReader::open(log, end);
    let first = reader.forward();
    let second = reader.forward();
    let third = reader.backward();
    Trip {
        first,
        second,
        third,
        place: reader.place,
        number: reader.number,
    }
}
