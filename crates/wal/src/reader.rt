// A reader that keeps the lent log and its own place in it, and its steps over a lent log and a place that the caller keeps.
ghost use Rattle.std.specs.Prelude.{◌≡◌};
ghost use Rattle.wal.specs.Read.{header_fault, read_at, read_before};
ghost use Rattle.wal.specs.Reader.{kept_log, opened_at, place_after, place_before};

use crate::{EntryView, FIRST, Reading, end_of, entry_at, entry_before, header_fault};

// The number is refusal 2 or 3 of the log, or 0; a refused log is held as an empty one, at place 0. It stays a number: a caller may hold one that is no refusal's, and steps hand it on.
#[derive(Clone, Copy)]
pub struct LogReader<'a> {
    pub log: &'a [u8],
    pub place: usize,
    pub number: u64,
}

impl<'a> LogReader<'a> {
    // A reader of the log, behind its header or at the end found by walking.
    pub fn open(log: &'a [u8], at_end: bool) -> LogReader<'a>
        ensures log { result.log.now ≡ kept_log log.now }
        ensures place { result.place ≡ opened_at at_end log.now }
        ensures number { result.number ≡ header_fault log.now }
    {
        LogReader {
            log: kept_part(log),
            place: opened_at(log, at_end),
            number: match header_fault(log) {
                Ok(()) => 0,
                Err(e) => e.number(),
            },
        }
    }

    // A step forward.
    pub fn forward(&mut self) -> Reading
        ensures found { result ≡ read_at self.old.log.now self.old.place }
        ensures log { self.new.log ≡ self.old.log }
        ensures place { self.new.place ≡ place_after (read_at self.old.log.now self.old.place) self.old.place }
        ensures number { self.new.number ≡ self.old.number }
    {
        forward_at(self.log, &mut self.place)
    }

    // A step backward.
    pub fn backward(&mut self) -> Option<EntryView>
        ensures found { result ≡ read_before self.old.log.now self.old.place }
        ensures log { self.new.log ≡ self.old.log }
        ensures place { self.new.place ≡ place_before (read_before self.old.log.now self.old.place) self.old.place }
        ensures number { self.new.number ≡ self.old.number }
    {
        backward_at(self.log, &mut self.place)
    }
}

// The part of a log that a reader holds: all of it, or nothing where it is refused.
pub fn kept_part(log: &[u8]) -> &[u8]
    ensures { result.now ≡ kept_log log.now }
{
    match header_fault(log) {
        Ok(()) => log,
        Err(_) => &log[..0],
    }
}

// The place where a reader is opened. `at_end` stays a bool: C callers lend it as one (`lq_log_open`).
pub fn opened_at(log: &[u8], at_end: bool) -> usize
    ensures { result ≡ opened_at at_end log.now }
{
    match header_fault(log) {
        Ok(()) if at_end => end_of(log),
        Ok(()) => FIRST,
        Err(_) => 0,
    }
}

// The step forward from place: only an entry moves it.
pub fn forward_at(log: &[u8], place: &mut usize) -> Reading
    ensures found { result ≡ read_at log.now place.old }
    ensures place { place.new ≡ place_after (read_at log.now place.old) place.old }
{
    let found = entry_at(log, *place);
    if let Reading::Whole(v) = found {
        *place += v.length;
    }
    found
}

// The step backward from place: only an entry moves it.
pub fn backward_at(log: &[u8], place: &mut usize) -> Option<EntryView>
    ensures found { result ≡ read_before log.now place.old }
    ensures place { place.new ≡ place_before (read_before log.now place.old) place.old }
{
    let found = entry_before(log, *place);
    if let Some(v) = found {
        *place = v.place;
    }
    found
}
