// The row summary: the visible rows of pages as a list kept beside the data, written and read.
#![tactic(auto)]

ghost use Rattle.std.specs.Prelude.{◌≡◌};
ghost use Rattle.refusals.specs.Verdict.{by_number};
ghost use Rattle.summary.specs.Summary.{numbered_row, step_of, summary_after, summary_of, summary_written};

use endian::{Lsn, PageNumber};
use page::PAGE_LIMIT;
use refusals::{Refusal, Refused};
use writer::NotedPages;

mod numbers;
mod reader;
mod writer;

// A number read at a place, and the place after it.
#[derive(Clone, Copy)]
struct Number {
    value: u64,
    after: usize,
}

// How many rows are visible, and how many bytes they take in a summary.
#[derive(Clone, Copy)]
struct Measured {
    rows: u64,
    bytes: usize,
}

// A row as a summary has it.
#[derive(Clone, Copy, PartialEq, Eq)]
pub struct SummaryRow {
    pub page: PageNumber,
    pub slot: u64,
    pub length: u64,
}

// What a file says: the last LSN, the row count and where the first row stands.
#[derive(Clone, Copy, PartialEq, Eq)]
pub struct Summary {
    pub lsn: Lsn,
    pub count: u64,
    pub first: usize,
}

// The row at a place, and the place after it.
#[derive(Clone, Copy, PartialEq, Eq)]
pub struct SummaryStep {
    pub row: SummaryRow,
    pub after: usize,
}

// Writes the summary of the visible rows of pages, with a last LSN, into the area and gives back its length; later bytes stay. Refuses as the listing does, then by 27, which
// leaves the area as it is.
pub fn write(magic: u64, pages: &[u8], lsn: Lsn, area: &mut [u8]) -> Result<usize, Refused>
    ensures value { by_number result ≡ summary_written magic pages.now lsn.0 area.old }
    ensures area_after { area.new ≡ summary_after magic pages.now lsn.0 area.old }
{
    let mut notes = [0u8; PAGE_LIMIT];
    page::inner::verify_noting(magic, pages, &mut notes)?;
    let p = NotedPages {
        magic,
        pages,
        notes: &notes,
    };
    let m = writer::measure(p);
    let need = writer::head_size(lsn, m.rows) + m.bytes;
    if area.len() < need {
        return Err(Refusal::SummaryArea.at(0));
    }
    writer::put_file(p, lsn, m.rows, area);
    Ok(need)
}

// Judges a whole file: last LSN, row count and the place of the first row. Refuses by 28 to 33, at the first number at fault.
pub fn read(file: &[u8]) -> Result<Summary, Refused>
    ensures { by_number result ≡ summary_of file.now }
{
    let s = reader::head(file)?;
    reader::judge(file, s.count, s.first)?;
    Ok(s)
}

// Row n of a file, counted from 0, after the whole file is judged: none past the count.
pub fn row(file: &[u8], n: u64) -> Result<Option<SummaryRow>, Refused>
    ensures { by_number result ≡ numbered_row file.now n }
{
    let s = read(file)?;
    if s.count <= n {
        return Ok(None);
    }
    Ok(Some(reader::nth(file, s.first, n)))
}

// The row at a place and the place after it, whatever stands before: as many steps as the count, from the first row's place on, give the rows of a file that is not refused. Zeros and
// the same place where one of the three numbers does not read.
pub fn step(file: &[u8], place: usize) -> SummaryStep
    ensures { result ≡ step_of file.now place }
{
    reader::step(file, place)
}
