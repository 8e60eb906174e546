// Many rows at a time, as numbers.
ghost use Rattle.std.specs.Prelude.{◌≡◌, ◌+◌, ◌/◌, ◌≤◌, length};
ghost use Rattle.std.proofs.Math.Seq.{paste};
ghost use Rattle.page.specs.Layout.{pages_in};
ghost use Rattle.page.specs.Rows.{Listable, shown, rows_of, numbers_of, numbers_per_row, list_of, list_after};
ghost use Rattle.page.specs.Notes.{Noted};

use crate::inner::next_shown;
use crate::{PAGE_BYTES, Row, RowList};
use endian::PageNumber;

// A row is four numbers, since the C interface lends numbers (`lq_list_visible`, `lq_list_cancelled`).
const ROW_NUMBERS: usize = 4;

// Puts a row's numbers at a place.
fn put_row(out: &mut [u64], at: usize, row: Row)
    requires { at + numbers_per_row ≤ length out.old }
    ensures { out.new ≡ paste out.old at (numbers_of row) numbers_per_row }
{
    out[at..at + ROW_NUMBERS].copy_from_slice(&[
        row.page.0,
        row.slot as u64,
        row.length as u64,
        row.offset as u64,
    ]);
}

// Fills the lent numbers with the rows at or after a slot of the page at an index that a listing shows, on pages that were verified.
pub fn fill(
    pages: &[u8],
    notes: &[u8],
    live: bool,
    index: usize,
    slot: usize,
    out: &mut [u64],
) -> RowList
    requires listable { Listable pages.now }
    requires noted { Noted pages.now notes.now (pages_in pages.now) }
    ensures value { result ≡ list_of pages.now (rows_of (shown live) pages.now) index slot (length out.old / numbers_per_row) }
    ensures out_after { out.new ≡ list_after (rows_of (shown live) pages.now) index slot out.old }
{
    let mut i = index;
    let mut k = slot;
    let mut m: usize = 0;
    while let Some(row) = next_shown(pages, notes, live, i, k) {
        let full = out.len() - m < ROW_NUMBERS;
        if full {
            return RowList {
                count: m / ROW_NUMBERS,
                page: row.page,
                slot: row.slot,
            };
        }
        put_row(out, m, row);
        m += ROW_NUMBERS;
        i = row.page.0 as usize;
        k = row.slot + 1;
    }
    RowList {
        count: m / ROW_NUMBERS,
        page: PageNumber((pages.len() / PAGE_BYTES) as u64),
        slot: 0,
    }
}
