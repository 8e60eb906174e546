// The search over the visible rows of pages that were verified: one pass, from each row to the next.
ghost use Rattle.std.specs.Prelude.{◌≡◌};
ghost use Rattle.page.specs.Rows.{Listable, visible_rows, first_with};
ghost use Rattle.page.proofs.ListedRows.{Standing};
ghost use Rattle.catalog.specs.Search.{names_table};

use crate::read;
use page::inner::next_row;
use page::{ROW_HEAD_BYTES, Row};

// Whether a row's payload reads, and has the table id.
fn names_table(pages: &[u8], row: Row, table: u32) -> bool
    requires { Standing pages.now row }
    ensures { result ≡ names_table table pages.now row }
{
    let from = row.offset + ROW_HEAD_BYTES;
    let to = row.offset + row.length;
    match read(&pages[from..to]) {
        Ok(found) => found.table == table,
        Err(_) => false,
    }
}

// The first visible row that names the table. A step goes on behind the row that was met, so there is no index to count.
pub fn find(pages: &[u8], table: u32) -> Option<Row>
    requires { Listable pages.now }
    ensures { result ≡ first_with (names_table table pages.now) (visible_rows pages.now) }
{
    let mut i: usize = 0;
    let mut k: usize = 0;
    loop {
        let row = next_row(pages, i, k)?;
        if names_table(pages, row, table) {
            return Some(row);
        }
        i = row.page.0 as usize;
        k = row.slot + 1;
    }
}
