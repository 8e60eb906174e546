// The catalog's table rows: reading a payload, as the newest and as an older reader do, writing one in the newest form, and the search for a table's row.
#![tactic(auto)]

ghost use Rattle.std.specs.Prelude.{◌≡◌, ◌++◌, ◌+◌, ◌<◌, ◌≤◌, length, drop, get_or};
ghost use Rattle.std.proofs.Math.Seq.{paste};
ghost use Rattle.endian.specs.Numbers.{bytes_of};
ghost use Rattle.refusals.specs.Verdict.{by_number};
ghost use Rattle.catalog.specs.TableRows.{layout_by, layout_number, names_of, answer_of, laid, is_newest, row_of, older_row_of, row_bytes, row_length, has_room, written_answer, write_answer, area_after};
ghost use Rattle.catalog.specs.Search.{table_found};

use endian::PageNumber;
use endian::inner::{copy_in, put_u8, put_u32, put_u64};
use page::Row;
use refusals::{Refusal, Refused};

mod search;

// Where the schema's length stands.
const SCHEMA_LENGTH_AT: usize = 12;

// The longest name.
const NAME_LIMIT: usize = 255;

// The bytes of a row of the newest form beside its names.
const FIXED_BYTES: usize = 23;

// How a table's rows are laid out.
#[derive(Clone, Copy, PartialEq, Eq)]
pub enum Layout {
    Heap,
    Clustered,
}

impl Layout {
    // The layout that a layout byte says; None for another byte.
    fn of(byte: u8) -> Option<Layout>
        ensures { result ≡ layout_by byte }
    {
        match byte {
            0 => Some(Layout::Heap),
            1 => Some(Layout::Clustered),
            _ => None,
        }
    }

    // Its byte.
    pub fn number(self) -> u8
        ensures { result ≡ layout_number self }
    {
        match self {
            Layout::Heap => 0,
            Layout::Clustered => 1,
        }
    }
}

// A name: where its bytes stand in the payload, and how many; `lq_table_read` gives them so.
#[derive(Clone, Copy)]
pub struct Part {
    pub at: usize,
    pub length: usize,
}

// What a row says; the names are parts of the payload.
#[derive(Clone, Copy)]
pub struct TableRow {
    pub table: u32,
    pub root: PageNumber,
    pub schema: Part,
    pub name: Part,
    pub layout: Layout,
    pub version: u64,
}

// The byte at a place; one past the end counts as 0.
fn byte_at(s: &[u8], at: usize) -> u8
    ensures { result ≡ get_or s.now at 0 }
{
    s.get(at).copied().unwrap_or(0)
}

// The names of a payload, and where they end.
#[derive(Clone, Copy)]
struct Names {
    schema: Part,
    name: Part,
    end: usize,
}

impl Names {
    // By the lengths that stand in the payload.
    fn of(payload: &[u8]) -> Names
        ensures value { result ≡ names_of payload.now }
        ensures end_fits { result.end < 1024 }
    {
        let schema = Part {
            at: SCHEMA_LENGTH_AT + 1,
            length: usize::from(byte_at(payload, SCHEMA_LENGTH_AT)),
        };
        let at = schema.at + schema.length;
        let name = Part {
            at: at + 1,
            length: usize::from(byte_at(payload, at)),
        };
        let end = name.at + name.length;
        Names { schema, name, end }
    }
}

// The row with a layout byte and a version. Refuses 36.
#[tactic(auto, unfolding(crate::specs::TableRows::laid))]
fn row_with(payload: &[u8], names: Names, layout: u8, version: u64) -> Result<TableRow, Refused>
    requires { names ≡ names_of payload.now }
    ensures { answer_of result ≡ laid payload.now layout version }
{
    let Some(layout) = Layout::of(layout) else {
        return Err(Refusal::TableRowLayout.at(0));
    };
    Ok(TableRow {
        table: endian::u32_at(payload, 0),
        root: PageNumber(endian::u64_at(payload, 4)),
        schema: names.schema,
        name: names.name,
        layout,
        version,
    })
}

// Reads a row's payload by the bytes behind its names. Refuses 34, 35 and 36.
#[tactic(auto, unfolding(crate::specs::TableRows::row_by))]
pub fn read(payload: &[u8]) -> Result<TableRow, Refused>
    ensures { answer_of result ≡ row_of payload.now }
{
    let names = Names::of(payload);
    let end = names.end;
    if payload.len() < end {
        return Err(Refusal::TableRowEndsEarly.at(0));
    }
    match payload.len() - end {
        0 => row_with(payload, names, 0, 1),
        1 => row_with(payload, names, payload[end], 1),
        9 => {
            let version = endian::u64_at(payload, end + 1);
            row_with(payload, names, payload[end], version)
        }
        _ => Err(Refusal::TableRowForm.at(0)),
    }
}

// Whether a payload is of the newest form.
#[tactic(auto, unfolding(crate::specs::TableRows::is_newest))]
fn is_newest(payload: &[u8]) -> bool
    ensures { result ≡ is_newest payload.now }
{
    payload.len() == Names::of(payload).end + 9
}

// Reads as a reader that knows only the first two forms. Refuses 34, 35, 36, and the newest form by 38.
#[tactic(auto, unfolding(crate::specs::TableRows::row_by, crate::specs::TableRows::is_newest))]
pub fn read_older(payload: &[u8]) -> Result<TableRow, Refused>
    ensures { answer_of result ≡ older_row_of payload.now }
{
    if is_newest(payload) {
        return Err(Refusal::TableRowNewer.at(0));
    }
    read(payload)
}

// Whether names of these lengths are short enough, and an area of this length has room for the row.
#[tactic(auto, unfolding(crate::specs::TableRows::has_room))]
fn has_room(schema: usize, name: usize, area: usize) -> bool
    ensures { result ≡ has_room schema name area }
{
    if NAME_LIMIT < schema {
        return false;
    }
    if NAME_LIMIT < name {
        return false;
    }
    FIXED_BYTES + schema + name <= area
}

// Writes a name's length and its bytes.
fn put_name(area: &mut [u8], at: usize, name: &[u8])
    requires { (length name.now ≤ 255) × (at + 1 + length name.now ≤ length area.old) }
    ensures { area.new ≡ paste area.old at (bytes_of 1 (length name.now) ++ name.now) (1 + length name.now) }
{
    put_u8(area, at, name.len() as u8);
    copy_in(area, at + 1, name);
}

// Writes a row in the newest form; its parts come one by one, as `lq_table_write` gives them.
fn put_row(
    area: &mut [u8],
    table: u32,
    root: u64,
    schema: &[u8],
    name: &[u8],
    layout: u8,
    version: u64,
)
    requires { (length schema.now ≤ 255) × (length name.now ≤ 255) × (row_length (length schema.now) (length name.now) ≤ length area.old) }
    ensures { area.new ≡ row_bytes table root schema.now name.now layout version ++ drop (row_length (length schema.now) (length name.now)) area.old }
{
    put_u32(area, 0, table);
    put_u64(area, 4, root);
    put_name(area, SCHEMA_LENGTH_AT, schema);
    let at = SCHEMA_LENGTH_AT + 1 + schema.len();
    put_name(area, at, name);
    let end = at + 1 + name.len();
    put_u8(area, end, layout);
    put_u64(area, end + 1, version);
}

// Writes a row in the newest form at the front of an area and says its length; later bytes are kept. Refuses 36, then 37, and leaves the area as it is.
// The layout is a byte, since `lq_table_write` takes any: another than 0 and 1 is what 36 refuses.
#[tactic(auto, unfolding(crate::specs::TableRows::has_room, crate::specs::TableRows::write_answer, crate::specs::TableRows::area_after))]
pub fn write(
    table: u32,
    root: PageNumber,
    schema: &[u8],
    name: &[u8],
    layout: u8,
    version: u64,
    area: &mut [u8],
) -> Result<usize, Refused>
    ensures value { written_answer result ≡ write_answer schema.now name.now layout area.old }
    ensures area_after { area.new ≡ area_after table root.0 schema.now name.now layout version area.old }
{
    if Layout::of(layout).is_none() {
        return Err(Refusal::TableRowLayout.at(0));
    }
    if !has_room(schema.len(), name.len(), area.len()) {
        return Err(Refusal::TableRowNoRoom.at(0));
    }
    put_row(area, table, root.0, schema, name, layout, version);
    Ok(FIXED_BYTES + schema.len() + name.len())
}

// The first visible row, in the order of the listing, with a readable payload and that table id; other payloads are passed over. Refuses as `page::verify` does.
#[tactic(auto, using(refusals::proofs::Told::told_err, refusals::proofs::Told::told_ok), unfolding(crate::specs::Search::table_found, page::specs::Rows::searched))]
pub fn find_table(magic: u64, pages: &[u8], table: u32) -> Result<Option<Row>, Refused>
    ensures { by_number result ≡ table_found magic pages.now table }
{
    page::verify(magic, pages)?;
    Ok(search::find(pages, table))
}
