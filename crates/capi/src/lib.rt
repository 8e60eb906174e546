// The C interface: see include/lumbraquay.h. Every function is total, and each gives its numbers by `give`.
#![tactic(auto)]

ghost use Rattle.rules.specs.Lent.{lent};
ghost use Rattle.std.specs.Prelude.{◌≡◌, ◌/◌, length};
ghost use Rattle.crc32c.specs.Crc.{crc32c as crc_of};
ghost use Rattle.wal.specs.Read.{found};
ghost use Rattle.refusals.specs.Verdict.{by_number, told};
ghost use Rattle.page.specs.Rows.{visible_rows, cancelled_rows, numbers_per_row, row_list, rows_after};
ghost use Rattle.page.specs.FreeMap.{free_count, map_after};
ghost use Rattle.doublewrite.specs.File.{contents_of, id_of};
ghost use Rattle.doublewrite.specs.Repair.{repair_of, pages_after};
ghost use Rattle.doublewrite.specs.Write.{written_of, file_after};
ghost use Rattle.catalog.specs.TableRows.{answer_of, row_of, older_row_of, write_answer, area_after};
ghost use Rattle.catalog.specs.Search.{table_found};
ghost use Rattle.summary.specs.Summary.{numbered_row, step_of, summary_of, summary_written, summary_after};
ghost use Rattle.intake.specs.Orders.{mark_of, order_found, orders_repeated};
ghost use Rattle.capi.specs.Answers.{version, given, counted, open_numbers, step_numbers, kind_forward, kind_backward, forward_numbers, backward_numbers, verdict_numbers, verify_numbers, verify_from_numbers, row_numbers, next_visible_numbers, list_numbers, free_map_numbers, contents_numbers, restored_numbers, table_numbers, table_written_numbers, written_numbers, answer_numbers, located_numbers, read_row_numbers, summary_numbers, numbered_numbers, summary_step_numbers, found_numbers, repeated_numbers, finding_numbers};
ghost use Rattle.recovery.specs.Flat.{recover_flat};
ghost use Rattle.audit.specs.Judge.{judge_from, judge_of};

use audit::Finding;
use catalog::TableRow;
use endian::{Lsn, PageNumber};
use intake::{FoundOrder, RepeatedOrders};
use page::{Row, RowList};
use refusals::Refused;
use rules::{Answer, Located};
use summary::{Summary, SummaryRow, SummaryStep};
use wal::{EntryView, Reading};

// The kinds stay numbers, since C reads them as such (include/lumbraquay.h).
// What a step over the log finds: an entry; the exact end, or no entry that ends at the place; a torn tail; unused room; damage.
const ENTRY: u64 = 0;

const END: u64 = 1;

const TORN: u64 = 2;

const UNUSED: u64 = 3;

const DAMAGED: u64 = 4;

// The version of the interface.
const VERSION: u32 = 2;

// Puts numbers into a lent array, as many as fit.
fn give(numbers: &[u64], out: &mut [u64])
    ensures { out.new ≡ given numbers.now out.old }
{
    let count = numbers.len().min(out.len());
    out[..count].copy_from_slice(&numbers[..count]);
}

// Number and place of a refusal, 0 and 0 for none.
fn verdict_numbers(r: Result<(), Refused>) -> [u64; 2]
    ensures { result ≡ verdict_numbers (told r) }
{
    match r {
        Ok(()) => [0, 0],
        Err(e) => [e.refusal.number(), e.place],
    }
}

// Number and place of a refusal, then how many there are, or 0 where it is refused.
fn counted(r: Result<u64, Refused>) -> [u64; 3]
    ensures { result ≡ counted (by_number r) }
{
    match r {
        Ok(n) => [0, 0, n],
        Err(e) => [e.refusal.number(), e.place, 0],
    }
}

// The version of the interface that this library has.
#[unsafe(no_mangle)]
pub extern "C" fn lq_version() -> u32
    ensures { result ≡ version }
{
    VERSION
}

// The CRC32c of s.
#[unsafe(no_mangle)]
pub extern "C" fn lq_crc32c(s: &[u8]) -> u32
    ensures { result ≡ crc_of s.now }
{
    crc32c::crc32c(s)
}

// Opens a log, behind its header or at the end found by walking: number and place.
#[unsafe(no_mangle)]
pub extern "C" fn lq_log_open(log: &[u8], at_end: bool, out: &mut [u64])
    ensures { out.new ≡ given (open_numbers at_end log.now) out.old }
{
    let number = match wal::header_fault(log) {
        Ok(()) => 0,
        Err(e) => e.number(),
    };
    let place = wal::reader::opened_at(log, at_end);
    give(&[number, place as u64], out);
}

// The numbers of a step: its kind, the place after it, and those of the entry that it finds, or zeros.
fn step_numbers(kind: u64, next: usize, entry: Option<EntryView>) -> [u64; 11]
    ensures { result ≡ step_numbers kind next entry }
{
    match entry {
        Some(v) => [
            kind,
            next as u64,
            v.place as u64,
            v.length as u64,
            v.lsn.0,
            v.txn.0,
            v.kind as u64,
            v.table as u64,
            v.key_len as u64,
            v.old_len as u64,
            v.new_len as u64,
        ],
        None => [kind, next as u64, 0, 0, 0, 0, 0, 0, 0, 0, 0],
    }
}

// The numbers of what a step forward finds, and of the place after it.
fn forward_numbers(reading: Reading, next: usize) -> [u64; 11]
    ensures { result ≡ step_numbers (kind_forward reading) next (found reading) }
{
    match reading {
        Reading::Whole(v) => step_numbers(ENTRY, next, Some(v)),
        Reading::End => step_numbers(END, next, None),
        Reading::Torn => step_numbers(TORN, next, None),
        Reading::Unused => step_numbers(UNUSED, next, None),
        Reading::Damage => step_numbers(DAMAGED, next, None),
    }
}

// The numbers of what a step backward finds, and of the place after it.
fn backward_numbers(entry: Option<EntryView>, next: usize) -> [u64; 11]
    ensures { result ≡ step_numbers (kind_backward entry) next entry }
{
    let kind = if entry.is_some() { ENTRY } else { END };
    step_numbers(kind, next, entry)
}

// A step forward from place.
#[unsafe(no_mangle)]
pub extern "C" fn lq_log_forward(log: &[u8], place: u64, out: &mut [u64])
    ensures { out.new ≡ given (forward_numbers log.now place) out.old }
{
    let mut next = place as usize;
    let reading = wal::reader::forward_at(log, &mut next);
    give(&forward_numbers(reading, next), out);
}

// A step backward from place.
#[unsafe(no_mangle)]
pub extern "C" fn lq_log_backward(log: &[u8], place: u64, out: &mut [u64])
    ensures { out.new ≡ given (backward_numbers log.now place) out.old }
{
    let mut next = place as usize;
    let entry = wal::reader::backward_at(log, &mut next);
    give(&backward_numbers(entry, next), out);
}

// Whether every page is good: number and place.
#[unsafe(no_mangle)]
pub extern "C" fn lq_verify(magic: u64, pages: &[u8], out: &mut [u64])
    ensures { out.new ≡ given (verify_numbers magic pages.now) out.old }
{
    let v = page::verify(magic, pages);
    give(&verdict_numbers(v), out);
}

// The same of the pages from an index on.
#[unsafe(no_mangle)]
pub extern "C" fn lq_verify_from(magic: u64, pages: &[u8], first: u64, out: &mut [u64])
    ensures { out.new ≡ given (verify_from_numbers magic pages.now first) out.old }
{
    let found = page::verify_from(magic, pages, PageNumber(first));
    give(&verdict_numbers(found), out);
}

// Number and place of a refusal, whether there is a row, and its numbers.
fn row_numbers(next: Result<Option<Row>, Refused>) -> [u64; 7]
    ensures { result ≡ row_numbers (by_number next) }
{
    match next {
        Ok(Some(row)) => [
            0,
            0,
            1,
            row.page.0,
            row.slot as u64,
            row.length as u64,
            row.offset as u64,
        ],
        Ok(None) => [0, 0, 0, 0, 0, 0, 0],
        Err(e) => [e.refusal.number(), e.place, 0, 0, 0, 0, 0],
    }
}

// The first visible row at or after a slot of a page.
#[unsafe(no_mangle)]
pub extern "C" fn lq_next_visible(magic: u64, pages: &[u8], page: u64, slot: u16, out: &mut [u64])
    ensures { out.new ≡ given (next_visible_numbers magic pages.now page slot) out.old }
{
    let next = page::next_visible(magic, pages, PageNumber(page), slot as usize);
    give(&row_numbers(next), out);
}

// The numbers of a listing.
fn list_numbers(l: Result<RowList, Refused>) -> [u64; 5]
    ensures { result ≡ list_numbers (by_number l) }
{
    match l {
        Ok(l) => [0, 0, l.count as u64, l.page.0, l.slot as u64],
        Err(e) => [e.refusal.number(), e.place, 0, 0, 0],
    }
}

// The visible rows at or after a slot of a page, four numbers each in rows, as many as they hold: number, place, how many, and the page and slot to go on from.
#[unsafe(no_mangle)]
pub extern "C" fn lq_list_visible(
    magic: u64,
    pages: &[u8],
    page: u64,
    slot: u16,
    rows: &mut [u64],
    out: &mut [u64],
)
    ensures out_after { out.new ≡ given (list_numbers (row_list magic pages.now (visible_rows pages.now) page slot (length rows.old / numbers_per_row))) out.old }
    ensures rows_after { rows.new ≡ rows_after magic pages.now (visible_rows pages.now) page slot rows.old }
{
    let l = page::list_visible(magic, pages, PageNumber(page), slot as usize, rows);
    give(&list_numbers(l), out);
}

// The cancelled rows, which that listing passes over, in the same way.
#[unsafe(no_mangle)]
pub extern "C" fn lq_list_cancelled(
    magic: u64,
    pages: &[u8],
    page: u64,
    slot: u16,
    rows: &mut [u64],
    out: &mut [u64],
)
    ensures out_after { out.new ≡ given (list_numbers (row_list magic pages.now (cancelled_rows pages.now) page slot (length rows.old / numbers_per_row))) out.old }
    ensures rows_after { rows.new ≡ rows_after magic pages.now (cancelled_rows pages.now) page slot rows.old }
{
    let l = page::list_cancelled(magic, pages, PageNumber(page), slot as usize, rows);
    give(&list_numbers(l), out);
}

// Writes the map of free pages: number, place and count of free pages.
#[unsafe(no_mangle)]
pub extern "C" fn lq_free_map(magic: u64, pages: &[u8], map: &mut [u8], out: &mut [u64])
    ensures out_after { out.new ≡ given (free_map_numbers magic pages.now map.old) out.old }
    ensures map_after { map.new ≡ map_after magic pages.now map.old }
{
    let made = page::free_map(magic, pages, map);
    give(&counted(made), out);
}

// Reads a double-write file for so many pages: number, place and count of slots.
#[unsafe(no_mangle)]
pub extern "C" fn lq_doublewrite_read(file: &[u8], pages: u64, out: &mut [u64])
    ensures { out.new ≡ given (contents_numbers (contents_of file.now pages)) out.old }
{
    let contents = doublewrite::read(file, pages as usize);
    give(&counted(contents), out);
}

// The page that a slot of a double-write file names.
#[unsafe(no_mangle)]
pub extern "C" fn lq_doublewrite_id(file: &[u8], slot: u64) -> u64
    ensures { result ≡ id_of file.now slot }
{
    let id = doublewrite::slot_id(file, slot as usize);
    id.0
}

// Restores torn pages from a double-write file: number, place and count of pages restored.
#[unsafe(no_mangle)]
pub extern "C" fn lq_repair(magic: u64, pages: &mut [u8], file: &[u8], out: &mut [u64])
    ensures out_after { out.new ≡ given (restored_numbers (repair_of magic pages.old file.now)) out.old }
    ensures pages_after { pages.new ≡ pages_after magic pages.old file.now }
{
    let restored = doublewrite::repair(magic, pages, file);
    give(&counted(restored), out);
}

// Number and place of a refusal, then the length that is written, or 0 where it is refused.
fn written_numbers(w: Result<usize, Refused>) -> [u64; 3]
    ensures { result ≡ written_numbers (by_number w) }
{
    counted(w.map(|n| n as u64))
}

// Writes the double-write file of a list of pages: number, place and length.
#[unsafe(no_mangle)]
pub extern "C" fn lq_doublewrite_write(pages: &[u8], list: &[u64], area: &mut [u8], out: &mut [u64])
    ensures out_after { out.new ≡ given (written_numbers (written_of pages.now list.now area.old)) out.old }
    ensures area_after { area.new ≡ file_after pages.now list.now area.old }
{
    let written = doublewrite::write(pages, list, area);
    give(&written_numbers(written), out);
}

// The numbers of a table's row.
fn table_numbers(t: Result<TableRow, Refused>) -> [u64; 10]
    ensures { result ≡ table_numbers (answer_of t) }
{
    match t {
        Ok(t) => [
            0,
            0,
            t.table as u64,
            t.root.0,
            t.schema.at as u64,
            t.schema.length as u64,
            t.name.at as u64,
            t.name.length as u64,
            t.layout.number() as u64,
            t.version,
        ],
        Err(e) => [e.refusal.number(), e.place, 0, 0, 0, 0, 0, 0, 0, 0],
    }
}

// A catalog payload as the newest reader reads it.
#[unsafe(no_mangle)]
pub extern "C" fn lq_table_read(payload: &[u8], out: &mut [u64])
    ensures { out.new ≡ given (table_numbers (row_of payload.now)) out.old }
{
    let t = catalog::read(payload);
    give(&table_numbers(t), out);
}

// A catalog payload as a reader reads it that knows only the first two forms.
#[unsafe(no_mangle)]
pub extern "C" fn lq_table_read_older(payload: &[u8], out: &mut [u64])
    ensures { out.new ≡ given (table_numbers (older_row_of payload.now)) out.old }
{
    let t = catalog::read_older(payload);
    give(&table_numbers(t), out);
}

// Writes a catalog payload in the newest form: number, place and length.
#[unsafe(no_mangle)]
pub extern "C" fn lq_table_write(
    table: u32,
    root: u64,
    schema: &[u8],
    name: &[u8],
    layout: u8,
    version: u64,
    area: &mut [u8],
    out: &mut [u64],
)
    ensures out_after { out.new ≡ given (table_written_numbers (write_answer schema.now name.now layout area.old)) out.old }
    ensures area_after { area.new ≡ area_after table root schema.now name.now layout version area.old }
{
    let length = catalog::write(table, PageNumber(root), schema, name, layout, version, area);
    give(&written_numbers(length), out);
}

// The first visible row with a readable payload and that table id.
#[unsafe(no_mangle)]
pub extern "C" fn lq_table_find(magic: u64, pages: &[u8], table: u32, out: &mut [u64])
    ensures { out.new ≡ given (row_numbers (table_found magic pages.now table)) out.old }
{
    let found = catalog::find_table(magic, pages, table);
    give(&row_numbers(found), out);
}

// The numbers of an order that was looked for.
fn found_numbers(f: Result<FoundOrder, Refused>) -> [u64; 8]
    ensures { result ≡ found_numbers (by_number f) }
{
    match f {
        Ok(f) => match f.order {
            Some(o) => [
                0,
                0,
                1,
                o.page.0,
                o.slot as u64,
                o.part as u64,
                o.quantity as u64,
                f.short as u64,
            ],
            None => [0, 0, 0, 0, 0, 0, 0, f.short as u64],
        },
        Err(e) => [e.refusal.number(), e.place, 0, 0, 0, 0, 0, 0],
    }
}

// The first visible order with that mark, and how many visible payloads are too short for one.
#[unsafe(no_mangle)]
pub extern "C" fn lq_find_order(magic: u64, pages: &[u8], mark: &[u8; 16], out: &mut [u64])
    ensures { out.new ≡ given (found_numbers (order_found magic pages.now (mark_of mark.now))) out.old }
{
    let f = intake::find(magic, pages, mark);
    give(&found_numbers(f), out);
}

// The numbers of a pair of orders.
fn repeated_numbers(f: Result<Option<RepeatedOrders>, Refused>) -> [u64; 11]
    ensures { result ≡ repeated_numbers (by_number f) }
{
    match f {
        Ok(
            Some(
                RepeatedOrders {
                    first: a,
                    second: b,
                },
            ),
        ) => [
            0,
            0,
            1,
            a.page.0,
            a.slot as u64,
            a.part as u64,
            a.quantity as u64,
            b.page.0,
            b.slot as u64,
            b.part as u64,
            b.quantity as u64,
        ],
        Ok(None) => [0, 0, 0, 0, 0, 0, 0, 0, 0, 0, 0],
        Err(e) => [e.refusal.number(), e.place, 0, 0, 0, 0, 0, 0, 0, 0, 0],
    }
}

// The least pair of visible orders with the same mark.
#[unsafe(no_mangle)]
pub extern "C" fn lq_repeated_orders(magic: u64, pages: &[u8], out: &mut [u64])
    ensures { out.new ≡ given (repeated_numbers (orders_repeated magic pages.now)) out.old }
{
    let f = intake::repeated(magic, pages);
    give(&repeated_numbers(f), out);
}

// The numbers of an answer.
fn answer_numbers(a: Answer) -> [u64; 13]
    ensures { result ≡ answer_numbers a }
{
    let last = a.last_lsn;
    [
        a.number,
        a.place,
        last.0,
        a.tail,
        a.committed,
        a.rolled_back,
        a.unended,
        a.changes_committed,
        a.changes_rolled_back,
        a.changes_unended,
        a.changes_zero,
        a.rewritten,
        a.ending,
    ]
}

// Recovery: the pages mended, the table filled with six numbers for each record, and the answer.
#[unsafe(no_mangle)]
pub extern "C" fn lq_recover(
    magic: u64,
    floor: u64,
    pages: &mut [u8],
    log: &[u8],
    table: &mut [u64],
    out: &mut [u64],
)
    ensures out_after { out.new ≡ given (answer_numbers (recover_flat (lent magic floor pages.old log.now) table.old).answer) out.old }
    ensures pages_after { pages.new ≡ (recover_flat (lent magic floor pages.old log.now) table.old).pages }
    ensures table_after { table.new ≡ (recover_flat (lent magic floor pages.old log.now) table.old).table }
{
    let a = recovery::recover_flat(magic, Lsn(floor), pages, log, table);
    give(&answer_numbers(a), out);
}

// The numbers of a judgement.
fn finding_numbers(f: Finding) -> [u64; 5]
    ensures { result ≡ finding_numbers f }
{
    let v = f.verdict;
    let page = f.page;
    [v.number, v.place, f.differs as u64, page.0, f.slot as u64]
}

// Whether the pages after hold what recovery of the pages before would leave, and else the lowest page and slot that differs.
#[unsafe(no_mangle)]
pub extern "C" fn lq_judge(
    magic: u64,
    floor: u64,
    before: &[u8],
    log: &[u8],
    after: &[u8],
    out: &mut [u64],
)
    ensures { out.new ≡ given (finding_numbers (judge_of (lent magic floor before.now log.now) after.now)) out.old }
{
    let f = audit::judge(magic, Lsn(floor), before, log, after);
    give(&finding_numbers(f), out);
}

// The same of the pages from an index on.
#[unsafe(no_mangle)]
pub extern "C" fn lq_judge_from(
    magic: u64,
    floor: u64,
    before: &[u8],
    log: &[u8],
    after: &[u8],
    first: u64,
    out: &mut [u64],
)
    ensures { out.new ≡ given (finding_numbers (judge_from (lent magic floor before.now log.now) after.now first)) out.old }
{
    let f = audit::judge_from(magic, Lsn(floor), before, log, after, PageNumber(first));
    give(&finding_numbers(f), out);
}

// The numbers of a row that is located.
fn located_numbers(l: Located) -> [u64; 10]
    ensures { result ≡ located_numbers l }
{
    let h = l.head;
    let xmin = h.xmin;
    let xmax = h.xmax;
    [
        h.number,
        h.place,
        h.filled as u64,
        xmin.0,
        xmax.0,
        h.deleted as u64,
        l.source,
        l.offset,
        l.length,
        h.pad,
    ]
}

// A row as recovery would leave it, and where its payload stands.
#[unsafe(no_mangle)]
pub extern "C" fn lq_read_row(
    magic: u64,
    floor: u64,
    pages: &[u8],
    log: &[u8],
    page: u64,
    slot: u16,
    out: &mut [u64],
)
    ensures { out.new ≡ given (read_row_numbers (lent magic floor pages.now log.now) page slot) out.old }
{
    let l = recovery::locate_row(magic, Lsn(floor), pages, log, PageNumber(page), slot);
    give(&located_numbers(l), out);
}

// Writes the summary of the visible rows: number, place and its length.
#[unsafe(no_mangle)]
pub extern "C" fn lq_summary_write(
    magic: u64,
    pages: &[u8],
    lsn: u64,
    area: &mut [u8],
    out: &mut [u64],
)
    ensures out_after { out.new ≡ given (written_numbers (summary_written magic pages.now lsn area.old)) out.old }
    ensures area_after { area.new ≡ summary_after magic pages.now lsn area.old }
{
    let w = summary::write(magic, pages, Lsn(lsn), area);
    give(&written_numbers(w), out);
}

// The numbers of a summary that is judged.
fn summary_numbers(s: Result<Summary, Refused>) -> [u64; 5]
    ensures { result ≡ summary_numbers (by_number s) }
{
    match s {
        Ok(s) => [0, 0, s.lsn.0, s.count, s.first as u64],
        Err(e) => [e.refusal.number(), e.place, 0, 0, 0],
    }
}

// Judges a summary: number, place, last LSN, count, place of the first row.
#[unsafe(no_mangle)]
pub extern "C" fn lq_summary_read(file: &[u8], out: &mut [u64])
    ensures { out.new ≡ given (summary_numbers (summary_of file.now)) out.old }
{
    let s = summary::read(file);
    give(&summary_numbers(s), out);
}

// The numbers of a row asked for by its number.
fn numbered_numbers(n: Result<Option<SummaryRow>, Refused>) -> [u64; 5]
    ensures { result ≡ numbered_numbers (by_number n) }
{
    match n {
        Ok(Some(row)) => [0, 0, row.page.0, row.slot, row.length],
        Ok(None) => [0, 0, 0, 0, 0],
        Err(e) => [e.refusal.number(), e.place, 0, 0, 0],
    }
}

// A row of a summary by its number: number, place, page, slot, tuple length.
#[unsafe(no_mangle)]
pub extern "C" fn lq_summary_row(file: &[u8], row: u64, out: &mut [u64])
    ensures { out.new ≡ given (numbered_numbers (numbered_row file.now row)) out.old }
{
    let n = summary::row(file, row);
    give(&numbered_numbers(n), out);
}

// The numbers of a row at a place.
fn summary_step_numbers(s: SummaryStep) -> [u64; 4]
    ensures { result ≡ summary_step_numbers s }
{
    [s.row.page.0, s.row.slot, s.row.length, s.after as u64]
}

// The row at a place of a summary: page, slot, tuple length and the place after it.
#[unsafe(no_mangle)]
pub extern "C" fn lq_summary_step(file: &[u8], place: u64, out: &mut [u64])
    ensures { out.new ≡ given (summary_step_numbers (step_of file.now place)) out.old }
{
    let s = summary::step(file, place as usize);
    give(&summary_step_numbers(s), out);
}
