// A file written into a lent area.
ghost use Rattle.std.specs.Prelude.{◌≡◌, true, ◌++◌, ◌*◌, ◌+◌, ◌<◌, ◌≤◌, length, take, drop};
ghost use Rattle.std.proofs.Math.Seq.{paste};
ghost use Rattle.page.specs.Layout.{pages_in};
ghost use Rattle.doublewrite.specs.File.{header_bytes, slot_bytes, footer_bytes, slot_place, file_bytes};
ghost use Rattle.doublewrite.specs.Write.{header_of, slot_of, slots_of, footer_of, file_of, rises};

use crate::file::{COUNT_AT, CRC_BYTES, ID_BYTES, MARK, NAME, VERSION, VERSION_AT, slot_place};
use crc32c::inner::{Tables, crc32c};
use endian::inner::{copy_in, put_u32, put_u64};
use page::inner::page_at;

// Whether a list strictly rises and names none but the first so many pages.
pub fn rising(list: &[u64], pages: usize) -> bool
    ensures { result ≡ rises 0 pages list.now }
{
    let mut least: u64 = 0;
    for i in list {
        if *i < least {
            return false;
        }
        if pages as u64 <= *i {
            return false;
        }
        least = *i + 1;
    }
    true
}

// Writes the header of a file of n slots.
fn put_header(area: &mut [u8], n: u32)
    requires { header_bytes ≤ length area.old }
    ensures { area.new ≡ paste area.old 0 (header_of n) header_bytes }
{
    put_u64(area, 0, NAME);
    put_u32(area, VERSION_AT, VERSION);
    put_u32(area, COUNT_AT, n);
}

// Writes slot k: the id of page i and the page.
fn put_slot(area: &mut [u8], k: u32, pages: &[u8], i: u64)
    requires { (slot_place (k + 1) ≤ length area.old) × (i < pages_in pages.now) }
    ensures { area.new ≡ paste area.old (slot_place k) (slot_of pages.now i) slot_bytes }
{
    let at = slot_place(k);
    put_u64(area, at, i);
    copy_in(area, at + ID_BYTES, page_at(pages, i as usize));
}

// Writes the slots of a list of pages.
fn put_slots(area: &mut [u8], pages: &[u8], list: &[u64])
    requires { (rises 0 (pages_in pages.now) list.now ≡ true) × (length list.now < 4294967296) × (slot_place (length list.now) ≤ length area.old) }
    ensures { area.new ≡ paste area.old header_bytes (slots_of pages.now list.now) (slot_bytes * length list.now) }
{
    for (k, i) in list.iter().enumerate() {
        put_slot(area, k as u32, pages, *i);
    }
}

// Writes the footer of a file of n slots.
fn put_footer(t: &Tables, area: &mut [u8], n: u32)
    requires { file_bytes n ≤ length area.old }
    ensures { area.new ≡ paste area.old (slot_place n) (footer_of (take (slot_place n) area.old)) footer_bytes }
{
    let at = slot_place(n);
    let crc = crc32c(t, &area[..at]);
    put_u32(area, at, crc);
    put_u32(area, at + CRC_BYTES, MARK);
}

// Writes the file of a list of pages.
pub fn put_file(t: &Tables, area: &mut [u8], pages: &[u8], list: &[u64])
    requires { (rises 0 (pages_in pages.now) list.now ≡ true) × (length list.now < 4294967296) × (file_bytes (length list.now) ≤ length area.old) }
    ensures { area.new ≡ file_of pages.now list.now ++ drop (file_bytes (length list.now)) area.old }
{
    let n = list.len() as u32;
    put_header(area, n);
    put_slots(area, pages, list);
    put_footer(t, area, n);
}
