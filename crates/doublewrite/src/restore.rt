// Torn pages, restored from the copies in a file.
ghost use Rattle.std.specs.Prelude.{◌≡◌, ◌*◌, ◌+◌, ◌<◌, ◌≤◌, true, length};
ghost use Rattle.std.proofs.Math.Seq.{paste};
ghost use Rattle.page.specs.Layout.{page_bytes, page_limit, pages_in, page_at};
ghost use Rattle.doublewrite.specs.File.{id_at, copy_at, ids_fit};
ghost use Rattle.doublewrite.specs.Repair.{is_torn, is_good, is_taken, repaired_page, repaired_by, restored_by};

use crate::file::File;
use crc32c::inner::Tables;
use endian::PageNumber;
use endian::inner::u32_at;
use page::inner::{checksum, fault, page_at, store};
use page::{CRC_AT, PAGE_BYTES};

// Whether a page has a wrong body checksum.
#[tactic(auto, unfolding(crate::specs::Repair::is_torn))]
fn torn(t: &Tables, page: &[u8; PAGE_BYTES]) -> bool
    ensures { result ≡ is_torn page.now }
{
    u32_at(page, CRC_AT) != checksum(t, page)
}

// Whether a copy is a good page with an id.
#[tactic(auto, unfolding(crate::specs::Repair::is_good))]
fn good(t: &Tables, magic: u64, id: u64, copy: &[u8]) -> bool
    requires { length copy.now ≡ page_bytes }
    ensures { result ≡ is_good magic id copy.now }
{
    fault(t, magic, PageNumber(id), copy).is_none()
}

// Restores the page that slot k names, in its place, where it is torn and its copy good. Says whether it did.
// Tables and magic stay two parameters, as `page::inner::fault` takes them: a struct of both would be taken apart for it.
fn restore_page(t: &Tables, magic: u64, pages: &mut [u8], file: &File, k: u32) -> bool
    requires { (k < file.now.slots) × (id_at file.now.bytes.now k < pages_in pages.old) }
    ensures pages_after { pages.new ≡ paste pages.old (id_at file.now.bytes.now k * page_bytes) (repaired_page magic (id_at file.now.bytes.now k) (copy_at file.now.bytes.now k) (page_at (id_at file.now.bytes.now k) pages.old)) page_bytes }
    ensures value { result ≡ is_taken magic (id_at file.now.bytes.now k) (copy_at file.now.bytes.now k) (page_at (id_at file.now.bytes.now k) pages.old) }
{
    let id = file.id(k);
    let i = id as usize;
    if !torn(t, page_at(pages, i)) {
        return false;
    }
    let copy = file.copy(k);
    if !good(t, magic, id, copy) {
        return false;
    }
    store(pages, i, copy);
    true
}

// Restores the pages that the slots of a file name, and says how many it restored.
pub fn restore(t: &Tables, magic: u64, pages: &mut [u8], file: &File) -> u64
    requires fit { ids_fit file.now.bytes.now (pages_in pages.old) file.now.slots ≡ true }
    requires pages_bound { (pages_in pages.old ≤ page_limit) × (length pages.old ≡ pages_in pages.old * page_bytes) }
    ensures pages_after { pages.new ≡ repaired_by magic file.now.bytes.now file.now.slots pages.old (pages_in pages.old) 0 }
    ensures value { result ≡ restored_by magic file.now.bytes.now file.now.slots pages.old (pages_in pages.old) 0 }
{
    let mut restored: u64 = 0;
    for k in 0..file.slots {
        if restore_page(t, magic, pages, file, k) {
            restored += 1;
        }
    }
    restored
}
