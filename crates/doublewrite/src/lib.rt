// Double-write files: their reader, the repair of torn pages from one, and their writer.
#![tactic(auto)]

ghost use Rattle.std.specs.Prelude.{◌≡◌};
ghost use Rattle.refusals.specs.Verdict.{by_number};
ghost use Rattle.doublewrite.specs.File.{contents_of, id_of};
ghost use Rattle.doublewrite.specs.Repair.{repair_of, pages_after};
ghost use Rattle.doublewrite.specs.Write.{written_of, file_after};

use crate::file::File;
use endian::PageNumber;
use page::inner::size_wrong;
use page::{PAGE_BYTES, PAGE_LIMIT};
use refusals::{Refusal, Refused};

mod file;
mod marks;
mod restore;
mod writer;

// The slot count of a file for so many pages. Refuses by 1 where the pages are too many, then by 22 to 25.
#[tactic(auto, using(refusals::proofs::Told::told_err, refusals::proofs::Told::told_ok), unfolding(crate::specs::File::contents_of, crate::specs::File::read_verdict))]
pub fn read(file: &[u8], pages: usize) -> Result<u64, Refused>
    ensures { by_number result ≡ contents_of file.now pages }
{
    let t = crc32c::inner::tables();
    if PAGE_LIMIT < pages {
        return Err(Refusal::PageArea.at(0));
    }
    let file = File::read(&t, file, pages)?;
    Ok(u64::from(file.slots))
}

// The page that slot k of a file names; 0 past its slots, or where its header or size is wrong. It looks at no more of the file, so that a caller who has
// read it can list its pages.
#[tactic(auto, unfolding(crate::specs::File::id_of))]
pub fn slot_id(file: &[u8], k: usize) -> PageNumber
    ensures { result.0 ≡ id_of file.now k }
{
    let Some(file) = File::of(file) else {
        return PageNumber(0);
    };
    if file.slots as usize <= k {
        return PageNumber(0);
    }
    PageNumber(file.id(k as u32))
}

// Restores each page with a wrong body checksum whose copy in the file is a good page with its id, and says how many. Refuses by 1, then by 22 to 25, which
// leaves the pages as they are.
#[tactic(auto, using(refusals::proofs::Told::told_err, refusals::proofs::Told::told_ok, refusals::proofs::Told::told_refuses), unfolding(crate::specs::Repair::repair_of, crate::specs::Repair::pages_after, crate::specs::Repair::repair_verdict))]
pub fn repair(magic: u64, pages: &mut [u8], file: &[u8]) -> Result<u64, Refused>
    ensures value { by_number result ≡ repair_of magic pages.old file.now }
    ensures pages_after { pages.new ≡ pages_after magic pages.old file.now }
{
    let t = crc32c::inner::tables();
    if size_wrong(pages) {
        return Err(Refusal::PageArea.at(0));
    }
    let file = File::read(&t, file, pages.len() / PAGE_BYTES)?;
    Ok(restore::restore(&t, magic, pages, &file))
}

// Writes the file of a list of pages into a lent area and gives its length; the later bytes of the area stay. Refuses by 1; by 25 where the list does not strictly
// rise or names a page that is not lent; then by 26 where the area is too short. A refusal leaves the area as it is.
#[tactic(auto, unfolding(crate::specs::Write::written_of, crate::specs::Write::file_after, crate::specs::Write::write_verdict))]
pub fn write(pages: &[u8], list: &[u64], area: &mut [u8]) -> Result<usize, Refused>
    ensures value { by_number result ≡ written_of pages.now list.now area.old }
    ensures area_after { area.new ≡ file_after pages.now list.now area.old }
{
    let t = crc32c::inner::tables();
    if size_wrong(pages) {
        return Err(Refusal::PageArea.at(0));
    }
    if !writer::rising(list, pages.len() / PAGE_BYTES) {
        return Err(Refusal::DoublewritePages.at(0));
    }
    let need = file::file_bytes(list.len() as u32);
    if area.len() < need {
        return Err(Refusal::DoublewriteShort.at(0));
    }
    writer::put_file(&t, area, pages, list);
    Ok(need)
}
