// The parts of a double-write file, and what it is refused by.
ghost use Rattle.std.specs.Prelude.{◌≡◌, ◌<◌, ◌≤◌, length, IfOk, IfSome, is_some};
ghost use Rattle.refusals.specs.Verdict.{told};
ghost use Rattle.page.specs.Layout.{page_bytes, page_limit};
ghost use Rattle.doublewrite.specs.File.{slot_place, file_bytes, slot_count, id_at, copy_at, is_headed, is_summed, is_marked, ids_fit, file_verdict};

use crate::marks::PageSet;
use crc32c::inner::{Tables, crc32c};
use endian::inner::{u32_at, u64_at};
use page::PAGE_BYTES;
use refusals::{Refusal, Refused};

// The bytes of the header, of a slot, and of the footer.
const HEADER_BYTES: usize = 16;

const SLOT_BYTES: usize = 16392;

const FOOTER_BYTES: usize = 8;

// The header's fields: the bytes "AXMDBLWR" as a number, the version, and where that and the slot count stand.
pub const NAME: u64 = 0x5257_4C42_444D_5841;

pub const VERSION: u32 = 1;

pub const VERSION_AT: usize = 8;

pub const COUNT_AT: usize = 12;

// The bytes of a slot's page id, and of the footer's checksum.
pub const ID_BYTES: usize = 8;

pub const CRC_BYTES: usize = 4;

pub const MARK: u32 = 0xDEAD_BEEF;

// Where slot k stands; behind n slots the footer does.
pub fn slot_place(k: u32) -> usize
    ensures { result ≡ slot_place k }
{
    HEADER_BYTES + SLOT_BYTES * k as usize
}

// The bytes of a file of n slots.
pub fn file_bytes(n: u32) -> usize
    ensures { result ≡ file_bytes n }
{
    slot_place(n) + FOOTER_BYTES
}

// A file whose header and size are right: its bytes, and how many slots it has.
#[derive(Clone, Copy)]
pub struct File<'a> {
    bytes: &'a [u8],
    pub slots: u32,
    ghost sized: { length bytes.now ≡ file_bytes slots },
}

impl<'a> File<'a> {
    // The file that some bytes are; None where its header or its size is wrong.
    pub fn of(bytes: &'a [u8]) -> Option<File<'a>>
        ensures headed { is_some result ≡ is_headed bytes.now }
        ensures value { IfSome result (λ f. (f.bytes.now ≡ bytes.now) × (f.slots ≡ slot_count bytes.now)) }
    {
        if bytes.len() < HEADER_BYTES + FOOTER_BYTES {
            return None;
        }
        if u64_at(bytes, 0) != NAME {
            return None;
        }
        if u32_at(bytes, VERSION_AT) != VERSION {
            return None;
        }
        let slots = u32_at(bytes, COUNT_AT);
        if bytes.len() != file_bytes(slots) {
            return None;
        }
        Some(File { bytes, slots })
    }

    // The page that slot k names.
    pub fn id(&self, k: u32) -> u64
        requires { k < self.now.slots }
        ensures { result ≡ id_at self.now.bytes.now k }
    {
        u64_at(self.bytes, slot_place(k))
    }

    // The copy of it.
    pub fn copy(&self, k: u32) -> &'a [u8]
        requires { k < self.now.slots }
        ensures value { result.now ≡ copy_at self.now.bytes.now k }
        ensures page_len { length result.now ≡ page_bytes }
    {
        let at = slot_place(k) + ID_BYTES;
        &self.bytes[at..at + PAGE_BYTES]
    }

    // Whether the checksum behind its slots is right.
    #[tactic(auto, unfolding(crate::specs::File::is_summed))]
    fn summed(&self, t: &Tables) -> bool
        ensures { result ≡ is_summed self.now.bytes.now self.now.slots }
    {
        let e = slot_place(self.slots);
        u32_at(self.bytes, e) == crc32c(t, &self.bytes[..e])
    }

    // Whether the mark behind its slots is right.
    #[tactic(auto, unfolding(crate::specs::File::is_marked))]
    fn ended(&self) -> bool
        ensures { result ≡ is_marked self.now.bytes.now self.now.slots }
    {
        u32_at(self.bytes, slot_place(self.slots) + CRC_BYTES) == MARK
    }

    // Whether each slot names one of so many pages, and none that was named before. The first that does not is found behind as many slots as there are pages.
    fn ids_fit(&self, pages: usize) -> bool
        requires { pages ≤ page_limit }
        ensures { result ≡ ids_fit self.now.bytes.now pages self.now.slots }
    {
        let mut named = PageSet::empty();
        for k in 0..self.slots {
            let i = self.id(k);
            if pages as u64 <= i {
                return false;
            }
            if !named.insert(i as usize) {
                return false;
            }
        }
        true
    }

    // The file that some bytes are for so many pages. Refuses by 22 to 25.
    #[tactic(auto, unfolding(crate::specs::File::file_verdict))]
    pub fn read(t: &Tables, bytes: &'a [u8], pages: usize) -> Result<File<'a>, Refused>
        requires { pages ≤ page_limit }
        ensures verdict { told result ≡ file_verdict bytes.now pages }
        ensures value { IfOk result (λ f. (f.bytes.now ≡ bytes.now) × (f.slots ≡ slot_count bytes.now)) }
    {
        let Some(file) = File::of(bytes) else {
            return Err(Refusal::DoublewriteHeader.at(0));
        };
        if !file.summed(t) {
            return Err(Refusal::DoublewriteChecksum.at(0));
        }
        if !file.ended() {
            return Err(Refusal::DoublewriteMark.at(0));
        }
        if !file.ids_fit(pages) {
            return Err(Refusal::DoublewritePages.at(0));
        }
        Ok(file)
    }
}
