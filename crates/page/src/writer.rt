// The packed page writer's own steps.
ghost use Rattle.std.specs.Prelude.{◌≡◌, ℕ, ◌+◌, ◌≤◌, ◌<◌, length};
ghost use Rattle.std.proofs.Math.Seq.{paste};
ghost use Rattle.endian.specs.Numbers.{bytes_of};
ghost use Rattle.page.specs.Layout.{page_bytes, reserved_bytes, body_bytes, slot_limit};
ghost use Rattle.page.specs.Packed.{off_of};
ghost use Rattle.page.specs.Writer.{front_of, back_of};

use crate::{
    COUNT_AT, CRC_AT, FLAGS_AT, FREE_END_AT, FREE_START_AT, ID_AT, LSN_AT, MAGIC_AT, RESERVED_AT,
    TYPE_AT,
};
use endian::inner::{copy_in, put_u8, put_u16, put_u32, put_u64};
use endian::{Lsn, PageNumber};

// An empty slot's offset is 0.
pub fn off_of(n: usize, start: usize) -> u16
    requires { start < 65536 }
    ensures { result ≡ off_of n start }
{
    if n == 0 {
        return 0;
    }
    start as u16
}

// Magic, type, flags 0, item count and checksum.
pub fn put_front(work: &mut [u8], magic: u64, kind: u8, count: usize, crc: u32)
    requires { (length work.old ≡ page_bytes) × (count ≤ slot_limit) }
    ensures { work.new ≡ paste work.old 0 (front_of magic kind count crc) 16 }
{
    put_u64(work, MAGIC_AT, magic);
    put_u8(work, TYPE_AT, kind);
    put_u8(work, FLAGS_AT, 0);
    put_u16(work, COUNT_AT, count as u16);
    put_u32(work, CRC_AT, crc);
}

// Page id, LSN, free start, free end and the reserved bytes.
pub fn put_back(
    work: &mut [u8],
    id: PageNumber,
    lsn: Lsn,
    count: usize,
    top: usize,
    reserved: &[u8],
)
    requires { (length work.old ≡ page_bytes) × (count ≤ slot_limit) × (top ≤ body_bytes) × (length reserved.now ≡ reserved_bytes) }
    ensures { work.new ≡ paste work.old 16 (back_of id.0 lsn.0 count top reserved.now) 48 }
{
    put_u64(work, ID_AT, id.0);
    put_u64(work, LSN_AT, lsn.0);
    put_u16(work, FREE_START_AT, (4 * count) as u16);
    put_u16(work, FREE_END_AT, top as u16);
    copy_in(work, RESERVED_AT, reserved);
}
