// CRC32c of byte slices: whole, or in pieces from an earlier register.
#![tactic(auto)]

ghost use Rattle.std.specs.Prelude.{◌≡◌};
ghost use Rattle.crc32c.specs.Crc.{fed, finished, crc32c as crc_of};

pub mod inner;
mod tables;

// The register before the first byte.
pub const START: u32 = 0xFFFF_FFFF;

// The register c after the bytes of s.
pub fn update(c: u32, s: &[u8]) -> u32
    ensures { result ≡ fed c s.now }
{
    let t = inner::tables();
    inner::update(&t, c, s)
}

// The checksum that the register c stands for.
pub fn finish(c: u32) -> u32
    ensures { result ≡ finished c }
{
    c ^ 0xFFFF_FFFF
}

// The checksum of s.
pub fn crc32c(s: &[u8]) -> u32
    ensures { result ≡ crc_of s.now }
{
    finish(update(START, s))
}
