// The CRC-32 of commits.

ghost use Rattle.std.specs.Prelude.{◌≡◌, ℕ, ◌^◌, ◌<◌};
ghost use Rattle.lfs_model.specs.format.Crc.{crc_of, IsCrcFrom};

use crate::crc_table::{crc_after_bits, crc_after_eight};

/// Continues a CRC-32 over more bytes. Returns the checksum of all bytes so far, if `start` is the
/// checksum of the bytes that precede `bytes`. The polynomial is 0x04c11db7 in bit-reflected form,
/// and the result isn't inverted. The checksum of a commit starts at 0xffff_ffff (SPEC.md of
/// littlefs, "0x5xx LFS_TYPE_CRC").
pub fn crc(start: u32, bytes: &[u8]) -> u32
    // The result is the computed checksum, so callers can continue it over further bytes.
    ensures value { result ≡ crc_of start bytes.now }
    // The result is the remainder of the polynomial division.
    ensures remainder { IsCrcFrom start bytes.now result }
    // No other 32-bit number is that remainder.
    ensures only { (other : ℕ) → other < 2 ^ 32 → IsCrcFrom start bytes.now other → other ≡ result }
{
    let mut sum = start;
    let mut rest = bytes;
    while rest.len() >= 8 {
        sum = crc_after_eight(sum, rest);
        rest = &rest[8..];
    }
    crc_after_bytes(sum, rest)
}

// Continues the checksum byte by byte, for the last bytes, of which there are fewer than eight.
fn crc_after_bytes(start: u32, bytes: &[u8]) -> u32
    ensures { result ≡ crc_of start bytes.now }
{
    let mut sum = start;
    for byte in bytes {
        sum = crc_after_bits(sum ^ u32::from(*byte));
    }
    sum
}
