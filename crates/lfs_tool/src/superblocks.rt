// The numbers in a superblock, which is found by its offset alone.

ghost use Rattle.std.specs.Prelude.{◌≡◌, ◌⊎◌, ◌<◌, ◌/◌, ◌^◌, IfSome, None, length};
ghost use Rattle.lfs_model.specs.format.EntryTypes.{SuperblockFields};
ghost use Rattle.lfs_tag.specs.FieldsView.{superblock_view};
ghost use Rattle.lfs_tool.specs.WrongNumbers.{AreFieldsRight, SuperblocksAreRight, HasWrongSuperblockField, IsWrongField, IsSuperblockAt, IsFirstSuperblock};

use crate::verdict::WrongNumber;
use lfs_device::AcceptedVersions;
use lfs_tag::{Superblock, superblock_of};

// The bytes after the revision count of a block that begins with a superblock: the name tag, the
// name, and the tag of the inline struct of 24 bytes.
const FIRST_ENTRIES: &[u8] = b"\xf0\x0f\xff\xf7littlefs\x2f\xe0\x00\x10";

// Returns the first of these fields that is wrong, or None if all are right. A right superblock
// states `block_size`, `count` blocks and an accepted version.
pub(crate) fn wrong_field_of(
    block_size: u32,
    count: usize,
    versions: AcceptedVersions,
    fields: &Superblock,
) -> Option<WrongNumber>
    ensures found { IfSome result (IsWrongField block_size count versions (superblock_view fields.now)) }
    ensures none { result ≡ None → AreFieldsRight block_size count versions (superblock_view fields.now) }
{
    if fields.block_size != block_size {
        return Some(WrongNumber::BlockSize(fields.block_size));
    }
    if fields.block_count as usize != count {
        return Some(WrongNumber::BlockCount(fields.block_count));
    }
    if !fields.has_accepted_version(versions) {
        return Some(WrongNumber::Version(fields.version));
    }
    None
}

// Returns the superblock in the block at this offset, or None if that block doesn't begin with one.
fn fields_at_offset(bytes: &[u8], from: usize) -> Option<Superblock>
    requires { from < 2 ^ 32 }
    ensures found { IfSome result (λ fields. IsSuperblockAt bytes.now from (superblock_view fields)) }
    ensures none { result ≡ None → (fields : SuperblockFields) → ¬ IsSuperblockAt bytes.now from fields }
{
    if bytes.len() < from + 44 || &bytes[from + 4..from + 20] != FIRST_ENTRIES {
        return None;
    }
    match <&[u8; 24]>::try_from(&bytes[from + 20..from + 44]) {
        Ok(fields) => Some(superblock_of(fields)),
        Err(_) => None,
    }
}

/// Returns the superblock at the beginning of block 0, or else the one at the beginning of block 1.
/// The offset of block 1 must be the block size that its superblock states, so the caller needn't
/// know the block size. All powers of two from 1024 to 65536 are tried. Checksums aren't verified.
pub fn image_superblock_at(bytes: &[u8]) -> Option<Superblock>
    ensures found { IfSome result (IsFirstSuperblock bytes.now) }
    ensures none { result ≡ None → (fields : SuperblockFields) → ¬ IsSuperblockAt bytes.now 0 fields }
{
    if let Some(fields) = fields_at_offset(bytes, 0) {
        return Some(fields);
    }
    for size in [1024u32, 2048, 4096, 8192, 16384, 32768, 65536] {
        match fields_at_offset(bytes, size as usize) {
            Some(fields) if fields.block_size == size => return Some(fields),
            _ => {}
        }
    }
    None
}

// Returns the first field of the superblock at an offset that is wrong for these bytes, or None if
// there is none.
fn wrong_field_at(
    bytes: &[u8],
    block_size: u32,
    versions: AcceptedVersions,
    from: usize,
) -> Option<WrongNumber>
    requires size { 0 < block_size }
    requires from { (from ≡ 0) ⊎ (from ≡ block_size) }
    ensures found { IfSome result (HasWrongSuperblockField bytes.now block_size versions) }
    ensures none { result ≡ None → (fields : SuperblockFields) → IsSuperblockAt bytes.now from fields → AreFieldsRight block_size (length bytes.now / block_size) versions fields }
{
    let count = bytes.len() / block_size as usize;
    match fields_at_offset(bytes, from) {
        Some(fields) => wrong_field_of(block_size, count, versions, &fields),
        None => None,
    }
}

/// Returns a number in the superblock of block 0 or 1 that is wrong for these bytes: the block
/// size, the number of blocks, or a version that isn't accepted. `block_size` is the given block
/// size in bytes, and the number of blocks follows from it. The superblock is recognized by the
/// first two entries of its block, which are its name and its struct. Checksums aren't verified.
///
/// Returns None if and only if neither superblock has a wrong number. A block that doesn't begin
/// with a superblock has no wrong number. If `block_size` is 0, the result is None.
pub fn wrong_superblock_field(
    bytes: &[u8],
    block_size: u32,
    versions: AcceptedVersions,
) -> Option<WrongNumber>
    ensures found { IfSome result (HasWrongSuperblockField bytes.now block_size versions) }
    ensures none { result ≡ None → SuperblocksAreRight bytes.now block_size versions }
{
    if block_size == 0 {
        return None;
    }
    match wrong_field_at(bytes, block_size, versions, 0) {
        Some(stated) => Some(stated),
        None => wrong_field_at(bytes, block_size, versions, block_size as usize),
    }
}
