//! The 11-bit types of tags. The upper three bits are the class, and the lower eight bits are the
//! chunk.

/// The name of a regular file.
pub const FILE_NAME: u16 = 0x001;
/// The name of a directory.
pub const DIRECTORY_NAME: u16 = 0x002;
/// The name of the superblock.
pub const SUPERBLOCK_NAME: u16 = 0x0ff;
/// A directory's struct, which contains the address of the directory's first pair.
pub const DIRECTORY_STRUCT: u16 = 0x200;
/// An inline file's struct, which contains the file's bytes.
pub const INLINE_STRUCT: u16 = 0x201;
/// A file's struct that refers to a CTZ skip-list.
pub const CTZ_STRUCT: u16 = 0x202;
/// The lowest type of a user attribute's tag, to which the attribute's own 8-bit type is added.
pub const ATTRIBUTE: u16 = 0x300;
/// Inserts an empty slot at the tag's id.
pub const CREATE: u16 = 0x401;
/// Removes the slot at the tag's id.
pub const DELETE: u16 = 0x4ff;
/// A checksum, which ends a commit. The next tag is stored with its top bit unchanged.
pub const CHECKSUM: u16 = 0x500;
/// A checksum, which ends a commit. The next tag is stored with its top bit inverted.
pub const TURNED_CHECKSUM: u16 = 0x501;
/// A forward checksum of on-disk version 2.1, which is read but has no effect.
pub const FORWARD_CHECKSUM: u16 = 0x5ff;
/// A soft tail, whose pair begins another directory.
pub const SOFT_TAIL: u16 = 0x600;
/// A hard tail, whose pair continues the same directory.
pub const HARD_TAIL: u16 = 0x601;
/// A move state, which is a pair's delta of the global state.
pub const MOVE_STATE: u16 = 0x7ff;

pub(crate) const NAME_CLASS: u16 = 0;

pub(crate) const STRUCT_CLASS: u16 = 2;

pub(crate) const ATTRIBUTE_CLASS: u16 = 3;

pub(crate) const SPLICE_CLASS: u16 = 4;

pub(crate) const CHECKSUM_CLASS: u16 = 5;

pub(crate) const TAIL_CLASS: u16 = 6;

pub(crate) const MOVE_CLASS: u16 = 7;
