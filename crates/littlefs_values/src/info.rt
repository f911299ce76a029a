// The fields of a superblock in the form that C reads.

ghost use Rattle.std.specs.Prelude.{◌≡◌};
ghost use Rattle.littlefs_values.specs.Infos.{superblock_info};

use lfs_tag::Superblock;

/// The fields of a superblock, in the order of littlefs's `lfs_fsinfo`. Sizes are in bytes.
#[repr(C)]
#[derive(Drop)]
pub struct FsInfo {
    /// The on-disk version: the major number in the upper 16 bits, and the minor number in the
    /// lower 16 bits.
    pub version: u32,
    pub block_size: u32,
    pub block_count: u32,
    pub name_max: u32,
    pub file_max: u32,
    pub attr_max: u32,
}

impl FsInfo {
    /// Returns an `FsInfo` with the fields of a superblock.
    pub fn of(fields: &Superblock) -> FsInfo
        ensures { result ≡ superblock_info fields.now }
    {
        FsInfo {
            version: fields.version,
            block_size: fields.block_size,
            block_count: fields.block_count,
            name_max: fields.name_max,
            file_max: fields.file_max,
            attr_max: fields.attr_max,
        }
    }
}
