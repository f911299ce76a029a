// The layout of an image as its own superblock states it.

ghost use Rattle.std.specs.Prelude.{◌≡◌, ◌*◌, None, IfErr, IfOk, IfSome};
ghost use Rattle.lfs_model.specs.format.EntryTypes.{SuperblockFields};
ghost use Rattle.lfs_tool.specs.SuperblockLayouts.{HasSuperblockGeometry, IsSuperblockLayout, IsSuperblockLayoutError, own_layout, profile_with_superblock_limits, superblock_layout_sizes};
ghost use Rattle.lfs_tool.specs.WrongNumbers.{IsSuperblockAt};

use crate::Sizes;
use crate::image_layout::ImageLayout;
use crate::superblocks::image_superblock_at;
use lfs_device::{AcceptedVersions, Error, Profile};
use lfs_tag::Superblock;

/// The layout and the length of an image, as its own superblock states them.
#[derive(Clone, Copy, Debug, PartialEq, Eq)]
pub struct SuperblockLayout {
    /// The sizes of blocks and pages in bytes, and the profile by which the image is accepted.
    pub layout: ImageLayout,
    /// The length of the image in bytes.
    pub size: usize,
}

impl SuperblockLayout {
    /// Returns the sizes of the image, which `Sizes::broken_rule` can check.
    pub fn sizes(self) -> Sizes
        ensures { result ≡ superblock_layout_sizes self }
    {
        Sizes {
            size: self.size,
            block_size: self.layout.block_size,
            page: self.layout.page,
        }
    }
}

// Returns the layout with the block size and the length that a superblock states. The page size is
// reduced to at most an eighth of a block.
fn superblock_layout(layout: ImageLayout, superblock: &Superblock) -> SuperblockLayout
    ensures { result ≡ own_layout layout superblock.now }
{
    SuperblockLayout {
        layout: ImageLayout {
            block_size: superblock.block_size,
            page: layout.page.min(superblock.block_size / 8),
            profile: layout.profile,
        },
        size: superblock.block_size as usize * superblock.block_count as usize,
    }
}

// Returns the profile with the limits that a superblock states, if an image may have them. The
// profile accepts versions 2.0 and 2.1.
fn with_limits(profile: Profile, superblock: &Superblock) -> Profile
    ensures { result ≡ profile_with_superblock_limits profile superblock.now }
{
    Profile {
        versions: AcceptedVersions::AlsoTwoOne,
        ..superblock.limit_profile(profile)
    }
}

/// Returns the layout with the block size that an image's superblock states, and the image's
/// length. `head` contains the first bytes of the image. Returns None if neither block 0 nor block
/// 1 begins with a superblock.
pub fn layout_by_blocks(head: &[u8], layout: ImageLayout) -> Option<SuperblockLayout>
    ensures found { IfSome result (HasSuperblockGeometry head.now layout) }
    ensures none { result ≡ None → (fields : SuperblockFields) → ¬ IsSuperblockAt head.now 0 fields }
{
    match image_superblock_at(head) {
        Some(superblock) => Some(superblock_layout(layout, &superblock)),
        None => None,
    }
}

/// Returns the layout with the block size and the limits that an image's superblock states, and the
/// image's length. The layout accepts versions 2.0 and 2.1. `head` contains the first bytes of the
/// image.
///
/// # Errors
/// - `Corrupt` if neither block 0 nor block 1 begins with a superblock.
/// - `Invalid` if no image can have the sizes that the superblock states.
pub fn layout_by_superblock(head: &[u8], layout: ImageLayout) -> Result<SuperblockLayout, Error>
    ensures ok { IfOk result (IsSuperblockLayout head.now layout) }
    ensures err { IfErr result (IsSuperblockLayoutError head.now layout) }
{
    let superblock = match image_superblock_at(head) {
        Some(superblock) => superblock,
        None => return Err(Error::Corrupt),
    };
    let profile = with_limits(layout.profile, &superblock);
    let own = superblock_layout(layout.with_profile(profile), &superblock);
    match own.sizes().broken_rule() {
        Some(_) => Err(Error::Invalid),
        None => Ok(own),
    }
}
