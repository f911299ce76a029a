// The verdict on an image, and the result of a check.

ghost use Rattle.std.specs.Prelude.{◌≡◌, ℕ, List, length};
ghost use Rattle.lfs_tool.specs.CheckResults.{AreCheckedSizes};

use crate::ImageLayout;
use lfs_model::{ProfileBreach, Violation};
use lfs_tag::Superblock;

/// The orders of names in which an image is accepted.
#[derive(Clone, Copy, Debug, PartialEq, Eq, Drop)]
pub enum AcceptedOrders {
    LongerFirst,
    ShorterFirst,
    /// The image is accepted in either order of names, since no name in a directory is a prefix of
    /// another.
    Either,
}

/// The summary of an accepted image.
#[derive(Clone, Copy, Debug, PartialEq, Eq, Drop)]
pub struct ImageSummary {
    pub files: usize,
    /// The number of directories without the root.
    pub directories: usize,
    /// The number of used blocks.
    pub used: u32,
    /// The number of blocks in the image.
    pub blocks: u32,
    /// Whether an interrupted operation must be completed after a power loss.
    pub recover: bool,
    /// The superblock in the root directory's first pair, or None if the profile is that of
    /// `Profile::new`. A check prints the version and the limits of this superblock.
    pub superblock: Option<Superblock>,
    /// The profile's `inline_max` in bytes if it is less than the limit that follows from the block
    /// size, and otherwise None. A check uses this limit to report an inline file that is too long.
    pub inline_max: Option<u32>,
    /// A rule of the writing profile that the image breaks, or None if the image may be changed.
    pub breach: Option<ProfileBreach>,
}

/// A rule that an image breaks, with the line that reports it.
#[derive(Drop)]
pub struct BrokenRule {
    pub violation: Violation,
    /// The line that states the rule and the location, without its newline.
    pub line: Vec<u8>,
}

/// The verdict on an image: its summary if it is accepted, or a rule that it breaks.
#[derive(Drop)]
pub enum ImageVerdict {
    Accepted {
        summary: ImageSummary,
        orders: AcceptedOrders,
    },
    /// The image breaks this rule.
    Refused(BrokenRule),
}

/// A number in a superblock that is wrong for the image (SPEC.md of littlefs, "0x0ff
/// LFS_TYPE_SUPERBLOCK").
#[derive(Clone, Copy, Debug, PartialEq, Eq, Drop)]
pub enum WrongNumber {
    /// The superblock states this block size in bytes, which is wrong for the image.
    BlockSize(u32),
    /// The superblock states this number of blocks, which is wrong for the image.
    BlockCount(u32),
    /// The superblock states this version, which isn't accepted. The upper 16 bits are the major
    /// version, and the lower 16 bits are the minor version.
    Version(u32),
}

/// The sizes with which an image is checked: a block, a page and the whole image in bytes, and the
/// number of whole blocks. If the bytes are from `read_image` and exceed the largest image, `size`
/// is the largest size plus one.
#[derive(Clone, Copy, Debug, PartialEq, Eq, Drop)]
pub struct CheckedSizes {
    pub block_size: u32,
    pub page: u32,
    pub size: usize,
    pub blocks: usize,
}

impl CheckedSizes {
    // Returns the sizes with which an image of `len` bytes is checked.
    pub(crate) fn of(len: usize, layout: ImageLayout) -> CheckedSizes
        ensures { (image : List ℕ) → length image ≡ len → AreCheckedSizes layout image result }
    {
        CheckedSizes {
            block_size: layout.block_size,
            page: layout.page,
            size: len,
            blocks: len.checked_div(layout.block_size as usize).unwrap_or(0),
        }
    }
}

/// The reason why an image isn't accepted.
#[derive(Drop)]
pub enum RefusalReason {
    /// The superblock in block 0 or 1 states a wrong block size, number of blocks or version.
    WrongNumber(WrongNumber),
    /// No image with blocks and pages of these sizes has this length.
    NoImage,
    /// The image breaks this rule.
    Broken(BrokenRule),
}

/// The result of a check: the summary of an accepted image, or the reason why the image isn't
/// accepted.
#[derive(Drop)]
pub enum CheckResult {
    Accepted {
        summary: ImageSummary,
        orders: AcceptedOrders,
    },
    Refused {
        reason: RefusalReason,
        given: CheckedSizes,
    },
}
