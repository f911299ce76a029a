// Versions and limits of the images that are accepted and written.

ghost use Rattle.std.specs.Prelude.{◌≡◌, ◌↔◌, IsTrue, List};
ghost use Rattle.lfs_model.specs.format.Disk.{Disk, AreValidLimits, default_profile};
ghost use Rattle.lfs_model.specs.format.Thread.{Pair};
ghost use Rattle.lfs_model.specs.tree.View.{IsAccepted};
ghost use Rattle.lfs_model.specs.declared.limits.AcceptedVersions.TheVariants.{AlsoTwoOne, OnlyTwoZero};
ghost use Rattle.lfs_model.specs.examples.Images.{disk_with_versions};

/// The on-disk versions that a superblock may have. Version 2.1 only adds entries with forward
/// checksums (type 0x5ff), which this library ignores.
#[derive(Clone, Copy, Debug, PartialEq, Eq)]
pub enum AcceptedVersions {
    /// Only version 2.0 is accepted.
    OnlyTwoZero,
    /// Versions 2.0 and 2.1 are accepted. Since its release 2.6, littlefs writes version 2.1.
    AlsoTwoOne,
}

/// The versions and limits by which images are accepted and written. A build of littlefs mounts an
/// image only if the limits in the image's superblock are at most the build's own `LFS_NAME_MAX`,
/// `LFS_FILE_MAX` and `LFS_ATTR_MAX`. A file is kept inline by littlefs only if the file fits in
/// littlefs's cache.
///
/// A limit above the format's own limit counts as the format's limit.
#[derive(Clone, Copy, Debug, PartialEq, Eq)]
pub struct Profile {
    /// The on-disk versions that a mount accepts.
    pub versions: AcceptedVersions,
    /// The length in bytes of the longest name, at most 255.
    pub name_max: u32,
    /// The size in bytes of the largest file, at most 2,147,483,647.
    pub file_max: u32,
    /// The size in bytes of the largest attribute, at most 1,022.
    pub attr_max: u32,
    /// The size in bytes of the largest file that is kept inline. A file of more than 1,022 bytes,
    /// or of more than an eighth of a block, is never kept inline.
    pub inline_max: u32,
    /// The number of compactions after which a metadata pair is due to move to other blocks. If
    /// this number is 0, no pair moves because of wear.
    pub pair_cycles: u32,
    /// A seed that influences at which block a mount begins to search for free blocks. If the seed
    /// is 0, the image alone determines this block.
    pub search_seed: u32,
}

impl Profile {
    /// Returns the default profile, with version 2.0 only and littlefs's own default limits.
    pub fn new() -> Profile
        ensures { result ≡ default_profile }
    {
        Profile {
            versions: AcceptedVersions::OnlyTwoZero,
            name_max: 255,
            file_max: 2_147_483_647,
            attr_max: 1022,
            inline_max: 1022,
            pair_cycles: 0,
            search_seed: 0,
        }
    }

    /// Returns whether each limit is at least 1 and at most the format's own limit.
    pub fn is_valid(&self) -> bool
        ensures { IsTrue result ↔ AreValidLimits self.now }
    {
        (1..=255).contains(&self.name_max)
            && (1..=2_147_483_647).contains(&self.file_max)
            && (1..=1022).contains(&self.attr_max)
            && (1..=1022).contains(&self.inline_max)
    }
}

/// An image that is accepted with version 2.0 alone is also accepted if version 2.1 is allowed.
pub fn accepting_later_version_keeps_earlier()
    ensures { (disk : Disk) (ps : List Pair) → IsAccepted (disk_with_versions OnlyTwoZero disk) ps → IsAccepted (disk_with_versions AlsoTwoOne disk) ps }
{}
