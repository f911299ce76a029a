ghost use Rattle.std.specs.Prelude.{◌≡◌, MatchResult};
ghost use Rattle.lfs_model.specs.format.Disk.{pair_capacity, profile_attr_max, half_pair_capacity, default_profile, profile_file_max, inline_limit, struct_max, profile_name_max, slots_limit};
ghost use Rattle.lfs_model.specs.format.Geometry.{IsValidGeometry};

use crate::Error;
use lfs_model::Profile;

/// The division of a device into blocks, which are erased as a whole, and pages, which are
/// programmed as a whole. All sizes are in bytes.
///
/// The page size is a power of two from 8 to 512, and at most an eighth of the block size. The
/// block size is a multiple of the page size, from 1,024 to 65,536. A device has 2 to 65,536
/// blocks, and at most 268,435,456 bytes in all.
#[derive(Clone, Copy, Debug, PartialEq, Eq)]
pub struct Geometry {
    pub block_size: u32,
    pub page: u32,
    pub block_count: u32,
    /// The versions and limits by which images on the device are accepted and written.
    pub profile: Profile,
    pub ghost valid: { IsValidGeometry block_size page block_count },
}

impl Geometry {
    /// Creates a geometry with the given sizes in bytes and the profile of `Profile::new`. The call
    /// allocates no memory.
    ///
    /// Errors: `Invalid` if and only if the sizes are outside the limits.
    pub fn new(block_size: u32, page: u32, block_count: u32) -> Result<Geometry, Error>
        ensures { MatchResult result
            (λ g. (g.block_size ≡ block_size) × (g.page ≡ page) × (g.block_count ≡ block_count) × (g.profile ≡ default_profile))
            (λ e. (e ≡ Error.Invalid) × (¬ IsValidGeometry block_size page block_count)) }
    {
        if !matches!(page, 8 | 16 | 32 | 64 | 128 | 256 | 512) {
            return Err(Error::Invalid);
        }
        if block_size < 1024
            || block_size > 65536
            || block_size % page != 0
            || page > block_size / 8
        {
            return Err(Error::Invalid);
        }
        if block_count < 2
            || block_count > 65536
            || u64::from(block_size) * u64::from(block_count) > 268_435_456
        {
            return Err(Error::Invalid);
        }
        Ok(Geometry {
            block_size,
            page,
            block_count,
            profile: Profile::new(),
        })
    }

    /// Returns the same geometry with the given profile.
    pub fn with_profile(self, profile: Profile) -> Geometry
        ensures { result ≡ record self { profile = profile } }
    {
        Geometry {
            block_size: self.block_size,
            page: self.page,
            block_count: self.block_count,
            profile,
        }
    }

    /// Returns the number of bytes that the slots of a written metadata pair may need. Each name,
    /// struct and attribute counts with its tag of 4 bytes. This capacity is the block size minus
    /// 39 bytes and one page, which are reserved for the revision count, tail, move state and
    /// checksum (SPEC.md of littlefs, "Metadata pairs").
    pub fn pair_capacity(self) -> u32
        ensures { result ≡ pair_capacity self.block_size self.page }
    {
        self.block_size - 39 - self.page
    }

    /// Returns the number of bytes that a name and its attributes may need, including their tags:
    /// half of what `pair_capacity` returns.
    pub fn entry_size_limit(self) -> u32
        ensures { result ≡ half_pair_capacity self.block_size self.page }
    {
        self.pair_capacity() / 2
    }

    /// Returns the size in bytes of the largest file that is kept inline: the smallest of an eighth
    /// of a block, 1,022 and the profile's `inline_max`.
    pub fn inline_limit(self) -> u32
        ensures { result ≡ inline_limit self.profile self.block_size }
    {
        self.profile.inline_max.min((self.block_size / 8).min(1022))
    }

    /// Returns the size in bytes of the largest struct of an entry. A struct holds inline contents,
    /// or the 8 bytes of a CTZ skip-list or a directory.
    pub fn struct_limit(self) -> u32
        ensures { result ≡ struct_max self.profile self.block_size }
    {
        self.inline_limit().max(8)
    }

    /// Returns the length in bytes of the longest name that is written, at most 255.
    pub fn name_max(self) -> u32
        ensures { result ≡ profile_name_max self.profile }
    {
        self.profile.name_max.min(255)
    }

    /// Returns the size in bytes of the largest file that is written, at most 2,147,483,647.
    pub fn file_max(self) -> u32
        ensures { result ≡ profile_file_max self.profile }
    {
        self.profile.file_max.min(2_147_483_647)
    }

    /// Returns the size in bytes of the largest attribute that is written, at most 1,022.
    pub fn attr_max(self) -> u32
        ensures { result ≡ profile_attr_max self.profile }
    {
        self.profile.attr_max.min(1022)
    }

    /// Returns the largest number of slots that a written metadata pair may have.
    pub fn slot_limit(self) -> usize
        ensures { result ≡ slots_limit }
    {
        1000
    }
}
