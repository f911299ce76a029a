// The layout of an image, and its geometry.

ghost use Rattle.std.specs.Prelude.{◌≡◌, ◌%◌, ◌/◌, IfErr, IfOk};
ghost use Rattle.lfs_model.specs.format.Disk.{default_profile};
ghost use Rattle.lfs_model.specs.format.Geometry.{IsValidGeometry};

use lfs_device::{Error, Geometry, Profile};

/// The sizes of an image's blocks and pages in bytes, and the profile, which states the accepted
/// versions and the limits. The image may be changed only if it keeps the profile's limits. If the
/// profile isn't that of `Profile::new`, a check also reports the image's version and limits.
#[derive(Clone, Copy, Debug, PartialEq, Eq)]
pub struct ImageLayout {
    pub block_size: u32,
    pub page: u32,
    pub profile: Profile,
}

impl ImageLayout {
    /// Returns a layout with these sizes and with the profile of `Profile::new`.
    pub fn new(block_size: u32, page: u32) -> ImageLayout
        ensures { result ≡ record { block_size = block_size; page = page; profile = default_profile } }
    {
        ImageLayout {
            block_size,
            page,
            profile: Profile::new(),
        }
    }

    /// Returns this layout with another profile.
    pub fn with_profile(self, profile: Profile) -> ImageLayout
        ensures { result ≡ record self { profile = profile } }
    {
        ImageLayout { profile, ..self }
    }
}

/// Returns the geometry of an image of `size` bytes with the given block and page sizes in bytes.
///
/// # Errors
/// `Invalid` if and only if the image isn't a whole number of blocks, or the geometry is out of
/// range.
pub fn geometry_of_sizes(size: u32, block_size: u32, page: u32) -> Result<Geometry, Error>
    ensures sizes { IfOk result (λ g. (g.block_size ≡ block_size) × (g.page ≡ page)) }
    ensures count { IfOk result (λ g. (g.block_count ≡ size / block_size) × (size % block_size ≡ 0)) }
    ensures err { IfErr result (λ e. (e ≡ Error.Invalid) × (size % block_size ≡ 0 → ¬ IsValidGeometry block_size page (size / block_size))) }
{
    if block_size == 0 || size % block_size != 0 {
        return Err(Error::Invalid);
    }
    Geometry::new(block_size, page, size / block_size)
}
