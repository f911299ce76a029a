// The settings that C passes to mount or format an image.

ghost use Rattle.std.specs.Prelude.{◌≡◌, ◌↔◌, IsTrue};
ghost use Rattle.littlefs_c.specs.Configs.{IsValidConfig, config_order, config_profile};

use lfs_device::Profile;
use lfs_model::NameOrder;
use littlefs_values::Config;

/// The geometry of an image, the on-disk versions to accept, and the limits for writing. Sizes are
/// in bytes.
#[repr(C)]
pub struct ImageConfig {
    pub block_size: u32,
    pub page: u32,
    /// The order of names in a new image. A mount detects the order from the names and ignores this
    /// field.
    pub order: u32,
    pub config: Config,
}

impl ImageConfig {
    // Returns the profile that these settings describe.
    pub(crate) fn profile(&self) -> Profile
        ensures { result ≡ config_profile self.now }
    {
        self.config.profile()
    }

    // Returns the order of names that `order` selects.
    pub(crate) fn name_order(&self) -> NameOrder
        ensures { result ≡ config_order self.now }
    {
        match self.order {
            0 => NameOrder::LongerFirst,
            _ => NameOrder::ShorterFirst,
        }
    }

    // Returns whether `order` and each field of `config` is within its range. Doesn't check the
    // geometry.
    pub(crate) fn is_valid(&self) -> bool
        ensures { IsTrue result ↔ IsValidConfig self.now }
    {
        self.order <= 1 && self.config.is_valid()
    }
}
