// The settings that C passes for a file system.

ghost use Rattle.std.specs.Prelude.{◌≡◌, ◌↔◌, IsTrue};
ghost use Rattle.littlefs_values.specs.Configs.{IsValidConfig, config_profile};

use lfs_device::{AcceptedVersions, Profile};

/// The on-disk versions to accept, and the limits for writing. Sizes are in bytes.
#[repr(C)]
#[derive(Drop)]
pub struct Config {
    /// The accepted on-disk versions: 0 for only 2.0, and 1 for 2.0 and 2.1.
    pub versions: u32,
    pub name_max: u32,
    pub file_max: u32,
    pub attr_max: u32,
    pub inline_max: u32,
    /// The number of compactions after which a metadata pair moves to other blocks. With 0, pairs
    /// never move.
    pub pair_cycles: u32,
}

impl Config {
    /// Returns the profile with these versions and limits.
    pub fn profile(&self) -> Profile
        ensures { result ≡ config_profile self.now }
    {
        let versions = match self.versions {
            0 => AcceptedVersions::OnlyTwoZero,
            _ => AcceptedVersions::AlsoTwoOne,
        };
        Profile {
            versions,
            name_max: self.name_max,
            file_max: self.file_max,
            attr_max: self.attr_max,
            inline_max: self.inline_max,
            pair_cycles: self.pair_cycles,
            search_seed: 0,
        }
    }

    /// Returns whether each field is within its range.
    pub fn is_valid(&self) -> bool
        ensures { IsTrue result ↔ IsValidConfig self.now }
    {
        self.versions <= 1 && self.profile().is_valid()
    }
}
