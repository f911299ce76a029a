// Decodes structs, tails and move states from little-endian 32-bit numbers.

ghost use Rattle.std.specs.Prelude.{◌≡◌, ◌+◌, ◌≤◌, ◌↔◌, IsTrue, length};
ghost use Rattle.lfs_model.specs.format.Disk.{profile_attr_max, profile_file_max, profile_name_max};
ghost use Rattle.lfs_model.specs.tree.Fresh.{superblock_bytes};
ghost use Rattle.lfs_model.specs.format.Slots.{Ctz, address_of_array, zero_gstate};
ghost use Rattle.lfs_model.specs.format.EntryTypes.{decoded_address, decoded_gstate, superblock_fields, ctz_struct_type};
ghost use Rattle.lfs_model.specs.format.Content.{decoded_struct};
ghost use Rattle.lfs_model.specs.tree.Profile.{are_limits_usable, profile_with_limits};
ghost use Rattle.lfs_model.specs.tree.View.{accepts_version};
ghost use Rattle.lfs_model.specs.layers.WrittenContent.{superblock_fields_bytes, is_zero};
ghost use Rattle.lfs_tag.specs.FieldsView.{superblock_view, move_view};

use byteorder::{ByteOrder, LittleEndian};
use lfs_device::{AcceptedVersions, Geometry, Profile};

/// The null address, which refers to no block.
pub const NULL_ADDRESS: u32 = 0xffff_ffff;

/// The fields of the superblock's struct (SPEC.md of littlefs, "0x0ff LFS_TYPE_SUPERBLOCK").
#[derive(Clone, Copy, Debug, PartialEq, Eq, Drop)]
pub struct Superblock {
    /// The on-disk version. The major number is in the upper 16 bits, and the minor number is in
    /// the lower 16 bits.
    pub version: u32,
    /// The size of a block in bytes.
    pub block_size: u32,
    pub block_count: u32,
    /// The maximum length of a name in bytes.
    pub name_max: u32,
    /// The maximum size of a file in bytes.
    pub file_max: u32,
    /// The maximum size of a user attribute in bytes.
    pub attr_max: u32,
}

/// A pair's delta of the global state, or the global state itself, which is the XOR of all pairs'
/// deltas (DESIGN.md of littlefs, "The move problem").
#[derive(Clone, Copy, Debug, PartialEq, Eq, Drop)]
pub struct MoveState {
    /// Whether there may be an orphan, which is a metadata pair that no directory refers to.
    pub sync: bool,
    /// The tag type of a delete (0x4ff) if a move is pending, otherwise 0.
    pub kind: u16,
    /// The id of the slot that counts as deleted while the move is pending.
    pub id: u16,
    /// The address of the pair whose slot counts as deleted while the move is pending.
    pub pair: [u32; 2],
}

impl Superblock {
    /// The superblock's name, which SPEC.md of littlefs calls the magic string.
    pub const NAME: &'static [u8] = b"littlefs";

    /// On-disk version 2.0, which all fresh images have.
    pub const VERSION: u32 = 0x0002_0000;

    /// On-disk version 2.1. An image of version 2.1 can be read and written if the profile accepts
    /// it, but no fresh image has version 2.1.
    pub const LATER_VERSION: u32 = 0x0002_0001;

    /// Returns the superblock of a fresh image, with version 2.0, the device's geometry and the
    /// limits of the device's profile.
    pub fn fresh_superblock(geometry: &Geometry) -> Superblock
        ensures fields { superblock_view result ≡ record {
          version = 0x00020000;
          block_size = geometry.now.block_size;
          block_count = geometry.now.block_count;
          name_max = profile_name_max geometry.now.profile;
          file_max = profile_file_max geometry.now.profile;
          attr_max = profile_attr_max geometry.now.profile;
        } }
        ensures bytes { superblock_fields_bytes (superblock_view result) ≡ superblock_bytes geometry.now.profile geometry.now.block_size geometry.now.block_count }
    {
        Superblock {
            version: Superblock::VERSION,
            block_size: geometry.block_size,
            block_count: geometry.block_count,
            name_max: geometry.name_max(),
            file_max: geometry.file_max(),
            attr_max: geometry.attr_max(),
        }
    }

    /// Returns whether the superblock's limits equal those of the geometry's profile.
    pub fn has_geometry_limits(&self, geometry: &Geometry) -> bool
        ensures { IsTrue result ↔ ((self.now.name_max ≡ profile_name_max geometry.now.profile) × (self.now.file_max ≡ profile_file_max geometry.now.profile) × (self.now.attr_max ≡ profile_attr_max geometry.now.profile)) }
    {
        self.name_max == geometry.name_max()
            && self.file_max == geometry.file_max()
            && self.attr_max == geometry.attr_max()
    }

    /// Returns whether each limit is at least 1 and at most the maximum that the format allows.
    fn has_usable_limits(&self) -> bool
        ensures { result ≡ are_limits_usable (superblock_view self.now) }
    {
        (1..=255).contains(&self.name_max)
            && (1..=2_147_483_647).contains(&self.file_max)
            && (1..=1022).contains(&self.attr_max)
    }

    /// Returns the profile with its limits on names, files and attributes replaced by the
    /// superblock's. If a limit of the superblock is 0 or above the format's maximum, returns the
    /// profile unchanged.
    pub fn limit_profile(&self, profile: Profile) -> Profile
        ensures { result ≡ profile_with_limits (superblock_view self.now) profile }
    {
        if !self.has_usable_limits() {
            return profile;
        }
        Profile {
            versions: profile.versions,
            name_max: self.name_max,
            file_max: self.file_max,
            attr_max: self.attr_max,
            inline_max: profile.inline_max,
            pair_cycles: profile.pair_cycles,
            search_seed: profile.search_seed,
        }
    }

    /// Returns whether `versions` includes the superblock's on-disk version.
    pub fn has_accepted_version(&self, versions: AcceptedVersions) -> bool
        ensures { result ≡ accepts_version versions self.now.version }
    {
        match versions {
            AcceptedVersions::OnlyTwoZero => self.version == Superblock::VERSION,
            AcceptedVersions::AlsoTwoOne => {
                self.version == Superblock::VERSION || self.version == Superblock::LATER_VERSION
            }
        }
    }
}

impl MoveState {
    /// Returns the delta that doesn't change the global state, which is all zeros.
    pub fn none() -> MoveState
        ensures { move_view result ≡ zero_gstate }
    {
        MoveState {
            sync: false,
            kind: 0,
            id: 0,
            pair: [0, 0],
        }
    }

    /// Returns whether the delta is zero. A compaction writes no move state if the delta is zero.
    pub fn is_none(&self) -> bool
        ensures { result ≡ is_zero (move_view self.now) }
    {
        !self.sync && self.kind == 0 && self.id == 0 && self.pair[0] == 0 && self.pair[1] == 0
    }
}

// Decodes the two block addresses at the start of `bytes`.
pub(crate) fn address_from_bytes(bytes: &[u8]) -> [u32; 2]
    requires { 8 ≤ length bytes.now }
    ensures { address_of_array result ≡ decoded_address bytes.now }
{
    let first = LittleEndian::read_u32(bytes);
    let second = LittleEndian::read_u32(&bytes[4..]);
    [first, second]
}

// Decodes the move state at the start of `bytes`.
pub(crate) fn move_from_bytes(bytes: &[u8]) -> MoveState
    requires { 12 ≤ length bytes.now }
    ensures { move_view result ≡ decoded_gstate bytes.now }
{
    let word = LittleEndian::read_u32(bytes);
    MoveState {
        sync: word >> 31 == 1,
        kind: (word >> 20 & 0x7ff) as u16,
        id: (word >> 10 & 0x3ff) as u16,
        pair: address_from_bytes(&bytes[4..]),
    }
}

/// Decodes a pair's address from a tail or from a directory's struct.
pub fn pair_of(bytes: &[u8; 8]) -> [u32; 2]
    ensures { address_of_array result ≡ decoded_address bytes.now }
{
    address_from_bytes(bytes)
}

/// Decodes a file's CTZ struct (SPEC.md of littlefs, "0x202 LFS_TYPE_CTZSTRUCT"). Returns the
/// address of the CTZ skip-list's last block, called the head, and the file's size in bytes.
pub fn ctz_of(bytes: &[u8; 8]) -> (u32, u32)
    ensures { decoded_struct ctz_struct_type bytes.now ≡ Ctz result.0 result.1 }
{
    let words = address_from_bytes(bytes);
    (words[0], words[1])
}

/// Decodes the superblock's struct.
pub fn superblock_of(bytes: &[u8; 24]) -> Superblock
    ensures { superblock_view result ≡ superblock_fields bytes.now }
{
    Superblock {
        version: LittleEndian::read_u32(bytes),
        block_size: LittleEndian::read_u32(&bytes[4..]),
        block_count: LittleEndian::read_u32(&bytes[8..]),
        name_max: LittleEndian::read_u32(&bytes[12..]),
        file_max: LittleEndian::read_u32(&bytes[16..]),
        attr_max: LittleEndian::read_u32(&bytes[20..]),
    }
}

/// Decodes a move state and ignores the lowest ten bits of the first word.
pub fn move_of(bytes: &[u8; 12]) -> MoveState
    ensures { move_view result ≡ decoded_gstate bytes.now }
{
    move_from_bytes(bytes)
}
