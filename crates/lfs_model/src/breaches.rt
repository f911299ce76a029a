// The rules of the writing profile that an image may break.

ghost use Rattle.std.specs.Prelude.{List};
ghost use Rattle.lfs_model.specs.format.Disk.{Disk};
ghost use Rattle.lfs_model.specs.tree.Profile.{IsWritable};
ghost use Rattle.lfs_model.specs.layers.ProfileBreaches.{BreaksProfile};
ghost use Rattle.lfs_model.specs.format.Thread.{Pair};
ghost use Rattle.lfs_model.specs.declared.breaches.ProfileBreach.{ProfileBreach};

/// A limit in a superblock that differs from the profile's limit, in bytes.
#[derive(Clone, Copy, Debug, PartialEq, Eq)]
pub enum OtherLimit {
    /// The superblock's limit on the length of a name.
    Name(u32),
    /// The superblock's limit on the size of a file.
    File(u32),
    /// The superblock's limit on the size of an attribute.
    Attr(u32),
}

/// A rule of the writing profile that an accepted image breaks, and where. An image that breaks
/// such a rule is read-only. `pair` is the address of a metadata pair in the threaded linked-list,
/// and `slot` is the index of a slot in that pair.
#[derive(Clone, Copy, Debug, PartialEq, Eq)]
pub enum ProfileBreach {
    /// The slot is a superblock with a limit that differs from the profile's limit.
    OtherLimits {
        pair: [u32; 2],
        slot: usize,
        limit: OtherLimit,
    },
    /// The slot is an inline file with more bytes than an eighth of a block, or than the profile's
    /// `inline_max`.
    LongInline {
        pair: [u32; 2],
        slot: usize,
    },
    /// The pair continues a directory, but has no slots.
    EmptyPair {
        pair: [u32; 2],
    },
    /// The pair has more slots or bytes than a compacted pair may have, or an entry that needs more
    /// than half of these bytes.
    TooLarge {
        pair: [u32; 2],
    },
}

/// An image that breaks a rule of the writing profile may not be written.
pub fn breach_prevents_writing()
    ensures { (disk : Disk) (ps : List Pair) (b : ProfileBreach) → BreaksProfile disk ps b → ¬ IsWritable disk ps }
{}
