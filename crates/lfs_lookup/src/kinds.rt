// The kind and size of an entry.

ghost use Rattle.std.specs.Prelude.{◌≡◌};
ghost use Rattle.lfs_lookup.specs.declared.kinds.Kind.TheVariants.{Dir};

use arrayvec::ArrayVec;

/// The kind of an entry: file or directory.
#[derive(Clone, Copy, PartialEq, Eq, Debug)]
pub enum Kind {
    File,
    Dir,
}

/// The kind and the size of an entry.
#[derive(Clone, Copy, Debug)]
pub struct Stat {
    pub kind: Kind,
    /// The size of a file in bytes, or 0 for a directory.
    pub size: u32,
    ghost no_bytes: { kind ≡ Dir → size ≡ 0 },
}

/// An entry of a directory.
#[derive(Drop)]
pub struct ListItem {
    /// The bytes of the entry's name.
    pub name: ArrayVec<u8, 255>,
    pub kind: Kind,
    /// The size of a file in bytes, or 0 for a directory.
    pub size: u32,
    ghost no_bytes: { kind ≡ Dir → size ≡ 0 },
}
