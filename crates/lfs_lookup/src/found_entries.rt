// The results of look-ups by path.

ghost use Rattle.std.specs.Prelude.{◌≡◌};
ghost use Rattle.lfs_lookup.specs.Finds.{is_absent, is_directory_node, is_file_node, node_size_if_file, stat_view};

use crate::kinds::{Kind, ListItem, Stat};
use crate::refusal::Refusal;

/// The entry at a path.
#[derive(Drop)]
pub struct FoundNode {
    /// The error to report if a parent is missing (`NoEnt`) or is a file (`NotDir`).
    pub fault: Option<Refusal>,
    /// The entry at the path, or `Nothing` if a parent isn't a directory.
    pub node: Node,
}

/// A file, a directory, or nothing, as the result of a look-up.
#[derive(Clone, Copy)]
pub enum Node {
    Nothing,
    /// A file, with its size in bytes.
    File { size: u32 },
    Directory,
}

impl Node {
    pub fn is_nothing(self) -> bool
        ensures { result ≡ is_absent self }
    {
        matches!(self, Node::Nothing)
    }

    pub fn is_directory(self) -> bool
        ensures { result ≡ is_directory_node self }
    {
        matches!(self, Node::Directory)
    }

    pub fn is_file(self) -> bool
        ensures { result ≡ is_file_node self }
    {
        matches!(self, Node::File { .. })
    }

    /// Returns the size of a file in bytes. Returns None for a directory and for nothing.
    pub fn size(self) -> Option<u32>
        ensures { result ≡ node_size_if_file self }
    {
        match self {
            Node::File { size } => Some(size),
            _ => None,
        }
    }
}

/// The entry at a path, and whether it is a directory that has entries.
#[derive(Drop)]
pub struct NodeAndEmptiness {
    pub finding: FoundNode,
    pub has_entries: bool,
}

/// The entry at a path, and one of its attributes.
#[derive(Drop)]
pub struct FoundAttribute {
    pub finding: FoundNode,
    /// The bytes of the attribute, or None if the entry doesn't have the attribute.
    pub bytes: Option<Vec<u8>>,
}

/// The entry at a path and, if it is a directory, the entries in it.
#[derive(Drop)]
pub struct Listing {
    pub finding: FoundNode,
    /// The directory's entries, sorted by name; a name that is a prefix of another comes first. The
    /// list is empty if the path doesn't lead to a directory.
    pub items: Vec<ListItem>,
}

impl Stat {
    /// Returns the `Stat` of a file of `size` bytes, or of a directory if `size` is None.
    pub fn from_size(size: Option<u32>) -> Stat
        ensures { stat_view result ≡ size }
    {
        match size {
            Some(size) => Stat {
                kind: Kind::File,
                size,
            },
            None => Stat {
                kind: Kind::Dir,
                size: 0,
            },
        }
    }
}
