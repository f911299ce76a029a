// The rules of littlefs that an image may break.

ghost use Rattle.std.specs.Prelude.{List};
ghost use Rattle.lfs_model.specs.format.Content.{content_at};
ghost use Rattle.lfs_model.specs.format.Disk.{Disk, block_count};
ghost use Rattle.lfs_model.specs.format.Thread.{Pair, IsThread};
ghost use Rattle.lfs_model.specs.tree.View.{IsAccepted};
ghost use Rattle.lfs_model.specs.layers.Violations.{Breaks, PairsBreak, BreaksThread};

/// A rule of littlefs's SPEC.md or DESIGN.md that an image breaks, and where. `pair` is the address
/// of a metadata pair in the threaded linked-list, and `slot` is the index of a slot in that pair.
#[derive(Clone, Copy, Debug, PartialEq, Eq)]
pub enum Violation {
    // ---- the thread: the threaded linked-list of all metadata pairs
    /// A tail points to a pair with a block that the device doesn't have.
    OutOfRange {
        pair: [u32; 2],
    },
    /// A tail points to a pair whose two blocks are the same.
    OneBlock {
        pair: [u32; 2],
    },
    /// A block of the pair already belongs to an earlier pair of the threaded linked-list.
    TwoPairs {
        pair: [u32; 2],
        block: u32,
    },
    /// The pair has no valid contents. Valid contents have a commit with a correct checksum, only
    /// allowed entries, and a name and a struct for each slot.
    NoContent {
        pair: [u32; 2],
    },

    // ---- the superblock
    /// The first slot of the root directory isn't a superblock.
    NoSuperblock,
    /// The log of the first pair that has a slot doesn't begin with the superblock's name entry.
    FirstEntry {
        pair: [u32; 2],
    },
    /// Slot 0 of the first pair that has a slot isn't a superblock with an accepted version and the
    /// device's sizes.
    Superblock {
        pair: [u32; 2],
    },
    /// The superblock of the pair differs from the first superblock of the chain in more than the
    /// version, or has a version that isn't accepted.
    OtherSuperblock {
        pair: [u32; 2],
    },

    // ---- slots
    /// The slot is neither a valid file nor a valid directory: its name is bad, or its struct
    /// doesn't match the type of its name.
    Entry {
        pair: [u32; 2],
        slot: u32,
    },

    // ---- directories
    /// The names of the reachable directory that begins with the pair aren't in ascending order.
    Names {
        pair: [u32; 2],
    },
    /// An entry of the reachable directory that begins with the pair points to a pair with which no
    /// directory begins.
    Branch {
        pair: [u32; 2],
    },
    /// Two paths lead to the directory that begins with the pair.
    TwoPaths {
        pair: [u32; 2],
    },
    /// No path leads to the directory that begins with the pair, although the global state's sync
    /// bit is clear.
    NoPath {
        pair: [u32; 2],
    },

    // ---- the global state
    /// The global state has a move that refers to no entry, or something other than a move.
    Move,

    // ---- the lists of files
    /// The slot's CTZ skip-list has a wrong size, block address or pointer.
    List {
        pair: [u32; 2],
        slot: u32,
    },
    /// The block belongs to the slot's CTZ skip-list, and is used a second time by a metadata pair
    /// or a list.
    TwoOwners {
        pair: [u32; 2],
        slot: u32,
        block: u32,
    },
}

/// A disk that breaks a rule isn't accepted. A disk that breaks a rule about its threaded
/// linked-list has no valid threaded linked-list.
pub fn violation_refuses_image()
    ensures image { (disk : Disk) (v : Violation) (ps : List Pair) → Breaks disk v → ¬ IsAccepted disk ps }
    ensures pairs { (disk : Disk) (v : Violation) (ps : List Pair) → PairsBreak disk ps v → ¬ IsAccepted disk ps }
    ensures thread { (disk : Disk) (v : Violation) (ps : List Pair) → BreaksThread disk v → ¬ IsThread (content_at disk) (block_count disk) ps }
{}
