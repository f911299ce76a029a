// Decoded structs of slots.

ghost use Rattle.lfs_model.specs.format.Content.{decoded_struct};
ghost use Rattle.lfs_model.specs.layers.LoggedContent.{IsNameOrStruct};
ghost use Rattle.lfs_tag.specs.ContentView.{part_view};
ghost use Rattle.lfs_lookup.specs.Entry.{IsStructEntry};

use lfs_tag::{NameOrStruct, Struct};

/// The location of a file's bytes.
#[derive(Clone, Copy, Debug, PartialEq, Eq, Drop)]
pub enum FileStorage {
    /// `len` bytes, stored inline in the file's slot.
    Inline { len: usize },
    /// A CTZ skip-list: the number of its last block, and its size in bytes.
    List { head: u32, size: u32 },
}

/// A decoded struct (SPEC.md of littlefs, "0x2xx LFS_TYPE_STRUCT").
#[derive(Clone, Copy, Debug, PartialEq, Eq, Drop)]
pub enum FileOrDirectory {
    File(FileStorage),
    /// A directory: the address of its first pair.
    Directory([u32; 2]),
}

/// Decodes a slot's struct. Returns where a file's bytes are stored, or the address of a
/// directory's first pair (SPEC.md of littlefs, "0x2xx LFS_TYPE_STRUCT").
pub fn entry_of_struct(structure: &NameOrStruct<'_>) -> FileOrDirectory
    requires { IsNameOrStruct 2 (part_view structure.now) }
    ensures { IsStructEntry result (decoded_struct structure.now.kind structure.now.bytes.now) }
{
    match Struct::of(structure).unwrap() {
        Struct::Inline(bytes) => FileOrDirectory::File(FileStorage::Inline { len: bytes.len() }),
        Struct::Ctz { head, size } => FileOrDirectory::File(FileStorage::List { head, size }),
        Struct::Branch(pair) => FileOrDirectory::Directory(pair),
    }
}
