// The decoded struct of a slot.

ghost use Rattle.std.specs.Prelude.{◌≡◌, Some};
ghost use Rattle.std.specs.Option.{option_map};
ghost use Rattle.lfs_model.specs.format.Content.{decoded_struct};
ghost use Rattle.lfs_model.specs.layers.LoggedContent.{IsNameOrStruct};
ghost use Rattle.lfs_tag.specs.ContentView.{part_view};

use crate::content::NameOrStruct;
use crate::fields::{ctz_of, pair_of};
use crate::kinds::{CTZ_STRUCT, DIRECTORY_STRUCT, INLINE_STRUCT};

/// The decoded struct of a slot (SPEC.md of littlefs, "0x2xx LFS_TYPE_STRUCT"). An inline file's
/// bytes are borrowed.
#[derive(Clone, Copy, Drop)]
pub enum Struct<'a> {
    /// The bytes of an inline file, borrowed from the block.
    Inline(&'a [u8]),
    /// The address of the last block of a file's CTZ skip-list, and the file's size in bytes.
    Ctz { head: u32, size: u32 },
    /// The address of a directory's first pair.
    Branch([u32; 2]),
}

impl<'a> Struct<'a> {
    ghost use Rattle.lfs_tag.specs.StructView.{part_struct, struct_view};

    /// Decodes a slot's struct. Returns None if and only if the type isn't a struct's, or a CTZ or
    /// directory struct doesn't have 8 bytes. If a log isn't malformed, all of its structs can be
    /// decoded.
    pub fn of(part: &NameOrStruct<'a>) -> Option<Struct<'a>>
        ensures says { IsNameOrStruct 2 (part_view part.now) → option_map struct_view result ≡ Some (decoded_struct part.now.kind part.now.bytes.now) }
        ensures only { option_map struct_view result ≡ part_struct (part_view part.now) }
    {
        match (part.kind, <&[u8; 8]>::try_from(part.bytes)) {
            (INLINE_STRUCT, _) => Some(Struct::Inline(part.bytes)),
            (CTZ_STRUCT, Ok(bytes)) => {
                let (head, size) = ctz_of(bytes);
                Some(Struct::Ctz { head, size })
            }
            (DIRECTORY_STRUCT, Ok(bytes)) => Some(Struct::Branch(pair_of(bytes))),
            _ => None,
        }
    }
}
