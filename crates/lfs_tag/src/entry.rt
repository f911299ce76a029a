// An entry of a log.

ghost use Rattle.std.specs.Prelude.{◌≡◌, length};
ghost use Rattle.lfs_model.specs.format.Tag.{tag_data_size};

use crate::tag::Tag;

/// An entry of a log: a tag, and its data, which is borrowed from the block.
#[derive(Clone, Copy, Drop)]
pub struct Entry<'a> {
    pub tag: Tag,
    pub bytes: &'a [u8],
    ghost sized: { length bytes.now ≡ tag_data_size tag },
}
