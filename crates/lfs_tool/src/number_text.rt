// The printed forms of pair addresses and wrong numbers.

use crate::verdict::{CheckedSizes, WrongNumber};
use std::fmt;

// The address of a pair, printed as its two blocks.
#[derive(Clone, Copy, Drop)]
pub(crate) struct PairText(pub [u32; 2]);

impl fmt::Display for PairText {
    ghost use Rattle.std.specs.Prelude.{Some};
    ghost use Rattle.lfs_model.specs.format.Slots.{address_of_array};
    ghost use Rattle.lfs_tool.specs.NumberTexts.{pair_text};

    ghost output = { λ pair. Some (pair_text (address_of_array pair.0)) };

    fn fmt<W: fmt::Write>(&self, f: &mut fmt::Formatter<W>) -> fmt::Result {
        write!(f, "pair {} {}", self.0[0], self.0[1])
    }
}

// A wrong number in a superblock, printed with the given size that it contradicts.
#[derive(Clone, Copy, Drop)]
pub(crate) struct WrongFieldText {
    pub given: CheckedSizes,
    pub stated: WrongNumber,
}

impl fmt::Display for WrongFieldText {
    ghost use Rattle.std.specs.Prelude.{Some};
    ghost use Rattle.lfs_tool.specs.NumberTexts.{wrong_field_text};

    ghost output = { λ number. Some (wrong_field_text number.given number.stated) };

    fn fmt<W: fmt::Write>(&self, f: &mut fmt::Formatter<W>) -> fmt::Result {
        let (block_size, blocks) = (self.given.block_size, self.given.blocks);
        match self.stated {
            WrongNumber::BlockSize(size) => {
                write!(f, "superblock: block size {size}, given {block_size}")
            }
            WrongNumber::BlockCount(count) => {
                write!(f, "superblock: block count {count}, given {blocks}")
            }
            WrongNumber::Version(version) => {
                let (major, minor) = (version / 65536, version % 65536);
                write!(f, "superblock: version {major}.{minor}")
            }
        }
    }
}

// Sizes that no image can have, printed as the reason for a refusal.
#[derive(Clone, Copy, Drop)]
pub(crate) struct NoImageText(pub CheckedSizes);

impl fmt::Display for NoImageText {
    ghost use Rattle.std.specs.Prelude.{Some};
    ghost use Rattle.lfs_tool.specs.NumberTexts.{no_image_text};

    ghost output = { λ sizes. Some (no_image_text sizes.0) };

    fn fmt<W: fmt::Write>(&self, f: &mut fmt::Formatter<W>) -> fmt::Result {
        let (block_size, page, size) = (self.0.block_size, self.0.page, self.0.size);
        write!(f, "no image of blocks of {block_size} bytes")?;
        write!(f, " and pages of {page} has a length of {size}")
    }
}
