// The rules for the sizes of an image.

ghost use Rattle.std.specs.Prelude.{◌≡◌, ◌≤◌, ◌*◌, ◌++◌, ◌/◌, ◌%◌, IfSome, None, OnOk};
ghost use Rattle.lfs_model.specs.format.Geometry.{is_valid_page_size};
ghost use Rattle.lfs_tool.specs.Sizes.{AreValidImageSizes, IsFirstBrokenRule, BreaksNoneBefore, number_text, rule_index, rule_words, broken_rule_line, sizes_text};

use std::alloc::AllocError;
use std::io::Write;

/// The sizes of an image, of its blocks and of its pages, in bytes.
#[derive(Clone, Copy, Debug, PartialEq, Eq, Drop)]
pub struct Sizes {
    pub size: usize,
    pub block_size: u32,
    pub page: u32,
}

/// A rule for the sizes of an image. `Sizes::broken_rule` checks the rules in the order of this
/// enum.
#[derive(Clone, Copy, Debug, PartialEq, Eq, Drop)]
pub enum SizeRule {
    /// A page has 8, 16, 32, 64, 128, 256 or 512 bytes.
    PageSize,
    /// A block has 1024 to 65536 bytes.
    BlockSize,
    /// A page is at most an eighth of a block.
    EightPages,
    /// A block is a whole number of pages.
    WholePages,
    /// An image has at most 268,435,456 bytes.
    ImageSize,
    /// An image is a whole number of blocks.
    WholeBlocks,
    /// An image has 2 to 65536 blocks.
    BlockCount,
}

fn is_page_size(page: u32) -> bool
    ensures { result ≡ is_valid_page_size page }
{
    page == 8 || page == 16 || page == 32 || page == 64 || page == 128 || page == 256 || page == 512
}

// Appends a text and then a number.
fn push_labelled(text: &mut Vec<u8>, before: &str, number: usize) -> Result<(), AllocError>
    ensures { OnOk result (text.new.items ≡ text.old.items ++ number_text before.now number) }
{
    text.extend_from_slice(before.as_bytes())?;
    if write!(text, "{}", number).is_err() {
        return Err(AllocError);
    }
    Ok(())
}

// Returns the text of the rule.
fn size_rule_text(rule: SizeRule) -> &'static str
    ensures { result.now ≡ rule_words rule }
{
    match rule {
        SizeRule::PageSize => ": a page has 8, 16, 32, 64, 128, 256 or 512 bytes\n",
        SizeRule::BlockSize => ": a block has from 1024 to 65536 bytes\n",
        SizeRule::EightPages => ": a page is at most an eighth of a block\n",
        SizeRule::WholePages => ": a block is a whole number of pages\n",
        SizeRule::ImageSize => "an image has at most 268435456 bytes\n",
        SizeRule::WholeBlocks => ": an image is a whole number of blocks\n",
        SizeRule::BlockCount => ": an image has from 2 to 65536 blocks\n",
    }
}

impl Sizes {
    // Appends the sizes that the rule concerns.
    fn push_rule_sizes(self, text: &mut Vec<u8>, rule: SizeRule) -> Result<(), AllocError>
        ensures { OnOk result (text.new.items ≡ text.old.items ++ sizes_text self rule) }
    {
        let (block_size, page) = (self.block_size as usize, self.page as usize);
        match rule {
            SizeRule::PageSize => push_labelled(text, "page ", page),
            SizeRule::BlockSize => push_labelled(text, "block ", block_size),
            SizeRule::EightPages | SizeRule::WholePages => {
                push_labelled(text, "block ", block_size)?;
                push_labelled(text, ", page ", page)
            }
            SizeRule::WholeBlocks | SizeRule::BlockCount => {
                push_labelled(text, "size ", self.size)?;
                push_labelled(text, ", block ", block_size)
            }
            SizeRule::ImageSize => Ok(()),
        }
    }

    /// Appends the line that states the rule and the sizes that break it.
    ///
    /// Errors: `AllocError` if memory can't be allocated.
    pub fn push_rule_line(self, text: &mut Vec<u8>, rule: SizeRule) -> Result<(), AllocError>
        ensures { OnOk result (text.new.items ≡ text.old.items ++ broken_rule_line self rule) }
    {
        self.push_rule_sizes(text, rule)?;
        text.extend_from_slice(size_rule_text(rule).as_bytes())?;
        Ok(())
    }

    // Returns the first rule that the size of the image breaks, or None if it breaks none. The
    // sizes of blocks and pages must break no rule.
    fn first_broken_rule(self) -> Option<SizeRule>
        requires { BreaksNoneBefore self (rule_index SizeRule.ImageSize) }
        ensures broken { IfSome result (IsFirstBrokenRule self) }
        ensures fits { result ≡ None → AreValidImageSizes self }
    {
        let block_size = self.block_size as usize;
        if self.size > 268_435_456 {
            return Some(SizeRule::ImageSize);
        }
        if self.size % block_size != 0 {
            return Some(SizeRule::WholeBlocks);
        }
        let count = self.size / block_size;
        if count < 2 || count > 65536 {
            return Some(SizeRule::BlockCount);
        }
        None
    }

    /// Returns the first rule that the sizes break, in the order of `SizeRule`. Returns None if and
    /// only if an image can have these sizes.
    pub fn broken_rule(self) -> Option<SizeRule>
        ensures broken { IfSome result (IsFirstBrokenRule self) }
        ensures fits { result ≡ None → AreValidImageSizes self }
    {
        let (block_size, page) = (self.block_size as usize, self.page as usize);
        if !is_page_size(self.page) {
            return Some(SizeRule::PageSize);
        }
        if block_size < 1024 || block_size > 65536 {
            return Some(SizeRule::BlockSize);
        }
        if 8 * page > block_size {
            return Some(SizeRule::EightPages);
        }
        if block_size % page != 0 {
            return Some(SizeRule::WholePages);
        }
        self.first_broken_rule()
    }
}
