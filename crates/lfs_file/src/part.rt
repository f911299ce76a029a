/// A range of `len` bytes within one block of a list, starting at `offset` in the block.
#[derive(Clone, Copy)]
pub struct BlockPart {
    pub block: u32,
    pub offset: u32,
    pub len: u32,
}
