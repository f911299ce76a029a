ghost use Rattle.std.specs.Prelude.{◌≡◌, ◌≤◌};
ghost use Rattle.lfs_model.specs.format.SkipLists.{IsByteInListBlock, skip_list_block_count};

/// Returns the number of blocks in a list of `size` bytes, which is 0 if `size` is 0. Requires a
/// block size of at least 1,024 bytes.
pub fn blocks_for(block_size: u32, size: u32) -> u32
    requires { 1024 ≤ block_size }
    ensures { result ≡ skip_list_block_count block_size size }
{
    if size == 0 {
        return 0;
    }
    let (last, _) = place(block_size, size - 1);
    last + 1
}

/// Returns the index of the block that contains a file's byte `pos`, and the byte's offset in that
/// block. The first block of the file has the index 0. Requires a block size of at least 1,024
/// bytes. The formula is from DESIGN.md of littlefs ("CTZ skip-lists").
// The function is long, so it isn't inlined into each caller.
#[inline(never)]
pub fn place(block_size: u32, pos: u32) -> (u32, u32)
    requires { 1024 ≤ block_size }
    ensures { IsByteInListBlock block_size pos result.0 result.1 }
{
    // A block has two pointers on average.
    let mean = block_size - 8;
    let guess = pos / mean;
    if guess == 0 {
        return (0, pos);
    }
    // The guess is therefore right or one too large.
    let index = if pos % mean < 4 * ((guess - 1).count_ones() + 2) {
        guess - 1
    } else {
        guess
    };
    (index, pos - mean * index - 4 * index.count_ones())
}
