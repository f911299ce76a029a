// The bytes that an open reader returns.

ghost use Rattle.std.specs.Prelude.{◌≡◌, ◌+◌, ◌<◌, ◌^◌, ℕ, List, drop, false, take, IfOk, OnOk, vec_len};
ghost use Rattle.lfs_model.specs.tree.Tree.{Path};
ghost use Rattle.lfs_model.specs.session.TreeEdits.{file_bytes};
ghost use Rattle.lfs_fs.specs.SessionView.{IsCurrentReader};
ghost use Rattle.lfs_file.specs.Known.{AreKnownBlocks, ReadsKnownList};
ghost use Rattle.lfs_lookup.specs.FileContents.{contents_struct};
ghost use Rattle.lfs_model.specs.tree.Shown.{struct_blocks};
ghost use Rattle.lfs_model.specs.format.Slots.{Ctz, Inline};
ghost use Rattle.lfs_tree.specs.TreeState.{ReadsTreeOrFails, visible_tree};

use crate::files::Reader;
use lfs_device::{BlockDevice, Error};
use lfs_file::IndexCache;
use lfs_tree::Tree;
use std::alloc::Global;

// Returns at most `count` bytes of a reader's file from the reader's position. Looks up no path,
// and allocates memory only for these bytes. `known` has the blocks of the CTZ skip-list that the
// reader has found, and receives the blocks that this read finds.
pub(crate) fn bytes_for_reader<D: BlockDevice>(
    alloc: Global,
    tree: &mut Tree<D>,
    reader: &Reader,
    known: &mut IndexCache,
    count: u32,
) -> Result<Vec<u8>, Error>
    requires works { tree.old.failed ≡ false }
    requires kept { (written : List Path) × IsCurrentReader tree.old.pairs written reader.now }
    requires blocks { AreKnownBlocks (struct_blocks tree.old.disk (contents_struct reader.now.contents)) known.old }
    ensures reading { ReadsTreeOrFails tree.old result tree.new }
    ensures bytes { IfOk result (λ v. v.items ≡ take count (drop reader.now.position (file_bytes (visible_tree tree.old reader.now.path)))) }
    ensures end { IfOk result (λ v. reader.now.position + vec_len v < 2 ^ 32) }
    ensures blocks { AreKnownBlocks (struct_blocks tree.old.disk (contents_struct reader.now.contents)) known.new }
    ensures none { (own : List ℕ) → contents_struct reader.now.contents ≡ Inline own → tree.new.history ≡ tree.old.history }
    ensures few { (head size : ℕ) → contents_struct reader.now.contents ≡ Ctz head size → OnOk result (ReadsKnownList tree.old.disk.block_size size reader.now.position count known.old known.new tree.old.history tree.new.history) }
{
    let left = tree
        .size_of_contents(&reader.contents)
        .saturating_sub(reader.position);
    let Ok(mut bytes) = Vec::from_elem(alloc, 0u8, count.min(left) as usize) else {
        tree.fail();
        return Err(Error::NoMemory);
    };
    tree.read(&reader.contents, known, reader.position, &mut bytes)?;
    Ok(bytes)
}
