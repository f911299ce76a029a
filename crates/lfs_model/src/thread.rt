// A disk's thread, which is the threaded linked-list of its metadata pairs.

ghost use Rattle.std.specs.Prelude.{◌≡◌, ℕ, List, Option};
ghost use Rattle.lfs_model.specs.format.Disk.{Disk};
ghost use Rattle.lfs_model.specs.format.Slots.{PairContent};
ghost use Rattle.lfs_model.specs.format.Thread.{Pair, IsThread};
ghost use Rattle.lfs_model.specs.tree.View.{DiskView, IsAccepted, HasDiskView};

/// A disk has at most one threaded linked-list of metadata pairs. An accepted image shows exactly
/// one tree, one global state and one list of used blocks.
pub fn thread_is_unique()
    ensures thread { (content_of : ℕ × ℕ → Option PairContent) (block_count : ℕ) (ps qs : List Pair)
        → IsThread content_of block_count ps → IsThread content_of block_count qs → ps ≡ qs }
    ensures image { (disk : Disk) (ps qs : List Pair) → IsAccepted disk ps → IsAccepted disk qs → ps ≡ qs }
    ensures view { (disk : Disk) (a b : DiskView) → HasDiskView disk a → HasDiskView disk b → a ≡ b }
{}
