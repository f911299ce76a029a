// The parts of a thread.

use lfs_blocks::{BlockMap, Cache};
use lfs_device::BlockDevice;
use lfs_model::NameOrder;
use lfs_pair::Pair;

/// The parts of a [`Thread`](crate::Thread).
#[derive(Drop)]
pub struct ThreadParts<D: BlockDevice> {
    pub device: D,
    /// The order by which the names in each directory are sorted.
    pub order: NameOrder,
    /// The cache of the blocks that were read most recently.
    pub cache: Cache,
    /// The headers of the metadata pairs, in the thread's order.
    pub pairs: Vec<Pair>,
    /// The block map, which records whether each block is free, in flight or used.
    pub map: BlockMap,
}
