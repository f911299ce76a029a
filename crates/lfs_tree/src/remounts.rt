// Remounts.

ghost use Rattle.std.specs.Prelude.{◌≡◌, IfErr, IfOk, OnErr, OnOk};
ghost use Rattle.lfs_blocks.specs.Next.{BeginsAt};
ghost use Rattle.lfs_tree.specs.TreeState.{FailedByReading, HasMountCause, IsRemountedTree};

use crate::tree::Tree;
use lfs_blocks::{BlockMap, Cache};
use lfs_device::{BlockDevice, Error};
use lfs_thread::{Thread, ThreadParts};
use std::alloc::Global;

// The parts of a threaded list other than its device. They are allocated before a remount, since
// the remount may fail.
#[derive(Drop)]
pub(crate) struct SpareThreadParts {
    alloc: Global,
    cache: Cache,
    map: BlockMap,
    // The block at which the search for free blocks continues.
    start: u32,
}

impl SpareThreadParts {
    // Allocates the parts.
    pub(crate) fn new(alloc: Global, start: u32) -> Result<SpareThreadParts, Error>
        ensures start { IfOk result (λ spare. spare.start ≡ start) }
        ensures error { IfErr result (λ e. e ≡ Error.NoMemory) }
    {
        let cache = Cache::new(alloc)?;
        let mut map = BlockMap::new(alloc, 0)?;
        map.start_search_at(start);
        Ok(SpareThreadParts {
            alloc,
            cache,
            map,
            start,
        })
    }
}

// Mounts the same device again. The search for free blocks continues at `spare.start`, so a block
// whose erase or prog failed isn't the first one to be tried again. If the remount fails, the tree
// keeps its order of names.
pub(crate) fn mount_again<D: BlockDevice>(
    tree: Tree<D>,
    spare: SpareThreadParts,
) -> (Tree<D>, Result<Option<u32>, Error>)
    ensures mounted { OnOk result.1 (IsRemountedTree tree result.0) }
    ensures broken { OnErr result.1 (FailedByReading tree result.0) }
    ensures errors { IfErr result.1 (HasMountCause tree result.0) }
    ensures goes_on { IfOk result.1 (BeginsAt result.0.map spare.start) }
{
    let is_writable = tree.is_writable;
    let order = tree.order();
    let SpareThreadParts {
        alloc,
        cache,
        map,
        start,
    } = spare;
    match Tree::mount(alloc, tree.into_device()) {
        Ok(mut tree) => {
            let first = tree.thread.start_search_at(start);
            (tree, Ok(first))
        }
        Err((device, error)) => {
            let thread = Thread::failed_thread(ThreadParts {
                device,
                order,
                cache,
                pairs: Vec::new(alloc),
                map,
            });
            let tree = Tree {
                thread,
                root: 0,
                is_writable,
            };
            (tree, Err(error))
        }
    }
}
