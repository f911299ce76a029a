// Conversion of pair addresses to indices in the thread.

ghost use Rattle.std.specs.Prelude.{◌≡◌, IfErr, IfOk};
ghost use Rattle.lfs_model.specs.tree.View.{IsAccepted};
ghost use Rattle.lfs_lookup.specs.TreeWalk.{pairs_addresses};

use lfs_device::{BlockDevice, Error};
use lfs_thread::{PairAddressList, Thread};
use std::alloc::Global;

// Returns the addresses of all pairs, in a table that finds the index of a pair by its address.
pub(crate) fn thread_addresses<D: BlockDevice>(
    alloc: Global,
    thread: &Thread<D>,
) -> Result<PairAddressList, Error>
    requires { IsAccepted thread.now.kept.disk thread.now.kept.pairs }
    ensures all { IfOk result (λ places. places ≡ pairs_addresses thread.now.kept.pairs) }
    ensures errors { IfErr result (λ e. e ≡ Error.NoMemory) }
{
    let mut addresses = PairAddressList::new(alloc);
    for index in 0..thread.len() {
        addresses.add(thread.blocks_of_pair(index))?;
    }
    Ok(addresses)
}
