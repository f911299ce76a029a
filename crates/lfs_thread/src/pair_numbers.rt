// A search for a pair of the thread by its address.

ghost use Rattle.std.specs.Prelude.{◌≡◌, IfNone, IfSome, false};
ghost use Rattle.std.specs.List.{AllByRecursion};
ghost use Rattle.lfs_model.specs.session.InDirectory.{IsPairAt};
ghost use Rattle.lfs_model.specs.format.Slots.{address_of_array, same_pair};

use crate::thread::Thread;
use lfs_device::BlockDevice;
use lfs_pair::is_same_pair;

/// Returns the index in the thread of the pair at address `at`, whose two blocks may be in either
/// order. Returns None if the thread has no such pair.
pub fn number_at_address<D: BlockDevice>(thread: &Thread<D>, at: [u32; 2]) -> Option<usize>
    ensures there { IfSome result (IsPairAt thread.now.kept.pairs (address_of_array at)) }
    ensures nowhere { IfNone result (AllByRecursion (λ p. same_pair p.at (address_of_array at) ≡ false) thread.now.kept.pairs) }
{
    for index in 0..thread.len() {
        if is_same_pair(thread.blocks_of_pair(index), at) {
            return Some(index);
        }
    }
    None
}
