// Allocates blocks from the map.

ghost use Rattle.std.specs.Prelude.{◌≡◌, ◌≤◌, ◌+◌, ℕ, length, IfOk, IfErr};
ghost use Rattle.lfs_model.specs.layers.BlockSets.{in_flight_count, used_count};
ghost use Rattle.lfs_file.specs.TakenBlocks.{ChangesOnlyFree, TakesFreeBlocks};

use lfs_blocks::BlockMap;
use lfs_device::Error;
use std::alloc::Global;

// Allocates `count` free blocks. Requires that at least `count` blocks are free.
pub(crate) fn take_blocks(alloc: Global, map: &mut BlockMap, count: u32) -> Result<Vec<u32>, Error>
    requires { used_count map.old + in_flight_count map.old + count ≤ length map.old }
    ensures taken { IfOk result (λ v. TakesFreeBlocks map.old map.new v.items) }
    ensures count { IfOk result (λ v. length v.items ≡ count) }
    ensures flying { IfOk result (λ v. in_flight_count map.new ≡ in_flight_count map.old + length v.items) }
    ensures kept { ChangesOnlyFree map.old map.new }
    ensures error { IfErr result (λ e. e ≡ Error.NoMemory) }
{
    let mut blocks = Vec::with_capacity(alloc, count as usize)?;
    'take_next: while blocks.len() < count as usize {
        let block = map.take().unwrap();
        blocks.push(block)?;
    }
    Ok(blocks)
}
