// Wear leveling: relocates worn metadata pairs after an operation. A pair is worn if its revision
// count is a multiple of the profile's `pair_cycles`.

ghost use Rattle.std.specs.Prelude.{◌≡◌, false, true, IfOk, None, OnOk};
ghost use Rattle.lfs_model.specs.format.Slots.{zero_gstate};
ghost use Rattle.lfs_model.specs.format.Thread.{pairs_gstate};
ghost use Rattle.lfs_tree.specs.Recoveries.{HasRecovered};
ghost use Rattle.lfs_tree.specs.TreeCalls as call;
ghost use Rattle.lfs_tree.specs.TreeCalls.{AppliesCallOrFails};
ghost use Rattle.lfs_tree.specs.TreeState.{kept_thread};
ghost use Rattle.lfs_tree.specs.Wear.{CanRelocateByPlan, IsRelocationPlanned, RelocatesUnlessChangeFailed};

use crate::tree::Tree;
use lfs_device::{BlockDevice, Error};
use lfs_operations::{RelocationPlan, plan_move, relocate};
use std::alloc::Global;

impl<D: BlockDevice> Tree<D> {
    // Plans the relocation of a worn pair before an operation that allocates at most `room` blocks.
    // Returns None if the profile's `pair_cycles` is 0.
    pub(crate) fn plan_move(&mut self, room: u32) -> Option<RelocationPlan>
        requires { self.old.failed ≡ false }
        ensures planned { IsRelocationPlanned self.old room result }
        ensures same { self.new ≡ self.old }
    {
        let device = self.thread.device();
        if device.geometry().profile.pair_cycles == 0 {
            return None;
        }
        plan_move(&mut self.thread, self.root, room)
    }

    // Plans a relocation, and then recovers.
    pub(crate) fn plan_and_recover(
        &mut self,
        alloc: Global,
        room: u32,
    ) -> Result<Option<RelocationPlan>, Error>
        requires works { self.old.failed ≡ false }
        requires writable { self.old.writable ≡ true }
        ensures does { AppliesCallOrFails self.old call.Recover result self.new }
        ensures settled { OnOk result (HasRecovered (kept_thread self.old) (kept_thread self.new)) }
        ensures idle { pairs_gstate self.old.pairs ≡ zero_gstate → self.new ≡ self.old }
        ensures planned { IfOk result (IsRelocationPlanned self.old room) }
    {
        let plan = self.plan_move(room);
        self.recover(alloc)?;
        Ok(plan)
    }

    // Relocates at most one worn pair after an operation. If the operation failed, does nothing and
    // returns its error.
    pub(crate) fn relocate(
        &mut self,
        alloc: Global,
        plan: Option<RelocationPlan>,
        done: Result<(), Error>,
    ) -> Result<(), Error>
        requires { OnOk done (CanRelocateByPlan self.old plan) }
        ensures does { RelocatesUnlessChangeFailed self.old plan done result self.new }
        ensures idle { plan ≡ None → (result ≡ done) × (self.new ≡ self.old) }
    {
        done?;
        let _device = self.thread.device();
        let Some(plan) = plan else {
            return Ok(());
        };
        self.root = relocate(alloc, &mut self.thread, self.root, plan)?;
        Ok(())
    }
}
