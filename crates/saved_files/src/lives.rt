// A lemma for functions that make two calls: a power loss interrupts only one of them.

ghost use Rattle.std.specs.Prelude.{◌⊎◌};
ghost use Rattle.lfs_model.specs.format.Disk.{Disk};
ghost use Rattle.lfs_model.specs.session.Run.{SystemState};
ghost use Rattle.lfs_model.specs.crash.RepeatedPowerLoss.{LeftBetween};
ghost use Rattle.lfs_fs.specs.Starts.{IsReachableByCalls};
ghost use Rattle.saved_files.specs.Working.{KeepsWorkingBetween};

/// Proves that a power loss between two states of a session is before or after any state between
/// them, if the session answered each operation until then and wasn't remounted.
pub fn power_loss_interrupts_one_call()
    ensures { (a b c : SystemState) (left : Disk) → KeepsWorkingBetween a b → IsReachableByCalls b c → LeftBetween a c left → LeftBetween a b left ⊎ LeftBetween b c left }
{}
