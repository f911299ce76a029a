// A log in a file that is appended to in place. A close commits a whole entry at once.

ghost use Rattle.std.specs.Prelude.{ℕ, ◌≡◌, List, OnOk};
ghost use Rattle.lfs_model.specs.format.Disk.{Disk};
ghost use Rattle.lfs_model.specs.crash.RepeatedPowerLoss.{MeetsCrashSafetyPremises, LeftBetween};
ghost use Rattle.lfs_model.specs.session.Session.{Session as SessionState};
ghost use Rattle.lfs_model.specs.session.Run.{SystemState};
ghost use Rattle.lfs_model.specs.session.State.{Healthy};
ghost use Rattle.lfs_fs.specs.SessionView.{system_state};
ghost use Rattle.lfs_model.specs.crash.LifeTrees.{HasMountableTree};
ghost use Rattle.saved_files.specs.Working.{LossLeavesTreeWith};
ghost use Rattle.saved_files.specs.Log.{AreSequentialAppends, AreInterruptedSessions, HasPrefixOfEntries, HasPrefixPerSession, IsCrashSafeAppend, IsCompletedAppend, log_in};

use crate::files::{appending_flags, write_file};
use lfs_device::{BlockDevice, Error};
use lfs_fs::Session;
use std::alloc::Global;

/// Appends an entry to the log. If power is lost during the call, the next start finds the log
/// without the entry, or with the whole entry.
///
/// # Errors
///
/// Returns the errors of [`write_file`].
pub fn append_to_log<D: BlockDevice>(
    session: &mut Session<D>,
    alloc: Global,
    entry: &[u8],
) -> Result<(), Error>
    ensures append { IsCrashSafeAppend (system_state session.old) entry.now (system_state session.new) }
    ensures done { OnOk result (IsCompletedAppend (system_state session.old) entry.now (system_state session.new)) }
{
    write_file(session, alloc, b"/log", appending_flags(), entry)?;
    Ok(())
}

/// Proves what a log contains after a power loss in each of several sessions: the first few entries
/// of each session, and never a part of an entry.
pub fn log_survives_any_losses()
    ensures once { (from : SystemState) (entries : List (List ℕ)) (to : SystemState) (s : SessionState) → AreSequentialAppends from entries to → from.state ≡ Healthy s
        → LossLeavesTreeWith (λ tree. HasPrefixOfEntries (log_in s.tree) entries (log_in tree)) from to }
    ensures again { (disk left : Disk) (old : List ℕ) (sessions : List (List (List ℕ))) → HasMountableTree (λ tree. log_in tree ≡ old) disk → AreInterruptedSessions disk sessions left
        → HasMountableTree (λ tree. HasPrefixPerSession old sessions (log_in tree)) left }
{}
