// The session's calls that look for a file and load its bytes. A file is open in the session only
// during one of these calls.

ghost use Rattle.std.specs.Prelude.{◌≡◌, ◌∷◌, [], IfErr, IfOk, IfSome, false, length};
ghost use Rattle.lfs_tree.specs.TreeState.{visible_tree};
ghost use Rattle.lfs_volume.specs.Opened.{IsIdleSession, LeadsToFile};
ghost use Rattle.lfs_model.specs.session.Operations as ops;
ghost use Rattle.lfs_fs.specs.CallEffects.{IsCall};
ghost use Rattle.lfs_fs.specs.FlagsView.{flags_view};
ghost use Rattle.lfs_fs.specs.Replies.{reply_from};
ghost use Rattle.lfs_volume.specs.Saves.{OpensAndClosesFile, IsIdleIfRefused, IsLoaded};
ghost use Rattle.lfs_volume.specs.SessionCalls.{FailsInCalls, error_result};

use lfs_device::{BlockDevice, Error};
use lfs_fs::{OpenFlags, Session};
use std::alloc::Global;
use std::mem;

// Returns `count` bytes of memory from `spare`, or None if the capacity of `spare` is less than
// `count` bytes, or so much more that too much memory would be wasted.
fn take_spare_memory(alloc: Global, spare: &mut Vec<u8>, count: usize) -> Option<Vec<u8>>
    ensures { IfSome result (λ v. length v.items ≡ count) }
{
    if spare.capacity() < count || spare.capacity() / 2 > count {
        return None;
    }
    let mut bytes = mem::replace(spare, Vec::new(alloc));
    match bytes.resize(count, 0) {
        Ok(()) => Some(bytes),
        Err(_) => None,
    }
}

// Reads an open file into `bytes`, and returns the bytes that were read. Returns fewer bytes if the
// file ends earlier.
//
// Returns the same errors as the session's `read_into`.
fn read_into_vec<D: BlockDevice>(
    session: &mut Session<D>,
    fd: u32,
    mut bytes: Vec<u8>,
) -> Result<Vec<u8>, Error>
    ensures { IsCall session.old (ops.Read fd (length bytes.items)) (reply_from (λ v. ops.Bytes v.items) result) session.new }
{
    let count = session.read_into(fd, &mut bytes)?;
    bytes.truncate(count);
    Ok(bytes)
}

// Reads at most `count` bytes of an open file. Uses the memory in `spare` if its size is suitable.
//
// Returns the same errors as the session's `read`.
fn read_bytes<D: BlockDevice>(
    alloc: Global,
    session: &mut Session<D>,
    fd: u32,
    count: u32,
    spare: &mut Vec<u8>,
) -> Result<Vec<u8>, Error>
    ensures { IsCall session.old (ops.Read fd count) (reply_from (λ v. ops.Bytes v.items) result) session.new }
{
    match take_spare_memory(alloc, spare, count as usize) {
        Some(bytes) => read_into_vec(session, fd, bytes),
        None => session.read(alloc, fd, count),
    }
}

// Returns all bytes of a file. Uses the memory in `spare` if its size is suitable.
//
// Returns the same errors as the session's `open` for reading. Returns `Io` if a read fails, and
// `NoMemory` if the session can't allocate memory. After `Io` or `NoMemory` the session has failed.
pub(crate) fn load<D: BlockDevice>(
    alloc: Global,
    session: &mut Session<D>,
    path: &[u8],
    spare: &mut Vec<u8>,
) -> Result<Vec<u8>, Error>
    ensures loaded { IfOk result (λ v. IsIdleSession session.old (visible_tree session.old.tree) → IsLoaded session.old path.now v.items session.new) }
    ensures refused { IfErr result (λ e. IsIdleSession session.old (visible_tree session.old.tree) → IsIdleIfRefused e session.old session.new) }
    ensures failed { IfErr result (λ e. IsIdleSession session.old (visible_tree session.old.tree) → LeadsToFile (visible_tree session.old.tree) path.now → FailsInCalls e session.old session.new) }
{
    let fd = session.open(alloc, path, OpenFlags::READ)?;
    let size = session.size(fd)?;
    let bytes = read_bytes(alloc, session, fd, size, spare)?;
    session.close(alloc, fd)?;
    Ok(bytes)
}

// Checks with the session whether a file may be opened with these flags, and returns the file's
// size. If the flags create a file, creates it in the tree.
//
// Returns the same errors as the session's `open`.
pub(crate) fn find_file<D: BlockDevice>(
    alloc: Global,
    session: &mut Session<D>,
    path: &[u8],
    flags: OpenFlags,
) -> Result<u32, Error>
    ensures found { IfOk result (λ size. IsIdleSession session.old (visible_tree session.old.tree) → (flags_view flags).truncate ≡ false → OpensAndClosesFile session.old path.now (flags_view flags) size session.new) }
    ensures ended { IfErr result (λ e. IsIdleSession session.old (visible_tree session.old.tree) → (flags_view flags).truncate ≡ false → IsCall session.old (ops.Open path.now (flags_view flags)) (error_result e) session.new) }
{
    let fd = session.open(alloc, path, flags)?;
    let size = session.size(fd)?;
    session.close(alloc, fd)?;
    Ok(size)
}
