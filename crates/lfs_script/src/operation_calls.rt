// Performs a script's operations on a session.

use lfs_device::BlockDevice;
use lfs_fs::{Op, Session};
use lfs_script_lines::{Answer, Operation};
use std::alloc::Global;

// Converts an operation of a script to an operation of a session.
fn session_op(operation: &Operation) -> Op<'_> {
    match operation {
        Operation::Open(path, flags) => Op::Open(path, *flags),
        Operation::Read(fd, count) => Op::Read(*fd, *count),
        Operation::Write(fd, bytes) => Op::Write(*fd, bytes),
        Operation::Seek(fd, position) => Op::Seek(*fd, *position),
        Operation::Truncate(fd, size) => Op::Truncate(*fd, *size),
        Operation::Sync(fd) => Op::Sync(*fd),
        Operation::Close(fd) => Op::Close(*fd),
        Operation::Mkdir(path) => Op::Mkdir(path),
        Operation::Remove(path) => Op::Remove(path),
        Operation::Rename(old, new) => Op::Rename(old, new),
        Operation::List(path) => Op::List(path),
        Operation::Stat(path) => Op::Stat(path),
        Operation::GetAttr(path, kind) => Op::GetAttr(path, *kind),
        Operation::SetAttr(path, kind, bytes) => Op::SetAttr(path, *kind, bytes),
        Operation::RemoveAttr(path, kind) => Op::RemoveAttr(path, *kind),
        Operation::Gstate => Op::Gstate,
        Operation::IsUsed(block) => Op::IsUsed(*block),
        Operation::UsedCount => Op::UsedCount,
        Operation::Recover => Op::Recover,
        Operation::Remount => Op::Remount,
    }
}

/// Performs an operation.
///
/// The answer is the session's reply, which may be a refusal, or the error with which the session
/// failed.
pub fn perform_operation<D: BlockDevice>(
    alloc: Global,
    session: &mut Session<D>,
    operation: &Operation,
) -> Answer {
    match session.run(alloc, &[session_op(operation)]) {
        Ok(mut replies) => match replies.pop() {
            Some(reply) => Answer::Reply(reply),
            None => Answer::Nothing,
        },
        Err(error) => Answer::Error(error),
    }
}
