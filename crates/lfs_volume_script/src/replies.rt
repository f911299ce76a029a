// Performs a script's calls on a volume.

use lfs_device::{BlockDevice, Error};
use lfs_fs::Reply;
use lfs_script_lines::{Answer, Operation};
use lfs_volume::Volume;
use std::alloc::Global;

// Converts the result of a call to an answer: the call's reply, a refusal, or another error.
fn answer_of_reply(answered: Result<Reply, Error>) -> Answer {
    match answered {
        Ok(reply) => Answer::Reply(reply),
        Err(error) => match error {
            Error::Io | Error::NoMemory | Error::Corrupt => Answer::Error(error),
            error => Answer::Reply(Reply::Refused(error)),
        },
    }
}

// Returns the reply `Done` for a successful call that returns nothing.
fn done(answered: Result<(), Error>) -> Result<Reply, Error> {
    answered?;
    Ok(Reply::Done)
}

// Performs a call on an open file, or on the whole volume.
fn any_reply<D: BlockDevice>(
    alloc: Global,
    volume: &mut Volume<D>,
    operation: &Operation,
) -> Result<Reply, Error> {
    match operation {
        Operation::Read(handle, count) => Ok(Reply::Bytes(volume.read(alloc, *handle, *count)?)),
        Operation::Write(handle, bytes) => Ok(Reply::Count(volume.write(alloc, *handle, bytes)?)),
        Operation::Seek(handle, position) => done(volume.seek(*handle, *position)),
        Operation::Truncate(handle, size) => done(volume.truncate(alloc, *handle, *size)),
        Operation::Sync(handle) => done(volume.sync(alloc, *handle)),
        Operation::Close(handle) => done(volume.close(alloc, *handle)),
        Operation::Gstate => Ok(Reply::Gstate(volume.gstate()?)),
        Operation::IsUsed(block) => Ok(Reply::Yes(volume.is_used(*block)?)),
        Operation::UsedCount => Ok(Reply::Count(volume.used_count()?)),
        Operation::Recover => done(volume.recover(alloc)),
        _ => done(volume.remount(alloc)),
    }
}

// Performs a call on a path. Passes other calls to `any_reply`.
fn path_reply<D: BlockDevice>(
    alloc: Global,
    volume: &mut Volume<D>,
    operation: &Operation,
) -> Result<Reply, Error> {
    match operation {
        Operation::Open(path, flags) => Ok(Reply::Fd(volume.open(alloc, path, *flags)?)),
        Operation::List(path) => Ok(Reply::Items(volume.list(alloc, path)?)),
        Operation::Stat(path) => Ok(Reply::Stat(volume.stat(alloc, path)?)),
        Operation::GetAttr(path, kind) => Ok(Reply::Bytes(volume.get_attr(alloc, path, *kind)?)),
        Operation::SetAttr(path, kind, bytes) => done(volume.set_attr(alloc, path, *kind, bytes)),
        Operation::RemoveAttr(path, kind) => done(volume.remove_attr(alloc, path, *kind)),
        Operation::Mkdir(path) => done(volume.mkdir(alloc, path)),
        Operation::Remove(path) => done(volume.remove(alloc, path)),
        Operation::Rename(old, new) => done(volume.rename(alloc, old, new)),
        operation => any_reply(alloc, volume, operation),
    }
}

/// Performs a call that sessions also have.
pub fn perform_operation<D: BlockDevice>(
    alloc: Global,
    volume: &mut Volume<D>,
    operation: &Operation,
) -> Answer {
    answer_of_reply(path_reply(alloc, volume, operation))
}

/// Returns the position of a handle as an answer.
pub fn show_position<D: BlockDevice>(volume: &Volume<D>, handle: u32) -> Answer {
    answer_of_reply(volume.position(handle).map(Reply::Count))
}

/// Returns the size of a handle's file as an answer.
pub fn show_size<D: BlockDevice>(volume: &Volume<D>, handle: u32) -> Answer {
    answer_of_reply(volume.size(handle).map(Reply::Count))
}

/// Reads into a buffer of `count` bytes, and returns the bytes that were read as an answer.
pub fn read_into_buffer<D: BlockDevice>(
    alloc: Global,
    volume: &mut Volume<D>,
    handle: u32,
    count: u32,
) -> Answer {
    let Ok(mut buffer) = Vec::from_elem(alloc, 0u8, count as usize) else {
        return Answer::Error(Error::NoMemory);
    };
    match volume.read_into(alloc, handle, &mut buffer) {
        Ok(found) => {
            buffer.truncate(found);
            Answer::Reply(Reply::Bytes(buffer))
        }
        Err(error) => answer_of_reply(Err(error)),
    }
}
