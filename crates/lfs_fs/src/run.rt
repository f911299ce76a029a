// Operations and their replies.

ghost use Rattle.std.specs.Prelude.{◌≡◌, map, IfOk};
ghost use Rattle.lfs_model.specs.session.Operations as operations;
ghost use Rattle.lfs_lookup.specs.Finds.{listed_item_view, stat_view};
ghost use Rattle.lfs_lookup.specs.RefusalErrors.{is_refusal};
ghost use Rattle.lfs_fs.specs.GstateView.{returned_gstate_reply};
ghost use Rattle.lfs_fs.specs.Replies.{reply_from};
ghost use Rattle.lfs_fs.specs.OpView.{HasRefusalError, result_view};

use crate::files::Fd;
use crate::flags::OpenFlags;
use crate::gstate::Gstate;
use lfs_device::Error;
use lfs_lookup::{ListItem as Item, Stat};

/// An operation of a session. Each variant has the name of a call, and its fields are the call's
/// arguments.
#[derive(Clone, Copy)]
pub enum Op<'a> {
    /// The path of a file, and the flags with which it is opened.
    Open(&'a [u8], OpenFlags),
    /// The number of an open file, and the maximum number of bytes to read.
    Read(Fd, u32),
    /// The number of an open file, and the bytes to write.
    Write(Fd, &'a [u8]),
    /// The number of an open file, and its new position in bytes.
    Seek(Fd, u32),
    /// The number of an open file, and its new size in bytes.
    Truncate(Fd, u32),
    /// The number of an open file.
    Sync(Fd),
    /// The number of an open file.
    Close(Fd),
    /// The path of the new directory.
    Mkdir(&'a [u8]),
    /// The path of a directory.
    List(&'a [u8]),
    /// The path of an entry.
    Stat(&'a [u8]),
    /// The path of an entry, and the type of the attribute.
    GetAttr(&'a [u8], u8),
    /// The path of an entry.
    Remove(&'a [u8]),
    /// The old path and the new path.
    Rename(&'a [u8], &'a [u8]),
    /// The path of an entry, the type of the attribute, and its bytes.
    SetAttr(&'a [u8], u8, &'a [u8]),
    /// The path of an entry, and the type of the attribute.
    RemoveAttr(&'a [u8], u8),
    /// Returns the global state.
    Gstate,
    /// The number of a block.
    IsUsed(u32),
    /// Returns the number of used blocks.
    UsedCount,
    /// Completes what a power loss left half done.
    Recover,
    /// Mounts the device again.
    Remount,
}

/// The reply to an operation.
#[derive(Drop)]
pub enum Reply {
    /// The operation was performed, and has no result.
    Done,
    /// The number of the file that was opened.
    Fd(Fd),
    /// The bytes that were read, or the bytes of an attribute.
    Bytes(Vec<u8>),
    /// The number of bytes written, or the number of used blocks.
    Count(u32),
    /// The entries of a directory.
    Items(Vec<Item>),
    /// The kind and the size in bytes of an entry.
    Stat(Stat),
    /// The global state.
    Gstate(Gstate),
    /// Whether a block is used.
    Yes(bool),
    /// The operation was refused, and nothing has changed. The error is never `Io`, `NoMemory` or
    /// `Corrupt`.
    Refused(Error),
}

// Returns whether the error is a refusal, after which the session can be used further.
fn is_refusal(error: Error) -> bool
    ensures { result ≡ is_refusal error }
{
    !matches!(error, Error::Io | Error::NoMemory | Error::Corrupt)
}

fn refusal_as_reply(error: Error) -> Result<Reply, Error>
    ensures seen { result_view result ≡ reply_from (λ r. r) (Err error) }
    ensures named { IfOk result HasRefusalError }
{
    if is_refusal(error) {
        Ok(Reply::Refused(error))
    } else {
        Err(error)
    }
}

pub(crate) fn reply_of_unit(answer: Result<(), Error>) -> Result<Reply, Error>
    ensures seen { result_view result ≡ reply_from (λ _. operations.Done) answer }
    ensures named { IfOk result HasRefusalError }
{
    match answer {
        Ok(()) => Ok(Reply::Done),
        Err(error) => refusal_as_reply(error),
    }
}

pub(crate) fn reply_of_fd(answer: Result<Fd, Error>) -> Result<Reply, Error>
    ensures seen { result_view result ≡ reply_from operations.Opened answer }
    ensures named { IfOk result HasRefusalError }
{
    match answer {
        Ok(fd) => Ok(Reply::Fd(fd)),
        Err(error) => refusal_as_reply(error),
    }
}

pub(crate) fn reply_of_bytes(answer: Result<Vec<u8>, Error>) -> Result<Reply, Error>
    ensures seen { result_view result ≡ reply_from (λ v. operations.Bytes v.items) answer }
    ensures named { IfOk result HasRefusalError }
{
    match answer {
        Ok(bytes) => Ok(Reply::Bytes(bytes)),
        Err(error) => refusal_as_reply(error),
    }
}

pub(crate) fn reply_of_count(answer: Result<u32, Error>) -> Result<Reply, Error>
    ensures seen { result_view result ≡ reply_from operations.Count answer }
    ensures named { IfOk result HasRefusalError }
{
    match answer {
        Ok(count) => Ok(Reply::Count(count)),
        Err(error) => refusal_as_reply(error),
    }
}

pub(crate) fn reply_of_items(answer: Result<Vec<Item>, Error>) -> Result<Reply, Error>
    ensures seen { result_view result ≡ reply_from (λ items. operations.Items (map listed_item_view items.items)) answer }
    ensures named { IfOk result HasRefusalError }
{
    match answer {
        Ok(items) => Ok(Reply::Items(items)),
        Err(error) => refusal_as_reply(error),
    }
}

pub(crate) fn reply_of_stat(answer: Result<Stat, Error>) -> Result<Reply, Error>
    ensures seen { result_view result ≡ reply_from (λ stat. operations.StatIs (stat_view stat)) answer }
    ensures named { IfOk result HasRefusalError }
{
    match answer {
        Ok(stat) => Ok(Reply::Stat(stat)),
        Err(error) => refusal_as_reply(error),
    }
}

pub(crate) fn reply_of_gstate(answer: Result<Gstate, Error>) -> Result<Reply, Error>
    ensures seen { result_view result ≡ reply_from returned_gstate_reply answer }
    ensures named { IfOk result HasRefusalError }
{
    match answer {
        Ok(gstate) => Ok(Reply::Gstate(gstate)),
        Err(error) => refusal_as_reply(error),
    }
}

pub(crate) fn reply_of_bool(answer: Result<bool, Error>) -> Result<Reply, Error>
    ensures seen { result_view result ≡ reply_from operations.Yes answer }
    ensures named { IfOk result HasRefusalError }
{
    match answer {
        Ok(yes) => Ok(Reply::Yes(yes)),
        Err(error) => refusal_as_reply(error),
    }
}
