// Parses the operations of lines.

use crate::arguments::{byte_at, bytes_at, flags_at, number_at};
use crate::command::Operation;
use crate::lines::LineError;
use crate::names::CommandName;
use std::alloc::Global;

// Parses an operation on an open file, or on the whole session.
fn non_path_operation(
    alloc: Global,
    name: CommandName,
    words: &[&[u8]],
) -> Result<Operation, LineError> {
    let operation = match name {
        CommandName::Read => Operation::Read(number_at(words, 1)?, number_at(words, 2)?),
        CommandName::Write => Operation::Write(number_at(words, 1)?, bytes_at(alloc, words, 2)?),
        CommandName::Seek => Operation::Seek(number_at(words, 1)?, number_at(words, 2)?),
        CommandName::Truncate => Operation::Truncate(number_at(words, 1)?, number_at(words, 2)?),
        CommandName::Sync => Operation::Sync(number_at(words, 1)?),
        CommandName::Close => Operation::Close(number_at(words, 1)?),
        CommandName::Gstate => Operation::Gstate,
        CommandName::IsUsed => Operation::IsUsed(number_at(words, 1)?),
        CommandName::UsedCount => Operation::UsedCount,
        CommandName::Recover => Operation::Recover,
        _ => Operation::Remount,
    };
    Ok(operation)
}

// Parses an operation that sets an attribute.
fn set_attr_operation(alloc: Global, words: &[&[u8]]) -> Result<Operation, LineError> {
    let path = bytes_at(alloc, words, 1)?;
    let kind = byte_at(words, 2)?;
    let value = bytes_at(alloc, words, 3)?;
    Ok(Operation::SetAttr(path, kind, value))
}

// Parses a rename.
fn rename_operation(alloc: Global, words: &[&[u8]]) -> Result<Operation, LineError> {
    let old = bytes_at(alloc, words, 1)?;
    let new = bytes_at(alloc, words, 2)?;
    Ok(Operation::Rename(old, new))
}

// Parses an operation on a path, which flags or an attribute's type may follow.
fn path_operation(
    alloc: Global,
    name: CommandName,
    words: &[&[u8]],
) -> Result<Operation, LineError> {
    let path = bytes_at(alloc, words, 1)?;
    match name {
        CommandName::Open => Ok(Operation::Open(path, flags_at(words, 2)?)),
        CommandName::GetAttr => Ok(Operation::GetAttr(path, byte_at(words, 2)?)),
        CommandName::RemoveAttr => Ok(Operation::RemoveAttr(path, byte_at(words, 2)?)),
        CommandName::Mkdir => Ok(Operation::Mkdir(path)),
        CommandName::Remove => Ok(Operation::Remove(path)),
        CommandName::List => Ok(Operation::List(path)),
        _ => Ok(Operation::Stat(path)),
    }
}

// Parses the operation of a line.
pub(crate) fn operation_of_words(
    alloc: Global,
    name: CommandName,
    words: &[&[u8]],
) -> Result<Operation, LineError> {
    match name {
        CommandName::SetAttr => set_attr_operation(alloc, words),
        CommandName::Rename => rename_operation(alloc, words),
        CommandName::Open
        | CommandName::GetAttr
        | CommandName::RemoveAttr
        | CommandName::Mkdir
        | CommandName::Remove
        | CommandName::List
        | CommandName::Stat => path_operation(alloc, name, words),
        _ => non_path_operation(alloc, name, words),
    }
}
