// Parses lines into commands.

use crate::arguments::{bytes_at, number_at, word_at};
use crate::command::Command;
use crate::names::{CommandName, command_of_word};
use crate::operations::operation_of_words;
use crate::options::{
    erased_at, fault_of_words, order_and_erased, profile_of_words, scope_of_words,
};
use crate::refusal::LineRefusal;
use std::alloc::{AllocError, AllocFailed, Global};

/// The reason why a line couldn't be parsed.
#[derive(Clone, Copy)]
pub enum LineError {
    /// The line isn't a command, for this reason.
    Refused(LineRefusal),
    /// Memory couldn't be allocated.
    NoMemory,
}

impl From<AllocError> for LineError {
    fn from(_: AllocError) -> LineError {
        LineError::NoMemory
    }
}

impl<T: Drop> From<AllocFailed<T>> for LineError {
    fn from(_: AllocFailed<T>) -> LineError {
        LineError::NoMemory
    }
}

// Parses the words of `fresh`.
fn fresh_command(words: &[&[u8]]) -> Result<Command, LineError> {
    let block_size = number_at(words, 1)?;
    let page = number_at(words, 2)?;
    let block_count = number_at(words, 3)?;
    let (order, erased) = order_and_erased(words)?;
    Ok(Command::Fresh {
        block_size,
        page,
        block_count,
        order,
        erased,
    })
}

// Parses the words of `image`.
fn image_command(alloc: Global, words: &[&[u8]]) -> Result<Command, LineError> {
    let block_size = number_at(words, 1)?;
    let page = number_at(words, 2)?;
    let file = bytes_at(alloc, words, 3)?;
    let erased = erased_at(words, 4)?;
    Ok(Command::Image {
        block_size,
        page,
        file,
        erased,
    })
}

// Parses the words of `put`.
fn put_command(alloc: Global, words: &[&[u8]]) -> Result<Command, LineError> {
    let block = number_at(words, 1)?;
    let offset = number_at(words, 2)?;
    let bytes = bytes_at(alloc, words, 3)?;
    let erased = erased_at(words, 4)?;
    Ok(Command::Put {
        block,
        offset,
        bytes,
        erased,
    })
}

// Parses the words of `bytes`.
fn bytes_command(words: &[&[u8]]) -> Result<Command, LineError> {
    let block = number_at(words, 1)?;
    let offset = number_at(words, 2)?;
    let count = number_at(words, 3)?;
    Ok(Command::Bytes {
        block,
        offset,
        count,
    })
}

// Parses the words of the command `name`.
fn command_of_words(
    alloc: Global,
    name: CommandName,
    words: &[&[u8]],
) -> Result<Command, LineError> {
    match name {
        CommandName::Fresh => fresh_command(words),
        CommandName::Image => image_command(alloc, words),
        CommandName::Put => put_command(alloc, words),
        CommandName::Bytes => bytes_command(words),
        CommandName::Profile => Ok(Command::Profile(profile_of_words(words)?)),
        CommandName::BlankChecks => Ok(Command::BlankChecks),
        CommandName::Unmount => Ok(Command::Unmount),
        CommandName::Mount => Ok(Command::Mount(fault_of_words(words)?)),
        CommandName::Format => Ok(Command::Format(fault_of_words(words)?)),
        CommandName::Save => Ok(Command::Save(bytes_at(alloc, words, 1)?)),
        CommandName::Calls => Ok(Command::Calls),
        CommandName::Compare => Ok(Command::Compare(scope_of_words(words)?)),
        CommandName::CompareWith => Ok(Command::CompareWith(bytes_at(alloc, words, 1)?)),
        _ => Ok(Command::Perform(operation_of_words(alloc, name, words)?)),
    }
}

// Parses the name of a line's command. Refuses two adjacent spaces, and too few or too many words.
fn name_of_words(words: &[&[u8]]) -> Result<CommandName, LineError> {
    if words.iter().any(|word| word.is_empty()) {
        return Err(LineError::Refused(LineRefusal::Line("two spaces stand side by side")));
    }
    let Some(name) = command_of_word(word_at(words, 0)) else {
        return Err(LineError::Refused(LineRefusal::Line(
            "no command has this name (--help lists them)",
        )));
    };
    let behind = words.len().saturating_sub(1);
    let (least, most) = name.argument_counts();
    if behind < least {
        return Err(LineError::Refused(LineRefusal::Words("too few", name.usage())));
    }
    if behind > most {
        return Err(LineError::Refused(LineRefusal::Words("too many", name.usage())));
    }
    Ok(name)
}

// Returns the text without the byte `end` at its end, if it has this byte there.
fn without_trailing_byte(text: &[u8], end: u8) -> &[u8] {
    match text.split_last() {
        Some((last, rest)) if *last == end => rest,
        _ => text,
    }
}

// Returns the text without leading and trailing spaces.
fn trim_spaces(text: &[u8]) -> &[u8] {
    let mut start = text.len();
    let mut end = 0;
    for (place, byte) in text.iter().enumerate() {
        if *byte != b' ' {
            start = start.min(place);
            end = place.saturating_add(1);
        }
    }
    text.get(start..end).unwrap_or_default()
}

// Returns a line without its newline, a CR before the newline, and leading and trailing spaces.
fn trimmed_line(line: &[u8]) -> &[u8] {
    trim_spaces(without_trailing_byte(without_trailing_byte(line, b'\n'), b'\r'))
}

/// Parses the command of a line. Returns None if the line is empty or begins with `#`.
///
/// The line may end in a newline, with or without a CR before it. The line end and all leading and
/// trailing spaces are ignored.
///
/// # Errors
/// - `Refused`, with the reason, if the line isn't a command of a script.
/// - `NoMemory` if memory for the words of the line can't be allocated.
pub fn read_line(alloc: Global, line: &[u8]) -> Result<Option<Command>, LineError> {
    let text = trimmed_line(line);
    if text.is_empty() || text.starts_with(b"#") {
        return Ok(None);
    }
    let words: Vec<&[u8]> = text.split(|byte| *byte == b' ').collect(alloc)?;
    let name = name_of_words(&words)?;
    let command = command_of_words(alloc, name, &words)?;
    Ok(Some(command))
}
