// Parses the lines of a script: commands, and calls that a session doesn't have.

use lfs_device::CountedCalls;
use lfs_model::NameOrder;
use lfs_script_lines::{Command, LineError, LineRefusal, read_line};
use std::alloc::Global;
use std::str;

/// The command of a line.
#[derive(Drop)]
pub enum VolumeCommand {
    /// A command that scripts of sessions also have.
    Command(Command),
    /// Prints how many calls of a kind the device received.
    Calls(CountedCalls),
    /// Prints the position of a handle.
    Position(u32),
    /// Prints the size of a handle's file.
    Size(u32),
    /// Reads at most the given number of bytes by the handle into a buffer.
    ReadInto(u32, u32),
}

// Returns a line without its newline.
fn without_newline(line: &[u8]) -> &[u8] {
    match line.split_last() {
        Some((last, rest)) if *last == b'\n' => rest,
        _ => line,
    }
}

// Parses the word at an index as a decimal number.
fn number_at(words: &[&[u8]], place: usize) -> Result<u32, LineError> {
    let word = words.get(place).copied().unwrap_or_default();
    let number = match str::from_utf8(word) {
        Ok(text) if !word.starts_with(b"+") => u32::from_str_radix(text, 10).ok(),
        _ => None,
    };
    match number {
        Some(number) => Ok(number),
        None => Err(LineError::Refused(LineRefusal::Word(
            place,
            "no decimal number up to 4294967295",
        ))),
    }
}

// Parses a kind of device calls.
fn kind_of_word(word: &[u8]) -> Result<CountedCalls, LineError> {
    if word == b"any".as_slice() {
        Ok(CountedCalls::Any)
    } else if word == b"read".as_slice() {
        Ok(CountedCalls::Read)
    } else if word == b"program".as_slice() {
        Ok(CountedCalls::Program)
    } else if word == b"erase".as_slice() {
        Ok(CountedCalls::Erase)
    } else {
        Err(LineError::Refused(LineRefusal::Word(1, "no kind of calls (--help lists them)")))
    }
}

// Parses a call that volumes have and sessions don't. Returns None for other names.
fn volume_call(words: &[&[u8]]) -> Result<Option<VolumeCommand>, LineError> {
    match words {
        [name, kind] if *name == b"calls".as_slice() => {
            Ok(Some(VolumeCommand::Calls(kind_of_word(kind)?)))
        }
        [name, _] if *name == b"position".as_slice() => {
            Ok(Some(VolumeCommand::Position(number_at(words, 1)?)))
        }
        [name, _] if *name == b"size".as_slice() => {
            Ok(Some(VolumeCommand::Size(number_at(words, 1)?)))
        }
        [name, _, _] if *name == b"read-into".as_slice() => {
            let handle = number_at(words, 1)?;
            Ok(Some(VolumeCommand::ReadInto(handle, number_at(words, 2)?)))
        }
        _ => Ok(None),
    }
}

// Returns the command, unless it is one that volumes don't have.
fn checked_command(command: Command) -> Result<VolumeCommand, LineError> {
    match command {
        Command::Put { .. }
        | Command::Bytes { .. }
        | Command::Calls
        | Command::Compare(_)
        | Command::CompareWith(_) => Err(LineError::Refused(LineRefusal::Line(
            "scripts of volumes have no such command",
        ))),
        Command::Fresh {
            order: NameOrder::ShorterFirst,
            ..
        } => Err(LineError::Refused(LineRefusal::Line("volumes are made with longer names first"))),
        command => Ok(VolumeCommand::Command(command)),
    }
}

/// Parses the command of a line. Returns None if the line is empty or begins with `#`.
///
/// # Errors
/// - `Refused`, with the reason, if the line isn't a command.
/// - `NoMemory` if memory for the words of the line can't be allocated.
pub fn read_volume_line(alloc: Global, line: &[u8]) -> Result<Option<VolumeCommand>, LineError> {
    let text = without_newline(line);
    let words: Vec<&[u8]> = text.split(|byte| *byte == b' ').collect(alloc)?;
    if let Some(call) = volume_call(&words)? {
        return Ok(Some(call));
    }
    match read_line(alloc, text)? {
        Some(command) => Ok(Some(checked_command(command)?)),
        None => Ok(None),
    }
}
