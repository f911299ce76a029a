// The lines that scripts print.

use crate::answer::{Answer, SessionDifference};
use crate::words::push_escaped_word;
use lfs_device::Error;
use lfs_fs::{Gstate, Item, Kind, Reply};
use std::io;
use std::io::Write;

// Appends a word, and the name and number of an error.
fn push_error(text: &mut Vec<u8>, word: &str, error: Error) -> io::Result<()> {
    write!(text, "{} {} {}", word, error.name(), error.number())
}

fn push_listed_items(text: &mut Vec<u8>, items: &[Item]) -> io::Result<()> {
    write!(text, "items {}", items.len())?;
    for item in items {
        match item.kind {
            Kind::File => write!(text, " f:{}:", item.size)?,
            Kind::Dir => write!(text, " d:0:")?,
        }
        push_escaped_word(text, item.name.as_slice())?;
    }
    Ok(())
}

fn push_gstate(text: &mut Vec<u8>, gstate: &Gstate) -> io::Result<()> {
    let sync = if gstate.sync { 1 } else { 0 };
    match &gstate.moving {
        Some(slot) => {
            let pair = slot.0;
            write!(text, "gstate {} {} {} {}", sync, pair[0], pair[1], slot.1)
        }
        None => write!(text, "gstate {} none", sync),
    }
}

fn push_reply(text: &mut Vec<u8>, reply: &Reply) -> io::Result<()> {
    match reply {
        Reply::Done => write!(text, "done"),
        Reply::Fd(fd) => write!(text, "fd {}", *fd),
        Reply::Bytes(bytes) => {
            write!(text, "bytes ")?;
            push_escaped_word(text, bytes)?;
            Ok(())
        }
        Reply::Count(count) => write!(text, "count {}", *count),
        Reply::Items(items) => push_listed_items(text, items),
        Reply::Stat(stat) => match stat.kind {
            Kind::File => write!(text, "stat f {}", stat.size),
            Kind::Dir => write!(text, "stat d 0"),
        },
        Reply::Gstate(gstate) => push_gstate(text, gstate),
        Reply::Yes(true) => write!(text, "yes"),
        Reply::Yes(false) => write!(text, "no"),
        Reply::Refused(error) => push_error(text, "refused", *error),
    }
}

fn push_session_difference(text: &mut Vec<u8>, difference: &SessionDifference) -> io::Result<()> {
    match difference {
        SessionDifference::Entry(path) => {
            write!(text, "differs entry ")?;
            push_escaped_word(text, path)?;
            Ok(())
        }
        SessionDifference::Bytes(path) => {
            write!(text, "differs bytes ")?;
            push_escaped_word(text, path)?;
            Ok(())
        }
        SessionDifference::Attribute(path, kind) => {
            write!(text, "differs attribute ")?;
            push_escaped_word(text, path)?;
            write!(text, " {:02x}", *kind)
        }
        SessionDifference::Gstate => write!(text, "differs gstate"),
        SessionDifference::Block(block) => write!(text, "differs block {}", *block),
        SessionDifference::UsedCount => write!(text, "differs used-count"),
    }
}

/// Appends the line that a script prints for an answer, without a newline.
///
/// # Errors
/// - `OutOfMemory` if memory for the line can't be allocated.
pub fn push_answer(text: &mut Vec<u8>, answer: &Answer) -> io::Result<()> {
    match answer {
        Answer::Reply(reply) => push_reply(text, reply),
        Answer::Error(error) => push_error(text, "error", *error),
        Answer::Nothing => write!(text, "error none"),
        Answer::Input => write!(text, "error input"),
        Answer::Output => write!(text, "error output"),
        Answer::Calls(calls) => write!(
            text,
            "calls {} {} {} {}",
            calls.reads, calls.programs, calls.erases, calls.faults
        ),
        Answer::Same => write!(text, "same"),
        Answer::Differs(difference) => push_session_difference(text, difference),
    }
}
