// Scripts, which are read and performed line by line.

use crate::lines::read_volume_line;
use crate::script::Script;
use lfs_script_lines::{LineError, LineRefusal, push_answer};
use std::io::{BufRead, ErrorKind, Write};
use std::rt::Files;

/// The way in which a script ended.
#[derive(Clone, Copy)]
pub enum ScriptEnd {
    /// The script ended after its last line.
    Done,
    /// A line isn't a command. The values are the line's number, counted from 1, and the reason.
    Line(u64, LineRefusal),
    /// Memory couldn't be allocated.
    NoMemory,
    /// A line of the script couldn't be read.
    Input,
    /// An answer couldn't be written.
    Output,
}

// Performs a line and prints the answer, if the line is a command.
fn perform_line<R: Files + AllocGlobal, W: Write>(
    script: &mut Script<'_, R>,
    line: &[u8],
    number: u64,
    out: &mut W,
) -> Result<(), ScriptEnd> {
    let command = match read_volume_line(script.rt().alloc(), line) {
        Ok(Some(command)) => command,
        Ok(None) => return Ok(()),
        Err(LineError::Refused(refusal)) => return Err(ScriptEnd::Line(number, refusal)),
        Err(LineError::NoMemory) => return Err(ScriptEnd::NoMemory),
    };
    let answer = script.perform(&command);
    let mut text = Vec::new(script.rt().alloc());
    if push_answer(&mut text, &answer).is_err() || text.push(b'\n').is_err() {
        return Err(ScriptEnd::NoMemory);
    }
    out.write_all(&text).map_err(|_| ScriptEnd::Output)
}

/// Performs the lines of a reader, and prints their answers.
pub fn run_script_lines<R: Files + AllocGlobal, I: BufRead, W: Write>(
    rt: &R,
    input: &mut I,
    out: &mut W,
) -> ScriptEnd {
    let mut script = Script::new(rt);
    let mut line = Vec::new(rt.alloc());
    for number in 1..u64::MAX {
        line.clear();
        match input.read_until(b'\n', &mut line) {
            Ok(0) => return ScriptEnd::Done,
            Ok(_) => {}
            Err(error) if error.kind() == ErrorKind::OutOfMemory => return ScriptEnd::NoMemory,
            Err(_) => return ScriptEnd::Input,
        }
        if let Err(end) = perform_line(&mut script, &line, number, out) {
            return end;
        }
    }
    ScriptEnd::Done
}
