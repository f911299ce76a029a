// SPDX-License-Identifier: BSD-3-Clause
//! lfs_script performs operations on a littlefs file system in memory. The program reads the
//! operations from standard input, one per line, and prints an answer to each.
#![tactic(auto)]

mod comparison;
mod counted_device;
mod files;
mod help;
mod operation_calls;
mod script;
mod script_device;
mod script_run;

use help::HELP;
use script_run::{ScriptEnd, run_lines};
use std::io::{BufReader, ErrorKind};
use std::process::ExitCode;
use std::{env, io};

// Prints why a script ended before its last line, and returns the exit status. Ignores a failed
// write.
fn report_end(rt: &HostRuntime, end: ScriptEnd) -> ExitCode {
    let (shown, status) = match end {
        ScriptEnd::Done => return ExitCode::SUCCESS,
        ScriptEnd::Line(number, refusal) => (eprintln!(rt; "error: line {number}: {refusal}"), 2),
        ScriptEnd::NoMemory => (eprintln!(rt; "error: NoMemory (12)"), 1),
        ScriptEnd::Input => (eprintln!(rt; "error: input"), 3),
        ScriptEnd::Output => (eprintln!(rt; "error: output"), 3),
    };
    let _ = shown;
    ExitCode::from(status)
}

/// The request of a command line.
#[derive(Clone, Copy, PartialEq, Eq)]
enum Request {
    /// The program performs the lines of standard input.
    Script,
    Help,
    /// The command line has unknown words.
    Unknown,
}

// Parses the words of a command line. The first word is the program's name.
fn parse_request(words: &[String]) -> Request {
    match words {
        [] | [_] => Request::Script,
        [_, word] if word.as_str() == "--help" || word.as_str() == "-h" => Request::Help,
        _ => Request::Unknown,
    }
}

fn read_words(rt: &HostRuntime) -> io::Result<Vec<String>> {
    let words = env::args(rt)?.collect(rt.alloc())?;
    Ok(words)
}

// Prints the help, and returns the exit status.
fn show_help(rt: &HostRuntime) -> ExitCode {
    match print!(rt; "{HELP}") {
        Ok(()) => ExitCode::SUCCESS,
        Err(_) => report_end(rt, ScriptEnd::Output),
    }
}

// Prints that the words are unknown, and returns the exit status. Ignores a failed write.
fn refuse_words(rt: &HostRuntime) -> ExitCode {
    let _ = eprintln!(rt; "error: a script is read from standard input (--help says more)");
    ExitCode::from(2)
}

// Performs the lines of standard input, and returns the exit status.
fn run_script(rt: &HostRuntime) -> ExitCode {
    let Ok(mut input) = BufReader::new(rt.alloc(), rt.stdin()) else {
        return report_end(rt, ScriptEnd::NoMemory);
    };
    let end = run_lines(rt, &mut input, &mut rt.stdout());
    report_end(rt, end)
}

fn main(rt: HostRuntime) -> ExitCode {
    let words = match read_words(&rt) {
        Ok(words) => words,
        Err(error) if error.kind() == ErrorKind::OutOfMemory => return report_end(
            &rt,
            ScriptEnd::NoMemory,
        ),
        Err(_) => return refuse_words(&rt),
    };
    match parse_request(&words) {
        Request::Script => run_script(&rt),
        Request::Help => show_help(&rt),
        Request::Unknown => refuse_words(&rt),
    }
}
