// SPDX-License-Identifier: BSD-3-Clause
//! lfs_volume_script performs calls of a volume over a littlefs image in memory. The program reads
//! the calls from standard input, one per line, and prints an answer to each.
#![tactic(auto)]

mod help;
mod lines;
mod replies;
mod script;
mod script_run;

use help::HELP;
use script_run::{ScriptEnd, run_script_lines};
use std::io::{BufReader, ErrorKind};
use std::process::ExitCode;
use std::{env, io};

// Prints why a script ended before its last line, and returns the exit status. Ignores a failed
// write.
fn report_script_end(rt: &HostRuntime, end: ScriptEnd) -> ExitCode {
    let (shown, status) = match end {
        ScriptEnd::Done => return ExitCode::SUCCESS,
        ScriptEnd::Line(number, refusal) => (eprintln!(rt; "error: line {number}: {refusal}"), 2),
        ScriptEnd::NoMemory => (eprintln!(rt; "error: NoMemory (12)"), 1),
        ScriptEnd::Input => (eprintln!(rt; "error: input"), 3),
        ScriptEnd::Output => (eprintln!(rt; "error: output"), 3),
    };
    let _ = shown;
    ExitCode::from(status)
}

fn command_line_words(rt: &HostRuntime) -> io::Result<Vec<String>> {
    let words = env::args(rt)?.collect(rt.alloc())?;
    Ok(words)
}

// Prints the help, and returns the exit status.
fn show_help(rt: &HostRuntime) -> ExitCode {
    match print!(rt; "{HELP}") {
        Ok(()) => ExitCode::SUCCESS,
        Err(_) => report_script_end(rt, ScriptEnd::Output),
    }
}

// Prints that the words are unknown, and returns the exit status. Ignores a failed write.
fn refuse_words(rt: &HostRuntime) -> ExitCode {
    let _ = eprintln!(rt; "error: a script is read from standard input (--help says more)");
    ExitCode::from(2)
}

// Performs the lines of standard input, and returns the exit status.
fn run_script(rt: &HostRuntime) -> ExitCode {
    let Ok(mut input) = BufReader::new(rt.alloc(), rt.stdin()) else {
        return report_script_end(rt, ScriptEnd::NoMemory);
    };
    let end = run_script_lines(rt, &mut input, &mut rt.stdout());
    report_script_end(rt, end)
}

fn main(rt: HostRuntime) -> ExitCode {
    let words = match command_line_words(&rt) {
        Ok(words) => words,
        Err(error) if error.kind() == ErrorKind::OutOfMemory => return report_script_end(
            &rt,
            ScriptEnd::NoMemory,
        ),
        Err(_) => return refuse_words(&rt),
    };
    match words.as_slice() {
        [] | [_] => run_script(&rt),
        [_, word] if word.as_str() == "--help" || word.as_str() == "-h" => show_help(&rt),
        _ => refuse_words(&rt),
    }
}
