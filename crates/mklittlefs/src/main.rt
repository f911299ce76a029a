// SPDX-License-Identifier: BSD-3-Clause
//! The program mklittlefs, which creates, unpacks, lists, checks or changes an image of a littlefs
//! file system.
#![tactic(auto)]

use lfs_tool::{FaultLog, Stream};
use lfs_tool_run::{Host, run_words};
use std::io::IsTerminal;
use std::process::ExitCode;
use std::{env, io};

// Returns the words of the command line, of which the first is the program's name.
fn read_command_line_words(rt: &HostRuntime) -> io::Result<Vec<String>> {
    Ok(env::args(rt)?.collect(rt.alloc())?)
}

// Returns whether errors are explained. The environment variable decides if it is set, and
// otherwise whether standard error is a terminal.
fn is_explanation_wanted(rt: &HostRuntime) -> bool {
    match env::var(rt, "MKLITTLEFS_EXPLAIN") {
        Ok(value) if value.as_str() == "1" => true,
        Ok(value) if value.as_str() == "0" => false,
        _ => rt.stderr().is_terminal(),
    }
}

fn main(rt: HostRuntime) -> ExitCode {
    let log = FaultLog::new();
    let host = Host {
        explains: is_explanation_wanted(&rt),
        ..Host::new(&rt, &log)
    };
    let mut out = Stream::new(rt.stdout());
    let mut err = Stream::new(rt.stderr());
    let words = read_command_line_words(&rt);
    ExitCode::from(run_words(host, words, &mut out, &mut err))
}
