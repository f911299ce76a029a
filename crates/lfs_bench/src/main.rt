// SPDX-License-Identifier: BSD-3-Clause
//! Benchmarks whose results are judged by scripts in bench/. The benchmarks measure the checksum of
//! a block, look-ups in a block, the device reads of a CTZ skip-list, and the writes of a file in a
//! session. A row is a benchmark that is compared with littlefs's own code.
//!
//! The first argument selects a benchmark. Without it, all benchmarks but the rows run. The second
//! argument is the number of timed rounds or of written pieces. The arguments of a row are its
//! name, the device's number of blocks, the number of operations, the profile's `pair_cycles`, and
//! `blanks` if the device reports which bytes are blank. `pair_cycles` is the number of compactions
//! after which a metadata pair is relocated, or 0 for never.
#![tactic(auto)]

mod c_rows;
mod checksum;
mod contents;
mod counting_device;
mod files;
mod list_reads;
mod look_ups;
mod wear;
mod writes;

use std::{env, io};

// The number of pieces that are written if the arguments don't give one.
const PIECES: u32 = 12;

fn run_all_benchmarks(rt: &HostRuntime) -> io::Result<()> {
    checksum::benchmark_checksum(rt, 1)?;
    look_ups::benchmark_log_lookups(rt, 1)?;
    list_reads::print_list_reads(rt)?;
    writes::benchmark_file_writes(rt, PIECES)
}

// Parses the argument at an index as a number. Returns `otherwise` if it isn't a number.
fn argument_number_or(words: &[String], place: usize, otherwise: u32) -> u32 {
    match words.get(place) {
        Some(word) => word.as_str().parse::<u32>().unwrap_or(otherwise),
        None => otherwise,
    }
}

// Runs the row that the arguments name.
fn run_row_of_arguments(rt: &HostRuntime, words: &[String]) -> io::Result<()> {
    let Some(row) = words.get(2) else {
        return eprintln!(rt; "row NAME BLOCKS COUNT [CYCLES [blanks]]");
    };
    c_rows::run_benchmark_row(
        rt,
        row.as_str(),
        c_rows::BenchmarkDeviceSettings {
            blocks: argument_number_or(words, 3, 0),
            pair_cycles: argument_number_or(words, 5, 0),
            checks_blanks: words.get(6).is_some(),
        },
        argument_number_or(words, 4, 0),
    )
}

fn main(rt: HostRuntime) -> io::Result<()> {
    let words: Vec<String> = env::args(&rt)?.collect(rt.alloc())?;
    let Some(figure) = words.get(1) else {
        return run_all_benchmarks(&rt);
    };
    match figure.as_str() {
        "checksum" => checksum::benchmark_checksum(&rt, argument_number_or(&words, 2, 1)),
        "look_ups" => look_ups::benchmark_log_lookups(&rt, argument_number_or(&words, 2, 1)),
        "list_reads" => list_reads::print_list_reads(&rt),
        "row" => run_row_of_arguments(&rt, &words),
        "writes" => writes::benchmark_file_writes(&rt, argument_number_or(&words, 2, PIECES)),
        _ => eprintln!(rt; "checksum, look_ups, list_reads, writes or row"),
    }
}
