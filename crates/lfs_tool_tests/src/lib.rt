// SPDX-License-Identifier: BSD-3-Clause
//! Tests of the libraries of mklittlefs. The cases are rows of tables, and a small function runs
//! each row.
#![tactic(auto)]

#[cfg(test)]
mod checks;
#[cfg(test)]
mod creations;
#[cfg(test)]
mod faults;
#[cfg(test)]
mod faulty_streams;
#[cfg(test)]
mod images;
#[cfg(test)]
mod limited_files;
#[cfg(test)]
mod lines;
#[cfg(test)]
mod log_entries;
#[cfg(test)]
mod profiles;
#[cfg(test)]
mod program_runs;
#[cfg(test)]
mod progress;
#[cfg(test)]
mod progress_lines;
#[cfg(test)]
mod runs;
#[cfg(test)]
mod sources;
#[cfg(test)]
mod texts;
#[cfg(test)]
mod whole_images;
