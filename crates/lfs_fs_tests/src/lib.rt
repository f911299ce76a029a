// SPDX-License-Identifier: BSD-3-Clause
//! Tests of sessions whose device or memory fails, of images with their own limits, of devices that
//! know which bytes are blank, and of the lines of scripts.
#![tactic(auto)]

mod recovery;

pub use recovery::{recover_after_loss, rename_and_recover};

#[cfg(test)]
mod answers;
#[cfg(test)]
mod bad_blocks;
#[cfg(test)]
mod blank_appends;
#[cfg(test)]
mod failed_sessions;
#[cfg(test)]
mod kept_files;
#[cfg(test)]
mod limits;
#[cfg(test)]
mod lines;
#[cfg(test)]
mod memory;
#[cfg(test)]
mod orders;
#[cfg(test)]
mod row_runs;
#[cfg(test)]
mod scripts;
#[cfg(test)]
mod short_scripts;
#[cfg(test)]
mod starts;
#[cfg(test)]
mod stopped_rename;
#[cfg(test)]
mod stops;
