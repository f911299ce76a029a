// SPDX-License-Identifier: BSD-3-Clause
//! This crate runs the tool mklittlefs on the system's files, folders and streams, from the words
//! of the command line to the exit status. The crate also creates images.
#![tactic(auto)]

mod blocks;
mod creation;
mod explain;
mod files;
mod json;
mod leftovers;
mod lists;
mod parts;
mod run;
mod session;
mod source_entries;
mod times;

pub use creation::{create, new_image, read_source_entries};
pub use files::Host;
pub use run::run_words;
