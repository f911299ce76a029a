// SPDX-License-Identifier: BSD-3-Clause
//! A mounted littlefs image: formatting, mounting, calls by path, recovery after a power loss, and
//! the contents of open files. Paths and the types that calls return are in `lfs_lookup`.
#![tactic(auto)]

mod answers;
mod attributes_at;
mod contents_at;
mod creation_paths;
mod entries_at;
mod files;
mod formats;
mod laws;
mod lost_lists;
mod lost_recovery;
mod opened_contents;
mod orphans;
mod readers;
mod remounts;
mod removals_at;
mod rename_paths;
mod renames_at;
mod tree;
mod wear;
mod writers;

pub use creation_paths::CreationLookup;
pub use formats::format;
pub use laws::{lemma_contents_stay, lemma_few_blocks};
pub use rename_paths::{RenameLookup, RenameTargets};
pub use tree::Tree;
