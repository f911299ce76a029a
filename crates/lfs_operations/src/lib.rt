// SPDX-License-Identifier: BSD-3-Clause
//! Changes the tree of an accepted image, in steps that are atomic under power loss.
#![tactic(auto)]

mod attributes;
mod changes;
mod directory_removals;
mod drops;
mod moves;
mod new_directories;
mod new_files;
mod recovery;
mod removals;
mod renames;
mod replacements;
mod slot_copies;
mod structs;
mod wear;

pub use attributes::{remove_attribute, set_attribute};
pub use directory_removals::remove_directory;
pub use moves::{Route, rename_across, replace_across_pairs};
pub use new_directories::make_directory;
pub use new_files::create_file;
pub use recovery::{drop_unreached_pairs, end_move};
pub use removals::remove_file;
pub use renames::{PairPlace, rename};
pub use replacements::{EmptyDirectory, rename_onto_directory};
pub use structs::set_struct;
pub use wear::{RelocationPlan, plan_move, relocate};
