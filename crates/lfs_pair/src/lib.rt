// SPDX-License-Identifier: BSD-3-Clause
//! Fetches metadata pairs, makes new ones, commits changes to them, and compacts, splits and copies
//! them.
#![tactic(auto)]

mod block_logs;
mod change;
mod commits;
mod contents;
mod copies;
mod cut;
mod entries;
mod fetches;
mod fresh;
mod pair;
mod programs;
mod size;
mod splits;

pub use change::{Change, apply_all_changes};
pub use commits::{Outcome, commit};
pub use copies::copy;
pub use fetches::fetch;
pub use pair::{Pair, is_same_pair};
pub use size::{attributes_size, content_fits};
pub use splits::split;
