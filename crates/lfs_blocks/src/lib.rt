// SPDX-License-Identifier: BSD-3-Clause
//! Keeps track of the state of each block of a device (free, in flight or used), and caches the
//! blocks that were read last.
#![tactic(auto)]

mod block_map;
mod cache;
mod marks;

pub use block_map::BlockMap;
pub use cache::Cache;
