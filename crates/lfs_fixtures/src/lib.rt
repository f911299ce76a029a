// SPDX-License-Identifier: BSD-3-Clause
//! Example functions that are proved over any device, and images for the tests of several crates.
#![tactic(auto)]

mod bytes;
mod copy;
mod image;

pub use bytes::lemma_device_bytes;
pub use copy::copy_block;
pub use image::{
    BlockContents, FixtureEntries, block_with_commits, block_with_entries, image_with_commit,
    image_with_pair,
};
