// SPDX-License-Identifier: BSD-3-Clause
//! Decides which images are accepted, by one pass over the metadata pairs and one search of the
//! directories for each order of names. The search doesn't read the device.
#![tactic(auto)]

mod accepted_images;
mod check;
mod directory_scan;
mod entry;
mod findings;
mod lists;
mod members;
mod moves;
mod orders;
mod pass;
mod reachability;
mod superblock_chain;

pub use accepted_images::{mount, mount_image, read_and_check};
pub use findings::{CheckedImage, ImageFindings};
pub use lfs_thread::MountError;
pub use orders::OrderViolations;
