// SPDX-License-Identifier: BSD-3-Clause
//! Functions that C calls to mount, read and change littlefs images in memory. C keeps each mounted
//! image in a `Handle`. Each function returns 0 or more, or the negated number of an error.
#![tactic(auto)]

mod changes;
mod config;
mod directories;
mod entries;
mod entry_infos;
mod examples;
mod handle;
mod image;
mod mounted;
mod noted;
mod notes;
mod open_directories;
mod open_files;
mod slot;
mod starts;
mod superblocks;
mod volumes;
