// SPDX-License-Identifier: BSD-3-Clause
//! Types and functions that the libraries for C share: results as numbers, settings, results in a
//! buffer, and the parts of a box.
#![tactic(auto)]

mod buffers;
mod codes;
mod config;
mod info;
mod lines;
mod parts;

pub use buffers::{copy_from_offset, copy_if_fitting, fill_with_bytes};
pub use codes::{CLOSED, bool_code, count_code, error_code, size_code, unit_code, usize_code};
pub use config::Config;
pub use info::FsInfo;
pub use lines::fill_with_lines;
pub use parts::Parts;
