// SPDX-License-Identifier: BSD-3-Clause
//! Keeps all metadata pairs of a device in memory, in the order of littlefs's threaded linked-list,
//! and changes them in atomic steps.
#![tactic(auto)]

mod cached_pairs;
mod deltas;
mod drops;
mod headers;
mod joins;
mod list_reads;
mod mount_error;
mod pair_numbers;
mod parts;
mod places;
mod splits;
mod thread;

pub use deltas::gstate_xor_delta;
pub use mount_error::MountError;
pub use pair_numbers::number_at_address;
pub use parts::ThreadParts;
pub use places::PairAddressList;
pub use thread::Thread;
