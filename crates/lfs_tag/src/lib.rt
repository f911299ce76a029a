// SPDX-License-Identifier: BSD-3-Clause
//! Reads and writes the log of a metadata block, which consists of tags, checksums and commits.
//! Searches a log by id and by name.
#![tactic(auto)]

mod builder;
mod checksum;
mod content;
mod crc_table;
mod entries;
mod entry;
mod field_bytes;
mod fields;
pub mod kinds;
mod log;
mod lookup;
mod names;
mod pushed_commit;
mod revision;
mod search;
mod slot_count;
mod slot_kind;
mod steps;
mod structure;
mod summary;
mod tag;

pub use builder::CommitBuilder;
pub use checksum::crc;
pub use content::{Attribute, Content, ContentError, NameOrStruct, Slot, Tail, has_hard_tail};
pub use entries::Entries;
pub use entry::Entry;
pub use field_bytes::{ctz_bytes, move_state_bytes, pair_bytes, superblock_bytes};
pub use fields::{MoveState, NULL_ADDRESS, Superblock, ctz_of, move_of, pair_of, superblock_of};
pub use log::Log;
pub use lookup::{Lookup, find};
pub use names::{is_name, is_valid_component, name_cmp};
pub use revision::is_later_than;
pub use search::{get, name_of_slot, struct_of_slot};
pub use slot_kind::SlotNameKind;
pub use steps::Steps;
pub use structure::Struct;
pub use summary::Summary;
pub use tag::Tag;
