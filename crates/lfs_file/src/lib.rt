// SPDX-License-Identifier: BSD-3-Clause
//! Reads, walks and extends the CTZ skip-lists of files, and keeps the contents of a file that is
//! open for writing.
//!
//! Short contents are in memory. Longer contents are in a stored list, which is entirely on the
//! device, or in a draft. A draft consists of a new list with the first bytes and the old list with
//! the others. At most one block of contents is buffered, in an extender.
#![tactic(auto)]

mod block;
mod block_copies;
mod completion;
mod contents;
mod extender;
mod extensions;
mod front;
mod known;
mod laws;
mod list_cuts;
mod list_ends;
mod list_starts;
mod memory;
mod named_lists;
mod new_sizes;
mod part;
mod read;
mod releases;
mod reposition;
mod rest;
mod shared_blocks;
mod size;
mod stored_list;
mod taken_blocks;
mod visits;
mod way;
mod writes;
mod zeros;

pub use completion::{finish_contents, release_in_flight};
pub use contents::{WriterContents, contents_in_memory, write_contents};
pub use extender::Extender;
pub use front::truncated_head;
pub use known::IndexCache;
pub use laws::{lemma_forms_fit, lemma_reserve_suffices, lemma_settled_map};
pub use memory::load_first_bytes;
pub use named_lists::settle_list;
pub use new_sizes::truncate_contents;
pub use part::BlockPart;
pub use read::{head_before_block, read_at};
pub use rest::RestLocation;
pub use size::{blocks_for, place};
pub use stored_list::StoredList;
pub use visits::walk;
pub use writes::PendingList;
