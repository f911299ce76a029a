// SPDX-License-Identifier: BSD-3-Clause
//! Looks up names and paths in an accepted image, and lists its directories. Also reads an image's
//! superblock, and finds a rule that keeps an image from being written.
#![tactic(auto)]

mod addresses;
mod attribute_sizes;
mod attributes;
mod by_path;
mod bytes;
mod directory;
mod entry;
mod escape;
mod file_bytes;
mod file_contents;
mod found_entries;
mod image_superblock;
mod items;
mod kinds;
mod listings;
mod path;
mod paths;
mod profile;
mod refusal;
mod search;
mod walks;

pub use attribute_sizes::attributes_size_at;
pub use attributes::find_attribute;
pub use by_path::{
    find_node, found_directory_index, look_up_path, node_of_lookup, path_has_entries,
};
pub use bytes::{read_inline_at, slot_of_file};
pub use directory::{directory_items, directory_pair_entries, has_entries, pair_entries};
pub use entry::{FileOrDirectory, FileStorage, entry_of_struct};
pub use escape::push_escaped_path;
pub use file_bytes::read_struct_bytes;
pub use file_contents::{FileContents, FoundFile, find_file_contents};
pub use found_entries::{FoundAttribute, FoundNode, Listing, Node, NodeAndEmptiness};
pub use image_superblock::superblock;
pub use items::{NameAndOwnedStruct, OwnedStruct, owned_struct};
pub use kinds::{Kind, ListItem, Stat};
pub use listings::list_directory;
pub use path::Path;
pub use paths::{PathLookup, VisiblePathLookup, look_up};
pub use profile::{find_profile_breach, follows_hard_tail};
pub use refusal::{Refusal, refuse_if, to_refusal};
pub use search::{SlotPosition, find_visible};
pub use walks::{TreeItem, walk_tree};
