// SPDX-License-Identifier: BSD-3-Clause
//! Volumes over a littlefs image. A volume has any number of open files, each for reading, writing
//! or both. A file may be open under several handles, and stays open while it is renamed or
//! removed.
#![tactic(auto)]

mod bytes;
mod dirty_range;
mod examples;
mod flags;
mod handles;
mod laws;
mod loads;
mod mounts;
mod node;
mod nodes;
mod saves;
mod volume;

pub use examples::{
    changed_bytes_are_in_dirty_range, failed_volume_changes_nothing, flags_of_volume_are_checked,
    growing_calls_may_need_memory, handles_share_one_contents, node_is_changed_in_memory,
    only_absolute_path_leads_to_file, open_returns_lowest_free_handle,
    positions_past_limit_are_refused, removed_file_stays_open, renaming_directory_moves_open_files,
    sound_handles_name_existing_nodes, sync_without_free_blocks_is_refused,
};
pub use flags::allows_volume_flags;
pub use laws::{
    power_loss_leaves_old_or_new_tree, volume_call_is_session_calls, volume_works_after_each_reply,
};
pub use lfs_device::Error;
pub use lfs_fs::{
    Gstate, Item, Kind, NameOrder, OpenFlags, OtherLimit, Profile, ProfileBreach, Profiled, Stat,
    Superblock,
};
pub use mounts::{format, format_ordered, mount, mount_with_limits};
pub use volume::Volume;
