// SPDX-License-Identifier: BSD-3-Clause
//! littlefs sessions for C on a flash chip, which a driver's four functions read, program, erase
//! and check for blank bytes.
#![tactic(auto)]

mod chip;
mod codes;
mod entries;
mod flash;
mod open_files;
mod sessions;
mod starts;

pub use chip::{Chip, FlashState};
pub use entries::{
    get_attr, list_lines, mkdir, remove_attr, remove_entry, rename_entry, set_attr, stat_entry,
};
pub use flash::{Flash, FlashDevice};
pub use littlefs_values::{Config, FsInfo};
pub use open_files::{
    file_close, file_open, file_read, file_seek, file_size, file_sync, file_tell, file_truncate,
    file_write,
};
pub use sessions::{
    gstate, is_used, is_writable, name_order, read_only_reason, recover, remount, stat_fs,
    used_blocks,
};
pub use starts::{format_flash, mount_flash, unmount_flash};
