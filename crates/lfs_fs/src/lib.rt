// SPDX-License-Identifier: BSD-3-Clause
//! Sessions over a littlefs image: open files, the checks of each operation in order, and runs,
//! which perform lists of operations.
#![tactic(auto)]

mod check_order;
mod checks;
mod device_laws;
mod files;
mod flags;
mod gstate;
mod image_limits;
mod lives;
mod open_files;
mod owned_path;
mod reads;
mod rename_checks;
mod run;
mod session;
mod writers;

pub use files::Fd;
pub use flags::OpenFlags;
pub use gstate::Gstate;
pub use image_limits::mount_with_limits;
pub use lfs_device::{AcceptedVersions, Profile, Profiled};
pub use lfs_lookup::{Kind, ListItem as Item, Stat};
pub use lfs_model::{NameOrder, OtherLimit, ProfileBreach};
pub use lfs_tag::Superblock;
pub use lives::{
    answered_calls_keep_read_bounds, calls_make_session_histories,
    power_loss_in_mount_changes_nothing,
};
pub use run::{Op, Reply};
pub use session::{Session, format, format_ordered, mount};
