// SPDX-License-Identifier: BSD-3-Clause
//! This crate contains the parts of the tool mklittlefs that don't need a mounted session. The
//! crate parses the command line, reads and writes files and folders, and lists, checks and unpacks
//! images.
#![tactic(auto)]

// The command line.
mod board;
mod extras;
mod help;
mod limits;
mod line;
mod modes;
mod numbers;
mod options;
mod sizes;
mod values;

// Folders and files.
mod entries;
mod fault_log;
mod file_bytes;
mod file_error;
mod folder_rules;
mod names;
mod new_image;
mod path_state;
mod root;
mod source;
mod source_folder;
mod source_memory;
mod target;
mod target_folder;
mod target_memory;
mod temporary_files;

// Images.
mod check_results;
mod checked_lines;
mod errors;
mod image_checks;
mod image_devices;
mod image_layout;
mod lines;
mod listings;
mod number_text;
mod progress;
mod scanned_pairs;
mod stream;
mod summaries;
mod superblock_layouts;
mod superblocks;
mod unpacked_images;
mod verdict;
mod verdicts;
mod violation_lines;

pub use check_results::check_result_of_image;
pub use checked_lines::{check_result_lines, profile_breach_text, refusal_reason_text};
pub use entries::{SourceEntry, read_tree};
pub use errors::{Fault, ToolError, report};
pub use extras::{Misuse, RunOptions};
pub use fault_log::{FaultLog, PathFault};
pub use file_error::FileError;
pub use folder_rules::{FolderRules, Links};
pub use image_checks::check;
pub use image_devices::{MountedImage, ram_device_of};
pub use image_layout::{ImageLayout, geometry_of_sizes};
pub use lfs_lookup::{OwnedStruct, TreeItem, push_escaped_path};
pub use limits::Limit;
pub use line::{Line, LineError, Mode, Request, read_line, read_request};
pub use listings::{items_of_image, list};
pub use new_image::NewImage;
pub use progress::{FilesAndBytes, FollowsProgress, ProgressLine};
pub use sizes::{SizeRule, Sizes};
pub use source::{ListedName, Source, SourceKind};
pub use source_folder::{Folder, OversizedFile};
pub use source_memory::MemorySource;
pub use stream::{Stream, read_image, write_and_flush};
pub use superblock_layouts::{SuperblockLayout, layout_by_blocks, layout_by_superblock};
pub use superblocks::{image_superblock_at, wrong_superblock_field};
pub use target::Target;
pub use target_folder::TargetFolder;
pub use target_memory::{MemoryTarget, TargetAction};
pub use unpacked_images::{target_tool_error, unpack};
pub use verdict::{
    AcceptedOrders, BrokenRule, CheckResult, CheckedSizes, ImageSummary, ImageVerdict,
    RefusalReason, WrongNumber,
};
pub use verdicts::check_device_image;
