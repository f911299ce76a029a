// The commands of a script.

use lfs_device::{Erased, PlannedFault};
use lfs_fs::OpenFlags;
use lfs_model::{NameOrder, Profile};

/// The parts of two sessions that are compared.
#[derive(Clone, Copy)]
pub enum ComparisonScope {
    /// Everything is compared.
    Whole,
    /// Everything is compared except attributes of other types than the given one.
    Kind(u8),
    /// Everything is compared except attributes and the bytes of files.
    Entries,
}

/// A command of a script. Sizes are in bytes. The values haven't been checked against a device.
#[derive(Drop)]
pub enum Command {
    /// Formats a new, blank device.
    Fresh {
        block_size: u32,
        page: u32,
        block_count: u32,
        /// The order of names: whether a name comes before or after the longer names that begin
        /// with it.
        order: NameOrder,
        /// The bytes that a block contains after an erase.
        erased: Erased,
    },
    /// Mounts a new device with the bytes of a file.
    Image {
        block_size: u32,
        page: u32,
        /// The path of the file.
        file: Vec<u8>,
        /// The bytes that a block contains after an erase.
        erased: Erased,
    },
    /// Sets the profile of the devices that later commands make.
    Profile(Profile),
    /// Makes the devices of later commands report which bytes are blank.
    BlankChecks,
    /// Ends the session.
    Unmount,
    /// Mounts the script's device again. A call of the device may be planned to fail.
    Mount(PlannedFault),
    /// Formats the script's device. A call of the device may be planned to fail.
    Format(PlannedFault),
    /// Overwrites bytes of the script's device at an offset in a block.
    Put {
        block: u32,
        offset: u32,
        bytes: Vec<u8>,
        /// The bytes that a block contains after an erase.
        erased: Erased,
    },
    /// Prints bytes of the script's device at an offset in a block.
    Bytes {
        block: u32,
        offset: u32,
        count: u32,
    },
    /// Writes the bytes of the device to the file at this path.
    Save(Vec<u8>),
    /// Prints how many calls the device received.
    Calls,
    /// Prints the first difference between the session and a session on a copy of its device.
    Compare(ComparisonScope),
    /// Prints the first difference between the session and a session on a device with the bytes of
    /// a file.
    CompareWith(Vec<u8>),
    /// Performs an operation of the session.
    Perform(Operation),
}

/// An operation of a session as it was parsed. Paths, contents and names are bytes.
#[derive(Drop)]
pub enum Operation {
    Open(Vec<u8>, OpenFlags),
    Read(u32, u32),
    Write(u32, Vec<u8>),
    Seek(u32, u32),
    Truncate(u32, u32),
    Sync(u32),
    Close(u32),
    Mkdir(Vec<u8>),
    Remove(Vec<u8>),
    /// The old path and the new path.
    Rename(Vec<u8>, Vec<u8>),
    List(Vec<u8>),
    Stat(Vec<u8>),
    GetAttr(Vec<u8>, u8),
    SetAttr(Vec<u8>, u8, Vec<u8>),
    RemoveAttr(Vec<u8>, u8),
    Gstate,
    IsUsed(u32),
    UsedCount,
    Recover,
    Remount,
}
