// The answers to commands.

use lfs_device::Error;
use lfs_fs::Reply;

/// The number of calls that a device received, by kind, and the number of calls that failed.
#[derive(Clone, Copy)]
pub struct DeviceCallCounts {
    pub reads: u64,
    pub programs: u64,
    pub erases: u64,
    /// The number of calls that failed.
    pub faults: u64,
}

/// A difference between two sessions. Paths are bytes.
#[derive(Drop)]
pub enum SessionDifference {
    /// The entries at this path differ: in their kind or size, or because one session has no entry
    /// there.
    Entry(Vec<u8>),
    /// The bytes of the files at this path differ.
    Bytes(Vec<u8>),
    /// The entries at a path differ in the attribute of this type.
    Attribute(Vec<u8>, u8),
    /// The global states differ.
    Gstate,
    /// Only one of the sessions uses this block.
    Block(u32),
    /// The numbers of used blocks differ.
    UsedCount,
}

/// The answer to a command of a script.
#[derive(Drop)]
pub enum Answer {
    /// The reply of a session, or `Done` after a command that isn't an operation of the session.
    Reply(Reply),
    /// The file system failed with this error.
    Error(Error),
    /// The script has no session or no device.
    Nothing,
    /// A file couldn't be read.
    Input,
    /// A file couldn't be written.
    Output,
    Calls(DeviceCallCounts),
    /// The sessions don't differ.
    Same,
    /// The sessions differ, and this is the first difference.
    Differs(SessionDifference),
}
