// Lists that are entirely on the device.

/// A stored list, which is a CTZ skip-list that is entirely on the device. `head` is the list's
/// last block, and `size` is the list's size in bytes. `in_flight` says whether the list may have
/// blocks in flight, which are allocated but which no commit refers to yet.
///
/// A list of no bytes has no blocks.
#[derive(Clone, Copy, Debug, PartialEq, Eq)]
pub struct StoredList {
    pub head: u32,
    pub size: u32,
    pub in_flight: bool,
}
