// The results of a mount.

use crate::orders::OrderViolations;
use lfs_device::BlockDevice;
use lfs_thread::Thread;

/// The facts that a mount finds about an image, other than its thread.
#[derive(Clone, Copy, Drop)]
pub struct ImageFindings {
    /// The index in the thread of the root directory's first pair.
    pub root: usize,
    /// For each order of names, a rule that the image breaks, or None if the image is accepted in
    /// that order.
    pub violations: OrderViolations,
}

/// An image that was read and checked: its thread, and the findings of the check.
#[derive(Drop)]
pub struct CheckedImage<D: BlockDevice> {
    pub thread: Thread<D>,
    pub findings: ImageFindings,
}
