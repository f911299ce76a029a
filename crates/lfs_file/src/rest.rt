/// The location of a list's partial last block, which contains the bytes that don't fill a block.
#[derive(Clone, Copy)]
pub enum RestLocation {
    /// The list has no partial block.
    Closed,
    /// The partial block is on the device, in the given block of another list. The partial block is
    /// copied when more bytes are appended.
    Shared(u32),
    /// The partial block is in memory, and will be programmed to the given block, which the caller
    /// passed in.
    Handed(u32),
    /// The partial block is in memory, without a block on the device. The list has no other bytes.
    Held,
}
