// A device that counts its failed calls.

use lfs_device::{BlockDevice, Error, Geometry};

/// A device that counts its failed calls. The count saturates.
#[derive(Drop)]
pub struct CountedDevice<D: BlockDevice> {
    inner: D,
    failed: u64,
}

impl<D: BlockDevice> CountedDevice<D> {
    pub fn new(inner: D) -> CountedDevice<D> {
        CountedDevice { inner, failed: 0 }
    }

    /// Returns a reference to the inner device.
    pub fn inner(&self) -> &D {
        &self.inner
    }

    pub fn into_inner(self) -> D {
        self.inner
    }

    /// Returns how many calls have failed.
    pub fn failed_calls(&self) -> u64 {
        self.failed
    }
}

impl<D: BlockDevice> BlockDevice for CountedDevice<D> {
    ghost geometry = { λ d. D.geometry d.inner };

    ghost blocks = { λ d. D.blocks d.inner };

    ghost history = { λ d. D.history d.inner };

    ghost shape = { λ d. D.shape d.inner };

    ghost bytes = { λ d. D.bytes d.inner };

    ghost newest = { λ d. D.newest d.inner };

    ghost conforms = { λ d. D.conforms d.inner };

    fn geometry(&self) -> Geometry {
        self.inner.geometry()
    }

    fn read(&mut self, block: u32, off: u32, buf: &mut [u8]) -> Result<(), Error> {
        let outcome = self.inner.read(block, off, buf);
        if outcome.is_err() {
            self.failed = self.failed.saturating_add(1);
        }
        outcome
    }

    fn prog(&mut self, block: u32, off: u32, bytes: &[u8]) -> Result<(), Error> {
        let outcome = self.inner.prog(block, off, bytes);
        if outcome.is_err() {
            self.failed = self.failed.saturating_add(1);
        }
        outcome
    }

    fn erase(&mut self, block: u32) -> Result<(), Error> {
        let outcome = self.inner.erase(block);
        if outcome.is_err() {
            self.failed = self.failed.saturating_add(1);
        }
        outcome
    }

    fn is_unprogrammed(&mut self, block: u32, off: u32, len: u32) -> Result<bool, Error> {
        let outcome = self.inner.is_unprogrammed(block, off, len);
        if outcome.is_err() {
            self.failed = self.failed.saturating_add(1);
        }
        outcome
    }
}
