// A device that records its programs and erases, and the device of an image that C has mounted.

ghost use Rattle.std.specs.Prelude.{◌≡◌, []};
ghost use Rattle.lfs_device.specs.RamDevice.{ram_history};
ghost use Rattle.lfs_device.specs.declared.geometry.Geometry.{Geometry};
ghost use Rattle.littlefs_c.specs.ChangeLog.{AreRecordedChanges, history_writes};

use crate::notes::ChangeRecord;
use lfs_device::{BlockDevice, Error, Geometry, Profile, Profiled, RamDevice};
use std::alloc::Global;

/// A device that forwards all calls to an inner device, and records programs and erases in order.
#[derive(Drop)]
pub struct Noted<D: BlockDevice> {
    inner: D,
    notes: ChangeRecord,
    ghost noted: { AreRecordedChanges notes.first notes.changes.items (history_writes (D.history inner)) },
}

impl<D: BlockDevice> Noted<D> {
    /// Wraps a device that hasn't been called yet, and records its programs and erases.
    pub fn new(alloc: Global, inner: D) -> Noted<D>
        requires { D.history inner ≡ [] }
        ensures { result.inner ≡ inner }
    {
        Noted {
            inner,
            notes: ChangeRecord::new(alloc),
        }
    }

    /// Borrows the inner device.
    pub fn inner(&self) -> &D
        ensures { result.now ≡ self.now.inner }
    {
        &self.inner
    }

    /// Borrows the record of programs and erases.
    pub fn notes(&self) -> &ChangeRecord
        ensures { AreRecordedChanges result.now.first result.now.changes.items (history_writes (D.history self.now.inner)) }
    {
        &self.notes
    }
}

impl<D: BlockDevice> BlockDevice for Noted<D> {
    ghost geometry = { λ d. D.geometry d.inner };

    ghost blocks = { λ d. D.blocks d.inner };

    ghost history = { λ d. D.history d.inner };

    ghost shape = { λ d. D.shape d.inner };

    ghost bytes = { λ d. D.bytes d.inner };

    ghost newest = { λ d. D.newest d.inner };

    ghost conforms = { λ d. D.conforms d.inner };

    fn geometry(&self) -> Geometry {
        self.inner.geometry()
    }

    fn read(&mut self, block: u32, off: u32, buf: &mut [u8]) -> Result<(), Error> {
        let outcome = self.inner.read(block, off, buf);
        outcome
    }

    fn prog(&mut self, block: u32, off: u32, bytes: &[u8]) -> Result<(), Error> {
        let outcome = self.inner.prog(block, off, bytes);
        self.notes.note_program(block, off, bytes);
        outcome
    }

    fn erase(&mut self, block: u32) -> Result<(), Error> {
        let outcome = self.inner.erase(block);
        self.notes.note_erase(block);
        outcome
    }
}

/// The device of an image that C has mounted: a [`RamDevice`] with a record of its changes and a
/// profile.
pub type ImageDevice = Profiled<Noted<RamDevice>>;

// Returns a `ImageDevice` over a device in memory that hasn't been called yet.
pub(crate) fn image_device(alloc: Global, ram: RamDevice, profile: Profile) -> ImageDevice
    requires { ram_history ram ≡ [] }
    ensures ram { result.inner.inner ≡ ram }
    ensures profile { result.profile ≡ profile }
{
    Profiled::new(Noted::new(alloc, ram), profile)
}
