// A device with another profile.

ghost use Rattle.std.specs.Prelude.{◌≡◌};
ghost use Rattle.lfs_device.specs.declared.geometry.Geometry.{Geometry};

use crate::{BlockDevice, Error, Geometry};
use lfs_model::Profile;

/// A device that wraps another device and replaces that device's profile. The blocks and the calls
/// are those of the wrapped device.
#[derive(Drop)]
pub struct Profiled<D: BlockDevice> {
    inner: D,
    profile: Profile,
}

impl<D: BlockDevice> Profiled<D> {
    pub fn new(inner: D, profile: Profile) -> Profiled<D>
        ensures inner { result.inner ≡ inner }
        ensures profile { result.profile ≡ profile }
    {
        Profiled { inner, profile }
    }

    /// Borrows the wrapped device.
    pub fn inner(&self) -> &D
        ensures { result.now ≡ self.now.inner }
    {
        &self.inner
    }

    /// Consumes the device and returns the wrapped device.
    pub fn into_inner(self) -> D
        ensures { result ≡ self.inner }
    {
        self.inner
    }

    /// Returns the profile that replaces the wrapped device's own profile.
    pub fn profile(&self) -> Profile
        ensures { result ≡ self.now.profile }
    {
        self.profile
    }
}

impl<D: BlockDevice> BlockDevice for Profiled<D> {
    ghost geometry = { λ d. record (D.geometry d.inner) { profile = d.profile } };

    ghost blocks = { λ d. D.blocks d.inner };

    ghost history = { λ d. D.history d.inner };

    ghost shape = { λ d. D.shape d.inner };

    ghost bytes = { λ d. D.bytes d.inner };

    ghost newest = { λ d. D.newest d.inner };

    ghost conforms = { λ d. D.conforms d.inner };

    fn geometry(&self) -> Geometry {
        self.inner.geometry().with_profile(self.profile)
    }

    fn read(&mut self, block: u32, off: u32, buf: &mut [u8]) -> Result<(), Error> {
        let outcome = self.inner.read(block, off, buf);
        outcome
    }

    fn prog(&mut self, block: u32, off: u32, bytes: &[u8]) -> Result<(), Error> {
        let outcome = self.inner.prog(block, off, bytes);
        outcome
    }

    fn erase(&mut self, block: u32) -> Result<(), Error> {
        let outcome = self.inner.erase(block);
        outcome
    }

    fn is_unprogrammed(&mut self, block: u32, off: u32, len: u32) -> Result<bool, Error> {
        let outcome = self.inner.is_unprogrammed(block, off, len);
        outcome
    }
}
