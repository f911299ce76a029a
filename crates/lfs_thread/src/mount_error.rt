// The reasons for which mounting a device fails.

ghost use Rattle.std.specs.Prelude.{◌≡◌};
ghost use Rattle.lfs_thread.specs.MountErrors.{mount_error_for};

use lfs_device::Error;
use lfs_model::Violation;
use std::alloc::{AllocError, AllocFailed};

/// The reason why a device's image can't be mounted.
#[derive(Clone, Copy, Debug, PartialEq, Eq)]
pub enum MountError {
    /// The image breaks the given rule.
    Corrupt(Violation),
    /// A call of the device failed.
    Io,
    /// Memory couldn't be allocated.
    NoMemory,
}

impl MountError {
    /// Converts the error of a call that reads an image. `Corrupt` means that the image breaks the
    /// rule `violation`. Converts any error except `Corrupt` and `Io` to `NoMemory`.
    pub fn of(error: Error, violation: Violation) -> MountError
        ensures { result ≡ mount_error_for error violation }
    {
        match error {
            Error::Corrupt => MountError::Corrupt(violation),
            Error::Io => MountError::Io,
            _ => MountError::NoMemory,
        }
    }
}

impl From<MountError> for Error {
    ghost use Rattle.std.specs.Prelude.{◌≡◌};
    ghost use Rattle.lfs_thread.specs.MountErrors.{error_of_mount};

    ghost from_gives = { λ error e. e ≡ error_of_mount error };

    fn from(error: MountError) -> Self {
        match error {
            MountError::Corrupt(_) => Error::Corrupt,
            MountError::Io => Error::Io,
            MountError::NoMemory => Error::NoMemory,
        }
    }
}

impl From<AllocError> for MountError {
    ghost use Rattle.std.specs.Prelude.{◌≡◌};
    ghost use Rattle.lfs_thread.specs.declared.mount_error.MountError.TheVariants.{NoMemory};

    ghost from_gives = { λ _ e. e ≡ NoMemory };

    fn from(_: AllocError) -> Self {
        MountError::NoMemory
    }
}

impl<T: Drop> From<AllocFailed<T>> for MountError {
    ghost use Rattle.std.specs.Prelude.{◌≡◌};
    ghost use Rattle.lfs_thread.specs.declared.mount_error.MountError.TheVariants.{NoMemory};

    ghost from_gives = { λ _ e. e ≡ NoMemory };

    fn from(_: AllocFailed<T>) -> Self {
        MountError::NoMemory
    }
}
