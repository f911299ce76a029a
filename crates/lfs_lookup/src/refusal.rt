// Errors that are refusals: a call that returns one of them has changed nothing.

ghost use Rattle.std.specs.Prelude.{◌≡◌, true};
ghost use Rattle.lfs_model.specs.session.Session.{refuse_if};
ghost use Rattle.lfs_lookup.specs.RefusalErrors.{refusal_error, is_refusal, error_refusal};

use lfs_device::Error;
use std::marker::Model;

/// An error other than `Io`, `NoMemory` or `Corrupt`. A call that returns such an error has changed
/// nothing.
#[derive(Clone, Copy)]
pub struct Refusal {
    error: Error,
}

impl Model for Refusal {
    ghost use Rattle.std.specs.Prelude.{◌≡◌, true};
    ghost use Rattle.lfs_model.specs.session.Operations as ops;
    ghost use Rattle.lfs_lookup.specs.RefusalErrors.{error_survives_refusal, refusal_error, is_refusal, error_refusal};

    ghost Value = { ops.Refusal };

    ghost view = { λ r. error_refusal r.error };

    ghost invariant = { λ r. is_refusal r.error ≡ true };

    ghost inverse = { λ r. record { error = refusal_error r } };

    ghost inverse_ok = { λ r h. Prim.rw (error_survives_refusal r.error h) };
}

impl Refusal {
    /// Converts the refusal to an error.
    pub fn error(&self) -> Error
        ensures refusal { error_refusal result ≡ self.now }
        ensures is { is_refusal result ≡ true }
    {
        self.error
    }
}

/// Converts an error to a refusal. Requires an error other than `Io`, `NoMemory` or `Corrupt`.
pub fn to_refusal(error: Error) -> Refusal
    requires { is_refusal error ≡ true }
    ensures { result ≡ error_refusal error }
{
    Refusal { error }
}

/// Returns the error as a refusal if `is` is true, or None otherwise.
pub fn refuse_if(is: bool, error: Error) -> Option<Refusal>
    requires { is_refusal error ≡ true }
    ensures { result ≡ refuse_if is (error_refusal error) }
{
    if is { Some(Refusal { error }) } else { None }
}
