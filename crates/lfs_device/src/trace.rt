ghost use Rattle.std.specs.Prelude.{◌≡◌, List};
ghost use Rattle.std.specs.Borrow.{ftrue};
ghost use Rattle.lfs_model.specs.session.History.{CallEvent};

use std::marker::Model;

/// The call history of a device, for authors of devices. Only proofs read a trace, so a trace needs
/// no memory, and its methods do nothing at run time.
///
/// A device keeps a `Trace` in a field, and defines its ghost member `history` as `events` of that
/// field. Each call assigns a new trace to the field. Callers of a device need no trace.
#[derive(Drop)]
pub struct Trace {
    pub ghost events: { List CallEvent },
}

unsafe impl Send for Trace {}

impl Model for Trace {
    ghost also_owns = { λ _. ftrue };
}

impl Trace {
    /// Returns a trace with a history that the caller's proof chooses. The proof may use the values
    /// of both arguments, usually the device before the call and the call's arguments.
    pub fn with_ghost_history<S, T>(_device: &S, _call: &T) -> Trace
        ghost events: { List CallEvent }
        ensures { result.events ≡ events }
    {
        Trace {}
    }
}
