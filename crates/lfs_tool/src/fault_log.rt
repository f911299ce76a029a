ghost use Rattle.std.specs.Prelude.{◌≡◌, IfOk};

use std::alloc::{AllocError, Global};
use std::cell::RefCell;
use std::io;
use std::io::Write;

/// A failed call on a file or a folder.
#[derive(Debug, PartialEq, Eq, Drop)]
pub struct PathFault {
    /// The path of the file or the folder.
    pub path: Vec<u8>,
    /// The description of the fault, by the operating system or by the tool.
    pub words: Vec<u8>,
}

/// A log that keeps only the first fault, or the fact that memory for it couldn't be allocated. No
/// contract says what a log contains.
#[derive(Drop)]
pub struct FaultLog {
    first: RefCell<Result<Option<PathFault>, AllocError>>,
}

fn path_fault_of(alloc: Global, path: &[u8], error: &io::Error) -> Result<PathFault, AllocError>
    ensures { IfOk result (λ fault. fault.path.items ≡ path.now) }
{
    let path = path.to_vec(alloc)?;
    let mut words = Vec::new(alloc);
    if write!(words, "{}", error).is_err() {
        return Err(AllocError);
    }
    Ok(PathFault { path, words })
}

impl FaultLog {
    /// Returns an empty log.
    pub fn new() -> FaultLog {
        FaultLog {
            first: RefCell::new(Ok(None)),
        }
    }

    /// Logs a fault at a path, unless the log already has an entry. If memory can't be allocated,
    /// logs that fact instead.
    pub fn note(&self, alloc: Global, path: &[u8], error: &io::Error) {
        self.log_first_fault(path_fault_of(alloc, path, error).map(|fault| Some(fault)));
    }

    /// Logs that memory for a fault couldn't be allocated, unless the log already has an entry.
    pub fn log_allocation_failure(&self) {
        self.log_first_fault(Err(AllocError));
    }

    fn log_first_fault(&self, fault: Result<Option<PathFault>, AllocError>) {
        if let Ok(mut first) = self.first.try_borrow_mut() {
            if matches!(&*first, Ok(None)) {
                *first = fault;
            }
        }
    }

    /// Returns the logged fault, or None if there is none, and empties the log.
    ///
    /// # Errors
    /// `AllocError` if memory for the fault couldn't be allocated when it was logged.
    pub fn take(&self) -> Result<Option<PathFault>, AllocError> {
        self.first.try_replace(Ok(None)).unwrap_or(Ok(None))
    }
}
