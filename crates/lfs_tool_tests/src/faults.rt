// A log of faults returns the first fault, and returns it only once.

use lfs_tool::{FaultLog, PathFault};
use std::alloc::{AllocError, Global};
use std::fs;
use std::test::Fail;

// A fault that is logged.
#[derive(Clone, Copy)]
enum Note {
    // There is no file at this path.
    Missing(&'static str),
    // Memory for a fault couldn't be allocated.
    Lost,
}

// Faults in the order in which they are logged, and the one that the log returns.
const NOTES: [(&[Note], Option<Note>); 6] = [
    (&[], None),
    (&[Note::Missing("none/a")], Some(Note::Missing("none/a"))),
    (
        &[Note::Missing("none/a"), Note::Missing("none/b")],
        Some(Note::Missing("none/a")),
    ),
    (&[Note::Lost], Some(Note::Lost)),
    (
        &[Note::Missing("none/a"), Note::Lost],
        Some(Note::Missing("none/a")),
    ),
    (&[Note::Lost, Note::Missing("none/a")], Some(Note::Lost)),
];

fn note_in_log(rt: &HostRuntime, log: &FaultLog, note: Note) {
    match note {
        Note::Missing(path) => {
            if let Err(error) = fs::read(rt, path) {
                log.note(rt.alloc(), path.as_bytes(), &error);
            }
        }
        Note::Lost => log.log_allocation_failure(),
    }
}

// Returns the expected result of `FaultLog::take`.
fn expected_fault(
    alloc: Global,
    note: Option<Note>,
) -> Result<Result<Option<PathFault>, AllocError>, AllocError> {
    match note {
        Some(Note::Missing(path)) => Ok(Ok(Some(PathFault {
            path: path.as_bytes().to_vec(alloc)?,
            words: b"No such file or directory (os error 2)".to_vec(alloc)?,
        }))),
        Some(Note::Lost) => Ok(Err(AllocError)),
        None => Ok(Ok(None)),
    }
}

// Returns whether the log returns the expected fault, and then nothing more.
fn is_taken_once(
    rt: &HostRuntime,
    notes: &[Note],
    taken: Option<Note>,
) -> Result<bool, AllocError> {
    let log = FaultLog::new();
    for note in notes {
        note_in_log(rt, &log, *note);
    }
    let expected = expected_fault(rt.alloc(), taken)?;
    Ok(log.take() == expected && log.take() == Ok(None))
}

#[test]
fn first_noted_fault_is_taken(rt: HostRuntime) -> Result<(), Fail> {
    for (notes, taken) in NOTES {
        assert!(rt; is_taken_once(&rt, notes, taken)?);
    }
    Ok(())
}
