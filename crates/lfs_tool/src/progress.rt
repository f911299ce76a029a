// The progress of a task, and the line that shows it on a terminal.

use arrayvec::ArrayVec;
use std::io::Write;
use std::time::{Clock, Duration, Instant};

/// A number of files, and the total number of their bytes.
#[derive(Clone, Copy, Debug, Default, PartialEq, Eq)]
pub struct FilesAndBytes {
    pub files: usize,
    pub bytes: usize,
}

impl FilesAndBytes {
    /// Returns the counts for one file of `bytes` bytes.
    pub fn one_file(bytes: usize) -> FilesAndBytes {
        FilesAndBytes { files: 1, bytes }
    }

    /// Returns the sum of two counts. Each number saturates at `usize::MAX`.
    pub fn plus(self, more: FilesAndBytes) -> FilesAndBytes {
        FilesAndBytes {
            files: self.files.saturating_add(more.files),
            bytes: self.bytes.saturating_add(more.bytes),
        }
    }
}

/// Receives the progress of a task that creates or unpacks an image. The implementation for `()`
/// ignores all calls.
pub trait FollowsProgress {
    /// Begins a task that has `whole` files and bytes to process.
    fn begin(&mut self, whole: FilesAndBytes);

    /// Adds `more` to the files and bytes that are done.
    fn add(&mut self, more: FilesAndBytes);
}

impl FollowsProgress for () {
    fn begin(&mut self, _whole: FilesAndBytes) {}

    fn add(&mut self, _more: FilesAndBytes) {}
}

// The escape sequence that returns to the beginning of the line and erases it.
const ERASURE: &str = "\r\x1b[K";

// The shortest time between two updates of the line, in milliseconds.
const PAUSE: u64 = 200;

/// A progress line on a terminal. The line appears if a task takes more than a second, is then
/// updated in place, and is erased when the value is dropped. After a failure of the clock or of a
/// write, nothing more is written until then.
pub struct ProgressLine<W: Write + Drop, C: Clock + Drop> {
    out: W,
    clock: C,
    // The time at which the task began, or None if nothing more is to be written.
    began: Option<Instant>,
    // The time from the beginning of the task until the next update.
    next: Duration,
    whole: FilesAndBytes,
    done: FilesAndBytes,
    is_shown: bool,
}

impl<W: Write + Drop, C: Clock + Drop> Drop for ProgressLine<W, C> {
    fn drop(self) {
        let ProgressLine {
            mut out,
            clock: _,
            began: _,
            next: _,
            whole: _,
            done: _,
            is_shown,
        } = self;
        if is_shown {
            let _ = out.write_all(ERASURE.as_bytes());
            let _ = out.flush();
        }
    }
}

// Returns the bytes of the line without allocating memory.
fn progress_line(done: FilesAndBytes, whole: FilesAndBytes) -> ArrayVec<u8, 160> {
    let mut line = ArrayVec::new();
    let _ = write!(
        line,
        "{ERASURE}{} of {} files, {} of {} bytes",
        done.files, whole.files, done.bytes, whole.bytes
    );
    line
}

impl<W: Write + Drop, C: Clock + Drop> ProgressLine<W, C> {
    /// Returns the progress line of a task that begins at the time of the call. Nothing is written
    /// yet, and if `is_terminal` is false, nothing is ever written.
    pub fn new(out: W, clock: C, is_terminal: bool) -> ProgressLine<W, C> {
        let began = if is_terminal {
            Instant::now(&clock).ok()
        } else {
            None
        };
        ProgressLine {
            out,
            clock,
            began,
            next: Duration::from_secs(1),
            whole: FilesAndBytes::default(),
            done: FilesAndBytes::default(),
            is_shown: false,
        }
    }

    fn write_if_due(&mut self) {
        let Some(began) = self.began else {
            return;
        };
        let Ok(gone) = began.elapsed(&self.clock) else {
            self.began = None;
            return;
        };
        if gone.as_nanos() <= self.next.as_nanos() {
            return;
        }
        self.next = gone.saturating_add(Duration::from_millis(PAUSE));
        self.is_shown = true;
        let line = progress_line(self.done, self.whole);
        if self.out.write_all(line.as_slice()).is_err() || self.out.flush().is_err() {
            self.began = None;
        }
    }
}

impl<W: Write + Drop, C: Clock + Drop> FollowsProgress for ProgressLine<W, C> {
    fn begin(&mut self, whole: FilesAndBytes) {
        self.whole = whole;
        self.write_if_due();
    }

    fn add(&mut self, more: FilesAndBytes) {
        self.done = self.done.plus(more);
        self.write_if_due();
    }
}
