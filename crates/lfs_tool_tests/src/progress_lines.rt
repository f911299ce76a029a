// The progress line, on a terminal and with a clock that the test provides.

use lfs_tool::{FilesAndBytes, FollowsProgress, ProgressLine};
use std::cell::Cell;
use std::fs::File;
use std::io::{ErrorKind, Write};
use std::test::Fail;
use std::time::{Clock, Duration};
use std::{fs, io};

// A terminal that is a file, with space for `room` more bytes.
#[derive(Drop)]
struct LimitedTerminal {
    file: File,
    room: usize,
}

impl Write for LimitedTerminal {
    fn write(&mut self, buf: &[u8]) -> io::Result<usize> {
        let n = buf.len().min(self.room);
        if n == 0 {
            return Err(io::Error::from(ErrorKind::BrokenPipe));
        }
        let taken = self.file.write(&buf[..n])?;
        self.room = self.room.saturating_sub(taken);
        Ok(taken)
    }

    fn flush(&mut self) -> io::Result<()> {
        Ok(())
    }
}

// A clock that advances by `step` milliseconds whenever it is read. It fails if `step` is 0.
#[derive(Drop)]
struct TickingClock {
    now: Cell<u64>,
    step: u64,
}

impl Clock for TickingClock {
    fn monotonic(&self) -> io::Result<Duration> {
        if self.step == 0 {
            return Err(io::Error::from(ErrorKind::Unsupported));
        }
        self.now.set(self.now.get().saturating_add(self.step));
        Ok(Duration::from_millis(self.now.get()))
    }

    fn since_1970(&self) -> io::Result<Duration> {
        Err(io::Error::from(ErrorKind::Unsupported))
    }
}

// The step of the clock in milliseconds, the number of files of 4 bytes, the number of bytes that
// the terminal accepts, and the bytes that it receives.
const LINES: [(u64, usize, usize, &str); 8] = [
    // no line within the first second
    (100, 4, 999, ""),
    (500, 1, 999, ""),
    // a line after the first second, and then at most five updates a second
    (500, 2, 999, "\r\x1b[K2 of 2 files, 8 of 8 bytes\r\x1b[K"),
    (
        100,
        12,
        999,
        "\r\x1b[K10 of 12 files, 40 of 48 bytes\r\x1b[K",
    ),
    (
        400,
        3,
        999,
        "\r\x1b[K2 of 3 files, 8 of 12 bytes\r\x1b[K3 of 3 files, 12 of 12 bytes\r\x1b[K",
    ),
    // a line before the first file is done
    (2000, 0, 999, "\r\x1b[K0 of 0 files, 0 of 0 bytes\r\x1b[K"),
    // a failing write, and a failing clock
    (2000, 3, 5, "\r\x1b[K0"),
    (0, 3, 999, ""),
];

// Reports the progress of the given number of files, with the file `shown` as output, which is or
// isn't a terminal.
fn write_progress_lines(
    rt: &HostRuntime,
    row: (u64, usize, usize),
    is_terminal: bool,
) -> io::Result<()> {
    let (step, files, room) = row;
    let file = File::create(rt, "shown")?;
    let clock = TickingClock {
        now: Cell::new(0),
        step,
    };
    let mut progress = ProgressLine::new(LimitedTerminal { file, room }, clock, is_terminal);
    progress.begin(FilesAndBytes {
        files,
        bytes: files.saturating_mul(4),
    });
    for _ in 0..files {
        progress.add(FilesAndBytes { files: 1, bytes: 4 });
    }
    Ok(())
}

#[test]
fn progress_lines_are_shown_when_due(rt: HostRuntime) -> Result<(), Fail> {
    for (step, files, room, text) in LINES {
        write_progress_lines(&rt, (step, files, room), true)?;
        let shown = fs::read(&rt, "shown")?;
        assert!(rt;
            shown.as_slice() == text.as_bytes(),
            "{step} {files} {room}"
        );
    }
    write_progress_lines(&rt, (2000, 3, 999), false)?;
    assert!(rt; fs::read(&rt, "shown")?.is_empty());
    fs::remove_file(&rt, "shown")?;
    Ok(())
}
