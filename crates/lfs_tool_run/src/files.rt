// The files of a command line. The path `-` means standard input or standard output.

use crate::leftovers::{create_locked_image, remove_leftovers};
use lfs_tool::{FaultLog, FolderRules, NewImage, ToolError};
use std::alloc::Global;
use std::fs::File;
use std::io;
use std::io::{ErrorKind, Read, Stdin, Stdout, Write};
use std::os::unix::fs::MetadataExt;

/// The operating system, a log for its faults, and the settings of this run.
#[derive(Clone, Copy)]
pub struct Host<'a> {
    /// The system's files, streams and memory.
    pub rt: &'a HostRuntime,
    /// The log for faults of files, folders and streams.
    pub log: &'a FaultLog,
    /// Whether errors are explained even without `--explain`.
    pub explains: bool,
    /// The rules for reading the folder of a new image.
    pub rules: FolderRules<'a>,
    /// Whether a new image stores the times of files and folders, and whether unpacking restores
    /// them.
    pub times: bool,
}

impl<'a> Host<'a> {
    /// Returns a host with the default settings, without calling the system.
    pub fn new(rt: &'a HostRuntime, log: &'a FaultLog) -> Host<'a> {
        Host {
            rt,
            log,
            explains: false,
            rules: FolderRules::new(),
            times: false,
        }
    }

    pub(crate) fn alloc(self) -> Global {
        self.rt.alloc()
    }

    /// Logs the error of a call at a path, unless a signal interrupted the call.
    pub(crate) fn log_error<T>(self, path: &str, called: &io::Result<T>) {
        if let Err(error) = called {
            if error.kind() != ErrorKind::Interrupted {
                self.log.note(self.alloc(), path.as_bytes(), error);
            }
        }
    }

    /// Logs the error of a call at a path, and replaces it by the tool's error.
    pub(crate) fn log_and_map<T>(
        self,
        path: &str,
        called: io::Result<T>,
        error: ToolError,
    ) -> Result<T, ToolError> {
        self.log_error(path, &called);
        called.map_err(|_| error)
    }
}

pub(crate) fn is_standard_stream(path: &str) -> bool {
    path == "-"
}

// ---- a file that is read

// The length of a file and the time of its last change, which show whether the file has changed.
#[derive(Clone, Copy, PartialEq, Eq, Drop)]
struct FileState {
    len: u64,
    changed: (i64, i64),
}

fn state_of_file(file: &File) -> io::Result<Option<FileState>> {
    let metadata = file.metadata()?;
    if !metadata.is_file() {
        return Ok(None);
    }
    Ok(Some(FileState {
        len: metadata.len(),
        changed: (metadata.mtime(), metadata.mtime_nsec()),
    }))
}

#[derive(Drop)]
enum ReadStream {
    File(File),
    Standard(Stdin),
}

#[derive(Drop)]
pub(crate) struct LoggingReader<'a> {
    stream: ReadStream,
    // The state of the file when it was opened. Pipes and devices have none.
    state: Option<FileState>,
    path: &'a str,
    host: Host<'a>,
}

impl Read for LoggingReader<'_> {
    fn read(&mut self, buf: &mut [u8]) -> io::Result<usize> {
        let read = match &mut self.stream {
            ReadStream::File(file) => file.read(buf),
            ReadStream::Standard(stream) => stream.read(buf),
        };
        self.host.log_error(self.path, &read);
        read
    }
}

impl LoggingReader<'_> {
    /// Returns how many bytes of the file follow an offset, or 0 if the file's length is unknown.
    pub(crate) fn length_after_offset(&self, offset: u32) -> u64 {
        let len = self.state.map_or(0, |state| state.len);
        len.saturating_sub(u64::from(offset))
    }

    /// Fails with `Input` if the file has changed since it was opened, because the bytes may then
    /// be a mix of old and new data.
    pub(crate) fn confirm_unchanged(&self) -> Result<(), ToolError> {
        let ReadStream::File(file) = &self.stream else {
            return Ok(());
        };
        let confirmed = match state_of_file(file) {
            Ok(state) if state == self.state => Ok(()),
            Ok(_) => Err(io::Error::new(ErrorKind::Other, "the file has changed as it was read")),
            Err(error) => Err(error),
        };
        self.host
            .log_and_map(self.path, confirmed, ToolError::Input)
    }
}

/// Opens the file at a path for reading.
pub(crate) fn open_file<'a>(host: Host<'a>, path: &'a str) -> Result<LoggingReader<'a>, ToolError> {
    if is_standard_stream(path) {
        return Ok(LoggingReader {
            stream: ReadStream::Standard(host.rt.stdin()),
            state: None,
            path,
            host,
        });
    }
    let file = host.log_and_map(path, File::open(host.rt, path), ToolError::Input)?;
    let state = host.log_and_map(path, state_of_file(&file), ToolError::Input)?;
    Ok(LoggingReader {
        stream: ReadStream::File(file),
        state,
        path,
        host,
    })
}

// ---- an image that is written

#[derive(Drop)]
enum WrittenStream<'a> {
    File(NewImage<'a, HostRuntime>),
    Standard(Stdout),
}

#[derive(Drop)]
pub(crate) struct NotedWriter<'a> {
    stream: WrittenStream<'a>,
    path: &'a str,
    host: Host<'a>,
}

impl Write for NotedWriter<'_> {
    fn write(&mut self, buf: &[u8]) -> io::Result<usize> {
        let written = match &mut self.stream {
            WrittenStream::File(file) => match create_locked_image(file) {
                Ok(()) => file.write(buf),
                Err(error) => Err(error),
            },
            WrittenStream::Standard(stream) => stream.write(buf),
        };
        self.host.log_error(self.path, &written);
        written
    }

    fn flush(&mut self) -> io::Result<()> {
        let flushed = match &mut self.stream {
            WrittenStream::File(file) => file.flush(),
            WrittenStream::Standard(stream) => stream.flush(),
        };
        self.host.log_error(self.path, &flushed);
        flushed
    }
}

impl<'a> NotedWriter<'a> {
    /// Returns a writer for the image at a path. Nothing is written yet.
    pub(crate) fn new(host: Host<'a>, path: &'a str) -> Result<NotedWriter<'a>, ToolError> {
        let stream = if is_standard_stream(path) {
            WrittenStream::Standard(host.rt.stdout())
        } else {
            WrittenStream::File(NewImage::new(host.alloc(), host.rt, path)?)
        };
        Ok(NotedWriter { stream, path, host })
    }

    /// Renames the temporary file of an image to its path, and removes temporary files that other
    /// runs left beside it. The image must be complete and flushed. If the writer is dropped
    /// instead, the old file stays.
    pub(crate) fn place(self) -> Result<(), ToolError> {
        let NotedWriter { stream, path, host } = self;
        if let WrittenStream::File(file) = stream {
            host.log_and_map(path, file.place(), ToolError::Output)?;
            remove_leftovers(host.rt, path);
        }
        Ok(())
    }
}
