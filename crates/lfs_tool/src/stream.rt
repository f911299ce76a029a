// Streams, which read whole images and write whole texts.

ghost use Rattle.std.specs.Prelude.{◌≡◌, ◌+◌, ◌≤◌, IfErr, IfOk, IfSome, OnErr, OnOk, false, is_some, length, take, true};
ghost use Rattle.std.specs.Io.{ReadsAtMost};
ghost use Rattle.std.specs.Io.KnownBytes.{Appends, Keeps, ReadConsumes};
ghost use Rattle.lfs_tool.specs.KnownBytes.{AppendsPrefix, IsReadError};
ghost use Rattle.lfs_tool.specs.Reports.{IsReadToEnd};
ghost use Rattle.lfs_tool.specs.Streams.{has_failed, has_shown, stream_inner};

use crate::ToolError;
use lfs_device::Error;
use std::alloc::Global;
use std::fmt::Display;
use std::io::{ErrorKind, Read, Write};

// The size of the largest image in bytes.
pub(crate) const IMAGE_MAX: usize = 268_435_456;

/// A reader or a writer that keeps the error of its last call, if that call failed. A call that a
/// signal interrupted is repeated, and doesn't count as failed.
///
/// The traits of `std` can't express in a contract that a call failed. Two facts are therefore not
/// proved: that `std` is called, and that an error is kept only if the call failed. Callers can't
/// change the kept error.
#[derive(Drop)]
pub struct Stream<T> {
    inner: T,
    // The error of the last call, or None if it succeeded.
    fault: Option<ErrorKind>,
    // Whether `show` has written a value.
    has_shown: bool,
}

impl<T> Stream<T> {
    /// Returns a stream for a reader or a writer. The stream has no error yet.
    pub fn new(inner: T) -> Stream<T>
        ensures inner { stream_inner result ≡ inner }
        ensures fault { has_failed result ≡ false }
        ensures shown { has_shown result ≡ false }
    {
        Stream {
            inner,
            fault: None,
            has_shown: false,
        }
    }

    /// Returns a reference to the reader or the writer.
    pub fn inner(&self) -> &T
        ensures { result.now ≡ stream_inner self.now }
    {
        &self.inner
    }

    /// Returns the reader or the writer.
    pub fn into_inner(self) -> T
        ensures { result ≡ stream_inner self }
    {
        self.inner
    }

    /// Returns the error of the last call, or None if it succeeded.
    pub fn fault(&self) -> Option<ErrorKind>
        ensures { is_some result ≡ has_failed self.now }
    {
        self.fault
    }

    // Keeps the error of a failed call, and returns `error`.
    fn fail(&mut self, kind: ErrorKind, error: ToolError) -> ToolError
        ensures error { result ≡ error }
        ensures fault { has_failed self.new ≡ true }
        ensures inner { stream_inner self.new ≡ stream_inner self.old }
        ensures shown { has_shown self.new ≡ has_shown self.old }
    {
        self.fault = Some(kind);
        error
    }
}

/// Reads an image up to its end. Reading stops after 268,435,457 bytes, one byte more than the
/// largest image has. If the image has exactly `expected` bytes, memory is allocated only once.
///
/// # Errors
/// - `Input` if the reader fails.
/// - `Fs(NoMemory)` if memory can't be allocated.
pub fn read_image<R: Read>(
    alloc: Global,
    image: &mut Stream<R>,
    expected: usize,
) -> Result<Vec<u8>, ToolError>
    ensures bytes { IfOk result (λ v. IfSome (R.remaining (stream_inner image.old)) (λ bytes. v.items ≡ take (IMAGE_MAX + 1) bytes)) }
    ensures bound { IfOk result (λ v. length v.items ≤ IMAGE_MAX + 1) }
    ensures read { OnOk result (IsReadToEnd (R.remaining (stream_inner image.old)) (R.remaining (stream_inner image.new))) }
    ensures kept { OnOk result (has_failed image.new ≡ false) }
    ensures err { IfErr result (λ e. IsReadError e (has_failed image.new)) }
{
    image.fault = None;
    let mut bytes = Vec::with_capacity(alloc, expected.min(IMAGE_MAX + 1))?;
    let mut buffer = [0u8; 65536];
    while bytes.len() <= IMAGE_MAX {
        let room = (IMAGE_MAX + 1 - bytes.len()).min(65536);
        match read_part(image, &mut buffer[..room]) {
            Ok(0) => break,
            Ok(n) => {
                if bytes.extend_from_slice(&buffer[..n]).is_err() {
                    return Err(ToolError::Fs(Error::NoMemory));
                }
            }
            Err(_) => return Err(ToolError::Input),
        }
    }
    Ok(bytes)
}

// Reads some bytes.
#[tactic(auto, using(crate::proofs::KnownBytes::consumes_behind))]
fn read_part<R: Read>(image: &mut Stream<R>, buf: &mut [u8]) -> Result<usize, ToolError>
    ensures bound { ReadsAtMost result buf.new }
    ensures bytes { ReadConsumes (R.remaining (stream_inner image.old)) (R.remaining (stream_inner image.new)) result buf.new }
    ensures kept { OnOk result (has_failed image.new ≡ has_failed image.old) }
    ensures failed { OnErr result (has_failed image.new ≡ true) }
{
    for _ in 0..u64::MAX {
        match image.inner.read(buf) {
            Ok(n) => return Ok(n),
            Err(error) if error.kind() == ErrorKind::Interrupted => {}
            Err(error) => return Err(image.fail(error.kind(), ToolError::Input)),
        }
    }
    // Signals interrupted every attempt.
    Err(image.fail(ErrorKind::TimedOut, ToolError::Input))
}

/// Writes all bytes, and then flushes the writer. After an error, only a prefix of the bytes may
/// have been written.
///
/// # Errors
/// `Output` if the writer fails.
pub fn write_and_flush<W: Write>(out: &mut Stream<W>, bytes: &[u8]) -> Result<(), ToolError>
    ensures ok { OnOk result (Appends (W.contents (stream_inner out.old)) (W.contents (stream_inner out.new)) bytes.now) }
    ensures beginning { AppendsPrefix (W.contents (stream_inner out.old)) (W.contents (stream_inner out.new)) bytes.now }
    ensures kept { OnOk result (has_failed out.new ≡ false) }
    ensures failed { OnErr result ((result ≡ Err ToolError.Output) × (has_failed out.new ≡ true)) }
{
    out.fault = None;
    write_bytes(out, bytes)?;
    flush(out)
}

// Writes all bytes. A write that accepts no bytes is an error. After an error, only a prefix has
// been written.
#[tactic(auto, using(crate::proofs::KnownBytes::appends_more, crate::proofs::KnownBytes::appends_kept))]
fn write_bytes<W: Write>(out: &mut Stream<W>, bytes: &[u8]) -> Result<(), ToolError>
    ensures ok { OnOk result (Appends (W.contents (stream_inner out.old)) (W.contents (stream_inner out.new)) bytes.now) }
    ensures beginning { AppendsPrefix (W.contents (stream_inner out.old)) (W.contents (stream_inner out.new)) bytes.now }
    ensures kept { OnOk result (has_failed out.new ≡ has_failed out.old) }
    ensures failed { OnErr result ((result ≡ Err ToolError.Output) × (has_failed out.new ≡ true)) }
{
    let mut at = 0;
    for _ in 0..u64::MAX {
        if at >= bytes.len() {
            return Ok(());
        }
        match out.inner.write(&bytes[at..]) {
            Ok(0) => return Err(out.fail(ErrorKind::WriteZero, ToolError::Output)),
            Ok(n) => at += n,
            Err(error) if error.kind() == ErrorKind::Interrupted => {}
            Err(error) => return Err(out.fail(error.kind(), ToolError::Output)),
        }
    }
    // Signals interrupted every attempt.
    Err(out.fail(ErrorKind::TimedOut, ToolError::Output))
}

// Flushes the bytes that were written.
fn flush<W: Write>(out: &mut Stream<W>) -> Result<(), ToolError>
    ensures bytes { Keeps (W.contents (stream_inner out.old)) (W.contents (stream_inner out.new)) }
    ensures shown { has_shown out.new ≡ has_shown out.old }
    ensures kept { OnOk result (has_failed out.new ≡ has_failed out.old) }
    ensures failed { OnErr result ((result ≡ Err ToolError.Output) × (has_failed out.new ≡ true)) }
{
    for _ in 0..u64::MAX {
        match out.inner.flush() {
            Ok(()) => return Ok(()),
            Err(error) if error.kind() == ErrorKind::Interrupted => {}
            Err(error) => return Err(out.fail(error.kind(), ToolError::Output)),
        }
    }
    // Signals interrupted every attempt.
    Err(out.fail(ErrorKind::TimedOut, ToolError::Output))
}

// Writes the text of a value, and flushes the writer. After an error, only part of the text may
// have been written.
pub(crate) fn show<W: Write, D: Display>(out: &mut Stream<W>, value: &D) -> Result<(), ToolError>
    ensures text { OnOk result (IfSome (D.output value.now) (Appends (W.contents (stream_inner out.old)) (W.contents (stream_inner out.new)))) }
    ensures shown { OnOk result (has_shown out.new ≡ true) }
    ensures kept { OnOk result (has_failed out.new ≡ false) }
    ensures failed { OnErr result ((result ≡ Err ToolError.Output) × (has_failed out.new ≡ true)) }
{
    out.fault = None;
    if let Err(error) = write!(out.inner, "{value}") {
        return Err(out.fail(error.kind(), ToolError::Output));
    }
    flush(out)?;
    out.has_shown = true;
    Ok(())
}
