// Errors and their lines, which are written without allocating memory.

ghost use Rattle.std.specs.Prelude.{◌≡◌, ◌≤◌, ◌++◌, codes, false, length, true};
ghost use Rattle.std.specs.Io.KnownBytes.{Appends};
ghost use Rattle.lfs_model.specs.layers.Listing.{newline};
ghost use Rattle.lfs_tool.specs.Errors.{error_line, error_line_of, error_status};
ghost use Rattle.lfs_tool.specs.ExitStatus.{is_help_request};
ghost use Rattle.lfs_tool.specs.KnownBytes.{AppendsPrefix};
ghost use Rattle.lfs_tool.specs.Reports.{HasShownUnlessFailed};
ghost use Rattle.lfs_tool.specs.RunEnds.{IsFailureReported};
ghost use Rattle.lfs_tool.specs.Streams.{has_failed, stream_inner};

use crate::LineError;
use crate::stream::{Stream, show, write_and_flush};
use arrayvec::ArrayString;
use clap::error::ErrorKind;
use itoa::Buffer;
use lfs_device::Error;
use std::alloc::AllocError;
use std::io::Write;

/// The reason why a call of the tool failed.
#[derive(Clone, Copy, Debug, PartialEq, Eq, thiserror::Error)]
pub enum ToolError {
    /// The file system refused an operation, or memory ran out.
    #[error("error: {} ({})", .0.name(), .0.number())]
    Fs(Error),
    /// The image or the source couldn't be read.
    #[error("error: input")]
    Input,
    /// The image, the printed lines or the target couldn't be written.
    #[error("error: output")]
    Output,
}

/// The reason why a run of the program failed.
#[derive(Debug, Drop, thiserror::Error)]
pub enum Fault {
    /// The command line is wrong, or it asks for help.
    #[error(transparent)]
    Line(LineError),
    /// A call of the tool failed.
    #[error(transparent)]
    Tool(ToolError),
}

impl From<Error> for ToolError {
    ghost use Rattle.std.specs.Prelude.{◌≡◌};
    ghost use Rattle.lfs_tool.specs.declared.errors.ToolError.TheVariants.{Fs};

    ghost from_gives = { λ error e. e ≡ Fs error };

    fn from(error: Error) -> Self {
        ToolError::Fs(error)
    }
}

impl From<AllocError> for ToolError {
    ghost use Rattle.std.specs.Prelude.{◌≡◌};
    ghost use Rattle.lfs_device.specs.declared.error.Error.TheVariants.{NoMemory};
    ghost use Rattle.lfs_tool.specs.declared.errors.ToolError.TheVariants.{Fs};

    ghost from_gives = { λ _ e. e ≡ Fs NoMemory };

    fn from(_error: AllocError) -> Self {
        ToolError::Fs(Error::NoMemory)
    }
}

impl ToolError {
    fn error_line_text(self) -> LineText
        ensures { result.bytes ≡ error_line_of self }
    {
        match self {
            ToolError::Fs(error) => text_of_error(error),
            ToolError::Input => line_of_words("input"),
            ToolError::Output => line_of_words("output"),
        }
    }

    fn exit_status(self) -> u8
        ensures { result ≡ error_status self }
    {
        match self {
            ToolError::Fs(_) => 1,
            ToolError::Input | ToolError::Output => 3,
        }
    }
}

// One of the tool's own lines, which have at most 96 bytes.
type LineText = ArrayString<96>;

fn line_of_words(words: &str) -> LineText
    requires { length words.now ≤ 80 }
    ensures { result.bytes ≡ codes "error: " ++ words.now ++ newline }
{
    let mut line = LineText::new();
    line.push_str("error: ");
    line.push_str(words);
    line.push_str("\n");
    line
}

fn text_of_error(error: Error) -> LineText
    ensures { result.bytes ≡ error_line error }
{
    let mut digits = Buffer::new();
    let mut line = LineText::new();
    line.push_str("error: ");
    line.push_str(error.name());
    line.push_str(" (");
    line.push_str(digits.format(error.number()));
    line.push_str(")\n");
    line
}

// Writes the error line for a wrong command line, and returns the exit status. A failed write is
// ignored.
fn write_usage_error<E: Write>(err: &mut Stream<E>, rule: &str) -> u8
    requires { length rule.now ≤ 80 }
    ensures status { result ≡ 2 }
    ensures beginning { AppendsPrefix (E.contents (stream_inner err.old)) (E.contents (stream_inner err.new)) (codes "error: " ++ rule.now ++ newline) }
    ensures line { has_failed err.new ≡ false → Appends (E.contents (stream_inner err.old)) (E.contents (stream_inner err.new)) (codes "error: " ++ rule.now ++ newline) }
{
    let text = line_of_words(rule);
    let _ = write_and_flush(err, text.as_bytes());
    2
}

// Writes the line of an error, and returns the exit status. A failed write is ignored.
fn write_error_line<E: Write>(err: &mut Stream<E>, error: ToolError) -> u8
    ensures status { result ≡ error_status error }
    ensures beginning { AppendsPrefix (E.contents (stream_inner err.old)) (E.contents (stream_inner err.new)) (error_line_of error) }
    ensures line { has_failed err.new ≡ false → Appends (E.contents (stream_inner err.old)) (E.contents (stream_inner err.new)) (error_line_of error) }
{
    let line = error.error_line_text();
    let _ = write_and_flush(err, line.as_bytes());
    error.exit_status()
}

/// Writes the error of a run, and returns the exit status of the program.
///
/// | Status | Meaning | Text |
/// |---|---|---|
/// | 0 | help was requested | the parser's text, to `out` |
/// | 1 | the file system refused, or memory ran out | `error: <name> (<number>)`, to `err` |
/// | 2 | the command line is wrong | the parser's text or one of the tool's lines, to `err` |
/// | 3 | input or output failed | `error: input` or `error: output`, to `err` |
///
/// Only one of the two streams is used, and a failed write is ignored. If no write fails, the whole
/// text is written and the stream is flushed. The wording of the parser's text isn't specified.
pub fn report<O: Write, E: Write>(fault: &Fault, out: &mut Stream<O>, err: &mut Stream<E>) -> u8
    ensures shown { IsFailureReported E.contents fault.now result err.old err.new }
    ensures out { is_help_request fault.now ≡ false → out.new ≡ out.old }
    ensures help { is_help_request fault.now ≡ true → HasShownUnlessFailed out.new }
{
    match fault {
        Fault::Line(LineError::Modes) => write_usage_error(err, "give exactly one of -c, -u, -l"),
        Fault::Line(LineError::Order) => {
            write_usage_error(err, "--order is longer-first or shorter-first")
        }
        Fault::Line(LineError::Board) => {
            write_usage_error(err, "--board is esp8266, esp32, rp2040 or micropython")
        }
        Fault::Line(LineError::Limit(limit)) => write_usage_error(err, limit.rule()),
        Fault::Line(LineError::Misuse(misuse)) => write_usage_error(err, misuse.rule()),
        Fault::Line(LineError::Part) => {
            write_usage_error(
                err,
                "-b auto and --offset are for -l, -u, --check and --cat",
            )
        }
        Fault::Line(LineError::NotUtf8) => write_usage_error(err, "the command line is not UTF-8"),
        Fault::Line(LineError::Parser(error)) => match error.kind() {
            ErrorKind::OutOfMemory => write_error_line(err, ToolError::Fs(Error::NoMemory)),
            ErrorKind::DisplayHelp | ErrorKind::DisplayVersion => {
                let _ = show(out, error);
                0
            }
            _ => {
                let _ = show(err, error);
                2
            }
        },
        Fault::Tool(error) => write_error_line(err, *error),
    }
}
