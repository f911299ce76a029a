// Runs of the program on real files, for the rows and for cases that no row can express.

use crate::runs::{RUNS, make_files, program_words, seconds_at, set_seconds, time_in_image};
use lfs_tool::{FaultLog, Stream};
use lfs_tool_run::{Host, run_words};
use std::io::Write;
use std::test::Fail;
use std::{fs, io};

fn push_run(
    rt: &HostRuntime,
    words: io::Result<Vec<String>>,
    text: &mut Vec<u8>,
) -> io::Result<()> {
    let log = FaultLog::new();
    let mut out = Stream::new(Vec::new(rt.alloc()));
    let mut err = Stream::new(Vec::new(rt.alloc()));
    let status = run_words(Host::new(rt, &log), words, &mut out, &mut err);
    for lines in [out.into_inner(), err.into_inner()] {
        text.extend_from_slice(lines.as_slice())?;
        if lines.last().is_some_and(|byte| *byte != b'\n') {
            text.extend_from_slice(b"%\n")?;
        }
    }
    if status != 0 {
        writeln!(text, "status {status}")?;
    }
    Ok(())
}

// Runs the command lines of a row, and returns the row with their actual output.
fn row_of_runs(rt: &HostRuntime, row: &str) -> io::Result<Vec<u8>> {
    make_files(rt)?;
    let mut text = Vec::new(rt.alloc());
    for line in row.split('\n') {
        if let Some(words) = line.strip_prefix("$ ") {
            writeln!(text, "{line}")?;
            let words = program_words(rt.alloc(), words)?;
            push_run(rt, Ok(words), &mut text)?;
        }
    }
    let image = fs::read(rt, "runs/image")?;
    write!(text, "image: {}", image.len())?;
    Ok(text)
}

#[test]
fn runs_end_as_expected(rt: HostRuntime) -> Result<(), Fail> {
    for row in RUNS.trim_end().split("\n\n") {
        let text = row_of_runs(&rt, row)?;
        let shown = str::from_utf8(text.as_slice()).unwrap_or("");
        assert_eq!(rt; shown, row);
        assert!(rt; !fs::exists(&rt, "runs/.mklittlefs-0")?, "{row}");
    }
    fs::remove_dir_all(&rt, "runs")?;
    Ok(())
}

#[test]
fn missing_words_are_reported(rt: HostRuntime) -> Result<(), Fail> {
    let mut text = Vec::new(rt.alloc());
    for kind in [io::ErrorKind::OutOfMemory, io::ErrorKind::InvalidData] {
        push_run(&rt, Err(io::Error::from(kind)), &mut text)?;
    }
    let wanted = "error: NoMemory (12)\nstatus 1\nerror: the command line is not UTF-8\nstatus 2\n";
    assert!(rt; text.as_slice() == wanted.as_bytes());
    Ok(())
}

fn run_line(rt: &HostRuntime, line: &str) -> Result<bool, Fail> {
    let mut text = Vec::new(rt.alloc());
    push_run(rt, Ok(program_words(rt.alloc(), line)?), &mut text)?;
    Ok(text.is_empty())
}

#[test]
fn times_are_kept_and_set(rt: HostRuntime) -> Result<(), Fail> {
    let _ = fs::remove_dir_all(&rt, "times");
    fs::create_dir_all(&rt, "times/from/d")?;
    fs::write(&rt, "times/from/d/a", b"hello")?;
    fs::write(&rt, "times/from/late", b"")?;
    set_seconds(&rt, "times/from/d/a", 1_000_000_000)?;
    set_seconds(&rt, "times/from/late", 0x1_0000_0000)?;
    set_seconds(&rt, "times/from/d", 0xffff_ffff)?;
    assert!(rt; run_line(&rt, "-c times/from --times -s auto times/image")?);
    assert!(rt; run_line(&rt, "-u times/to --times times/image")?);
    assert_eq!(rt; seconds_at(&rt, "times/to/d/a")?, 1_000_000_000);
    assert_eq!(rt; seconds_at(&rt, "times/to/d")?, 0xffff_ffff);
    // Without the option, no time is set.
    assert!(rt; run_line(&rt, "-u times/others times/image")?);
    assert!(rt; seconds_at(&rt, "times/others/d/a")? > 1_000_000_000);
    let image = fs::read(&rt, "times/image")?;
    let time = time_in_image(rt.alloc(), image.as_slice(), b"/d/a");
    assert!(rt; time.is_some_and(|time| time.as_slice() == [0x00, 0xca, 0x9a, 0x3b].as_slice()));
    let late = time_in_image(rt.alloc(), image.as_slice(), b"/late");
    assert!(rt; late.is_none());
    fs::remove_dir_all(&rt, "times")?;
    Ok(())
}
