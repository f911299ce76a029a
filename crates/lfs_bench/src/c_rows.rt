// The benchmarks that bench/against_c.py compares with littlefs's own code. Each is called a row.

use crate::counting_device::{CountingDevice, Counts};
use crate::files::{self, CountingSession, no_memory_error, write_new_file};
use crate::{contents, wear};
use lfs_device::{Error, Geometry, Profile, RamDevice};
use lfs_fs::format;
use std::alloc::Global;
use std::io;
use std::time::Instant;

const BLOCK: u32 = 4096;

// The buffer that rows write from and read into.
type Buffer = [u8; BLOCK as usize];

// A row, which stands for its operations. The row's name is parsed before the time is measured.
#[derive(Clone, Copy)]
enum Row {
    Create1,
    Create50,
    Stat1,
    Stat50,
    List1,
    AppendSync,
    AppendOpen,
    AppendLong,
    Write,
    ReadAll,
    ReadRandom,
    ReadSmall,
    Overwrite,
    RenameSame,
    RenameAcross,
    Delete1,
    Delete50,
    SetAttr,
    NearFull,
    NotFull,
    StatDeep,
    TinyWrite,
    Mount,
    Wear,
    BootLog,
    BootCount,
}

fn row_of_name(name: &str) -> Option<Row> {
    Some(match name {
        "create1" => Row::Create1,
        "create50" => Row::Create50,
        "stat1" => Row::Stat1,
        "stat50" => Row::Stat50,
        "list1" => Row::List1,
        "appendsync" => Row::AppendSync,
        "appendopen" => Row::AppendOpen,
        "appendlong" | "appendlongs" => Row::AppendLong,
        "write" => Row::Write,
        "readall" => Row::ReadAll,
        "readrandom" => Row::ReadRandom,
        "readsmall" => Row::ReadSmall,
        "overwrite" => Row::Overwrite,
        "rename_same" => Row::RenameSame,
        "rename_across" => Row::RenameAcross,
        "delete1" => Row::Delete1,
        "delete50" => Row::Delete50,
        "setattr" => Row::SetAttr,
        "nearfull" => Row::NearFull,
        "notfull" => Row::NotFull,
        "statdeep" => Row::StatDeep,
        "tinywrite" => Row::TinyWrite,
        "mount" => Row::Mount,
        "wear" => Row::Wear,
        "bootlog" => Row::BootLog,
        "bootcount" => Row::BootCount,
        _ => return None,
    })
}

/// The settings of the device that a row runs on.
#[derive(Clone, Copy)]
pub struct BenchmarkDeviceSettings {
    /// The number of blocks, of 4,096 bytes each.
    pub blocks: u32,
    /// The number of compactions after which a metadata pair is relocated, or 0 for never.
    pub pair_cycles: u32,
    /// Whether the device reports which bytes are blank.
    pub checks_blanks: bool,
}

// Makes an empty file system on a device in memory.
fn format_row_device(
    alloc: Global,
    row: BenchmarkDeviceSettings,
) -> Result<CountingSession, Error> {
    let mut profile = Profile::new();
    profile.pair_cycles = row.pair_cycles;
    let geometry = Geometry::new(BLOCK, 256, row.blocks)?.with_profile(profile);
    let mut device = RamDevice::blank(alloc, geometry)?;
    if row.checks_blanks {
        device = device.with_blank_checks();
    }
    let erase_counts = Vec::from_elem(alloc, 0u32, row.blocks as usize).map_err(no_memory_error)?;
    format(
        alloc,
        CountingDevice::with_erase_counts(device, erase_counts),
    )
    .map_err(|(_, error)| error)
}

// Makes the files that a row needs before it is measured.
fn make_row_files(
    alloc: Global,
    session: &mut CountingSession,
    row: Row,
    bytes: &Buffer,
    count: u32,
) -> Result<(), Error> {
    match row {
        Row::Create50 => files::make_directories(alloc, session, 50),
        Row::Stat1 | Row::Delete1 | Row::List1 | Row::Mount => {
            files::make_files(alloc, session, &bytes[..100], count, 0)
        }
        Row::Stat50 | Row::Delete50 => {
            files::make_directories(alloc, session, 50)?;
            files::make_files(alloc, session, &bytes[..100], count, 50)
        }
        Row::ReadAll | Row::ReadRandom | Row::Overwrite => {
            contents::write_file_in_pieces(alloc, session, b"/big", bytes, 256)
        }
        Row::AppendLong => contents::write_file_in_pieces(alloc, session, b"/log", bytes, 2048),
        Row::RenameSame | Row::RenameAcross => {
            files::make_directories(alloc, session, 2)?;
            write_new_file(alloc, session, b"/d000/here", b"hello")
        }
        Row::ReadSmall => {
            files::make_files(alloc, session, &bytes[..100], 1000, 0)?;
            contents::write_file_in_pieces(alloc, session, b"/zbig", bytes, 25)
        }
        Row::NearFull => contents::fill_root_pair_nearly(alloc, session),
        Row::NotFull => write_new_file(alloc, session, b"/f90000", b"hell"),
        Row::StatDeep => files::make_deeply_nested_file(alloc, session),
        Row::SetAttr => write_new_file(alloc, session, b"/file", b"hello"),
        _ => Ok(()),
    }
}

// Performs the operations of a row, and returns the last session. Only these operations are timed.
fn perform_benchmark_row(
    alloc: Global,
    session: CountingSession,
    row: Row,
    bytes: &mut Buffer,
    count: u32,
) -> Result<CountingSession, Error> {
    let mut session = session;
    match row {
        Row::Wear => wear::perform_pseudorandom_operations(alloc, session, count),
        Row::BootLog => wear::append_each_mount(alloc, session, count),
        Row::BootCount => wear::rewrite_each_mount(alloc, session, count),
        _ => {
            perform_row_in_session(alloc, &mut session, row, bytes, count)?;
            Ok(session)
        }
    }
}

// Performs the operations of a row that doesn't measure wear.
fn perform_row_in_session(
    alloc: Global,
    session: &mut CountingSession,
    row: Row,
    bytes: &mut Buffer,
    count: u32,
) -> Result<(), Error> {
    match row {
        Row::Create1 => files::make_files(alloc, session, &bytes[..100], count, 0),
        Row::Create50 => files::make_files(alloc, session, &bytes[..100], count, 50),
        Row::Stat1 => files::stat_files(alloc, session, count, 0),
        Row::Stat50 => files::stat_files(alloc, session, count, 50),
        Row::List1 => files::list_root(alloc, session),
        Row::AppendSync | Row::AppendLong => {
            contents::append_and_sync(alloc, session, &bytes[..100], count)
        }
        Row::AppendOpen => contents::open_and_append(alloc, session, &bytes[..100], count),
        Row::Write => contents::write_file_in_pieces(alloc, session, b"/big", bytes, count),
        Row::ReadAll => contents::read_file_in_pieces(alloc, session, b"/big", bytes, count),
        Row::ReadRandom => {
            contents::read_at_random_positions(alloc, session, &mut bytes[..100], count)
        }
        Row::ReadSmall => {
            contents::read_file_in_pieces(alloc, session, b"/zbig", &mut bytes[..100], count)
        }
        Row::Overwrite => contents::overwrite_bytes_repeatedly(alloc, session, count),
        Row::RenameSame => files::rename_often(alloc, session, count, b"/d000/other"),
        Row::RenameAcross => files::rename_often(alloc, session, count, b"/d001/other"),
        Row::Delete1 => files::remove_files(alloc, session, count, 0),
        Row::Delete50 => files::remove_files(alloc, session, count, 50),
        Row::SetAttr => files::set_attribute_repeatedly(alloc, session, count),
        Row::NearFull | Row::NotFull => {
            contents::replace_small_file_repeatedly(alloc, session, count)
        }
        Row::StatDeep => files::stat_deeply_nested_file(alloc, session, count),
        Row::TinyWrite => contents::write_ten_bytes_repeatedly(alloc, session, count),
        Row::Mount => session.remount(alloc),
        Row::Wear | Row::BootLog | Row::BootCount => Ok(()),
    }
}

fn print_device_call_counts(
    rt: &HostRuntime,
    row: &str,
    counts: &Counts,
    nanoseconds: u128,
) -> io::Result<()> {
    println!(rt;
        "{} {} {} {} {} {} {}",
        row,
        counts.reads,
        counts.read_bytes,
        counts.programs,
        counts.program_bytes,
        counts.erases,
        nanoseconds
    )
}

// Prints the number of erases of each block, one per line.
fn print_erase_counts(rt: &HostRuntime, session: &CountingSession) -> io::Result<()> {
    for count in session.device().erase_counts() {
        println!(rt; "{count}")?;
    }
    Ok(())
}

// Prepares a session, performs the row, and prints its name and its costs. For a row that measures
// wear, also prints the number of erases of each block.
fn measure_benchmark_row(
    rt: &HostRuntime,
    session: CountingSession,
    row: Row,
    name: &str,
    count: u32,
) -> io::Result<()> {
    let mut session = session;
    let mut bytes = [b'x'; BLOCK as usize];
    if let Err(error) = make_row_files(rt.alloc(), &mut session, row, &bytes, count) {
        return println!(rt; "{error:?}");
    }
    let before = session.device().counts();
    let start = Instant::now(rt)?;
    let outcome = perform_benchmark_row(rt.alloc(), session, row, &mut bytes, count);
    let time = start.elapsed(rt)?;
    let session = match outcome {
        Ok(session) => session,
        Err(error) => return println!(rt; "{error:?}"),
    };
    let counts = session.device().counts().since(&before);
    print_device_call_counts(rt, name, &counts, time.as_nanos())?;
    match row {
        Row::Wear | Row::BootLog | Row::BootCount => print_erase_counts(rt, &session),
        _ => Ok(()),
    }
}

/// Performs a row of `count` operations on a device. Prints the row's name, its reads, bytes read,
/// programs, bytes programmed, erases and nanoseconds. For a row that measures wear, also prints
/// the number of erases of each block.
pub fn run_benchmark_row(
    rt: &HostRuntime,
    name: &str,
    device: BenchmarkDeviceSettings,
    count: u32,
) -> io::Result<()> {
    let Some(row) = row_of_name(name) else {
        return eprintln!(rt; "there is no such row");
    };
    match format_row_device(rt.alloc(), device) {
        Ok(session) => measure_benchmark_row(rt, session, row, name, count),
        Err(error) => println!(rt; "{error:?}"),
    }
}
