// A benchmark of look-ups in a block of 64 KiB that holds the names of a thousand files, each
// created with id 0.

use lfs_model::NameOrder;
use lfs_tag::kinds::{CREATE, FILE_NAME};
use lfs_tag::{CommitBuilder, Content, Log, Lookup, Tag, find};
use std::alloc::Global;
use std::io;
use std::time::Instant;

const BLOCK: usize = 65536;

const FILES: u32 = 1000;

// Returns the name of a file. A higher number gives a name that comes earlier in name order.
fn file_name_of_number(number: u32) -> [u8; 4] {
    u32::MAX.wrapping_sub(number).to_be_bytes()
}

// Writes the names of all files to the block, in one commit.
fn fill_block_with_log(block: &mut [u8]) {
    let mut commit = CommitBuilder::new(512, block, Tag::from_bits(0xffff_ffff), Some(1));
    for number in 0..FILES {
        commit.push(Tag::new(CREATE, 0, 0), b"");
        commit.push(Tag::new(FILE_NAME, 0, 4), &file_name_of_number(number));
    }
    let _finished = commit.finish(Some([0xff; 4]));
}

fn lookup_as_number(lookup: Lookup) -> u32 {
    match lookup {
        Lookup::Found(id) => u32::from(id),
        Lookup::Place(id) => 65536 + u32::from(id),
    }
}

// Reads the log `rounds` times, and returns the sum of the ends that were found.
fn read_log_repeatedly(block: &[u8], rounds: u32) -> u64 {
    let mut sum = 0u64;
    for _ in 0..rounds {
        sum = sum.wrapping_add(Log::read(block).end() as u64);
    }
    sum
}

// Constructs the log from its known end `rounds` times, and returns the sum of the ends.
fn construct_log_repeatedly(block: &[u8], rounds: u32) -> u64 {
    let log = Log::read(block);
    let (end, last) = (log.end(), log.last_log_tag());
    let mut sum = 0u64;
    for _ in 0..rounds {
        sum = sum.wrapping_add(Log::with_known_end(block, end, last).end() as u64);
    }
    sum
}

fn find_names_repeatedly(log: &Log<'_>, rounds: u32) -> u64 {
    let mut sum = 0u64;
    for round in 0..rounds {
        let found = find(
            log,
            NameOrder::ShorterFirst,
            &file_name_of_number(round),
            None,
        );
        sum = sum.wrapping_add(u64::from(lookup_as_number(found)));
    }
    sum
}

fn read_log_content_repeatedly(alloc: Global, log: &Log<'_>, rounds: u32) -> u64 {
    let mut sum = 0u64;
    for _ in 0..rounds {
        if let Ok(content) = Content::read(alloc, log) {
            sum = sum.wrapping_add(content.slots.len() as u64);
        }
    }
    sum
}

/// Prints the ids of two names. Also times `rounds` reads of the log, logs constructed from their
/// known ends, look-ups of a name, and reads of the contents. Prints the nanoseconds on standard
/// error for bench/lookups.py.
pub fn benchmark_log_lookups(rt: &HostRuntime, rounds: u32) -> io::Result<()> {
    let mut block = [0xffu8; BLOCK];
    fill_block_with_log(&mut block);
    let log = Log::read(&block);
    let last = find(&log, NameOrder::ShorterFirst, &file_name_of_number(0), None);
    let none = find(&log, NameOrder::ShorterFirst, b"\0", None);
    println!(rt; "{} {}", lookup_as_number(last), lookup_as_number(none))?;
    let start = Instant::now(rt)?;
    let read = read_log_repeatedly(&block, rounds);
    let reading = start.elapsed(rt)?;
    let start = Instant::now(rt)?;
    let known = construct_log_repeatedly(&block, rounds);
    let knowing = start.elapsed(rt)?;
    let start = Instant::now(rt)?;
    let found = find_names_repeatedly(&log, rounds);
    let finding = start.elapsed(rt)?;
    let start = Instant::now(rt)?;
    let contents = read_log_content_repeatedly(rt.alloc(), &log, rounds);
    let whole = start.elapsed(rt)?;
    eprintln!(rt; "{read} {known} {found} {contents}")?;
    eprintln!(rt;
        "{} {} {} {}",
        reading.as_nanos(),
        knowing.as_nanos(),
        finding.as_nanos(),
        whole.as_nanos()
    )
}
