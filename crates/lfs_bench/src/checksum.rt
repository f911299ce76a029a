// A benchmark that computes the checksum of a block of 64 KiB.

use lfs_tag::crc;
use std::io;
use std::time::Instant;

const BLOCK: usize = 65536;

// Fills the block with pseudorandom bytes, so that all entries of a checksum table are used alike.
fn fill_with_pseudorandom_bytes(block: &mut [u8]) {
    let mut state = 1u32;
    for byte in block.iter_mut() {
        state = state.wrapping_mul(1_103_515_245).wrapping_add(12345);
        *byte = (state >> 16 & 0xff) as u8;
    }
}

fn checksum_of_repeated_block(block: &[u8], rounds: u32) -> u32 {
    let mut sum = 0xffff_ffff;
    for _ in 0..rounds {
        sum = crc(sum, block);
    }
    sum
}

/// Computes the checksum `rounds` times, each time starting from the last result. Prints the
/// result, and prints the nanoseconds on standard error for bench/crc.py.
pub fn benchmark_checksum(rt: &HostRuntime, rounds: u32) -> io::Result<()> {
    let mut block = [0u8; BLOCK];
    fill_with_pseudorandom_bytes(&mut block);
    let start = Instant::now(rt)?;
    let sum = checksum_of_repeated_block(&block, rounds);
    let took = start.elapsed(rt)?;
    println!(rt; "{sum}")?;
    eprintln!(rt; "{}", took.as_nanos())
}
