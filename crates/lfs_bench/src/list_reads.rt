// Counts the device reads that one byte of a CTZ skip-list of 1,000 blocks costs. Compares them
// with a walk that follows only each block's first pointer.

use lfs_device::{BlockDevice, CountedCalls, Error, FaultDevice, Geometry, RamDevice};
use lfs_file::read_at;
use std::alloc::Global;
use std::io;

const BLOCK: usize = 1024;

const BLOCKS: u32 = 1000;

const SHOWN: [u32; 6] = [0, 1, 500, 512, 998, 999];

// The number of device reads for the first byte of a block of the list: with all pointers, and with
// first pointers only.
#[derive(Clone, Copy)]
struct ReadsOfListBlock {
    block: u32,
    ours: u64,
    plain: u64,
}

// Makes a device in which block i is block i of the list. Returns the device and the list's size in
// bytes.
fn device_with_skip_list(alloc: Global) -> Result<(RamDevice, u32), Error> {
    let mut bytes = Vec::new(alloc);
    let mut size = 0u32;
    for block in 0..BLOCKS {
        let begin = bytes.len();
        for power in [1, 2, 4, 8, 16, 32, 64, 128, 256, 512] {
            if block > 0 && block % power == 0 {
                bytes.extend_from_slice(&block.saturating_sub(power).to_le_bytes())?;
            }
        }
        let pointers = bytes.len().saturating_sub(begin);
        let room = BLOCK.saturating_sub(pointers);
        bytes.resize(bytes.len().saturating_add(room), (block % 256) as u8)?;
        size = size.saturating_add(room as u32);
    }
    let geometry = Geometry::new(BLOCK as u32, 128, BLOCKS)?;
    Ok((RamDevice::from_bytes(geometry, bytes)?, size))
}

// Reads a byte of the block that is reached from the head by following `steps` first pointers.
fn read_along_first_pointers<D: BlockDevice>(
    dev: &mut D,
    head: u32,
    steps: u32,
) -> Result<(), Error> {
    let mut block = head;
    for _step in 0..steps {
        if block >= dev.geometry().block_count {
            return Err(Error::Corrupt);
        }
        let mut word = [0; 4];
        dev.read(block, 0, &mut word)?;
        block = u32::from_le_bytes(word);
    }
    if block >= dev.geometry().block_count {
        return Err(Error::Corrupt);
    }
    dev.read(block, 1023, &mut [0])?;
    Ok(())
}

// Reads the first byte of each block in both ways, and counts the reads.
fn measure_skip_list_reads(alloc: Global) -> Result<Vec<ReadsOfListBlock>, Error> {
    let (device, size) = device_with_skip_list(alloc)?;
    let mut device = FaultDevice::new(device, CountedCalls::Read, 0, false);
    let mut all = Vec::new(alloc);
    let mut pos = 0u32;
    for block in 0..BLOCKS {
        let before = device.calls(CountedCalls::Read);
        let mut byte = [0];
        read_at(&mut device, BLOCKS - 1, size, pos, &mut byte)?;
        if byte[0] as u32 != block % 256 {
            return Err(Error::Corrupt);
        }
        let between = device.calls(CountedCalls::Read);
        read_along_first_pointers(&mut device, BLOCKS - 1, BLOCKS - 1 - block)?;
        let after = device.calls(CountedCalls::Read);
        all.push(ReadsOfListBlock {
            block,
            ours: between.saturating_sub(before),
            plain: after.saturating_sub(between),
        })?;
        let pointers = if block == 0 {
            0
        } else {
            block.trailing_zeros() + 1
        };
        pos = pos.saturating_add(1024 - 4 * pointers);
    }
    Ok(all)
}

/// Prints both numbers of reads for some of the blocks, and the maximum and the sums over all
/// blocks. The script bench/ctz_reads.py judges these numbers.
pub fn print_list_reads(rt: &HostRuntime) -> io::Result<()> {
    let all = match measure_skip_list_reads(rt.alloc()) {
        Ok(all) => all,
        Err(error) => return eprintln!(rt; "{error:?}"),
    };
    let mut most = 0;
    let mut ours = 0u64;
    let mut plain = 0u64;
    for reads in all.iter() {
        if SHOWN.contains(&reads.block) {
            println!(rt;
                "block {}: {} reads, plainly {}",
                reads.block, reads.ours, reads.plain
            )?;
        }
        most = most.max(reads.ours);
        ours = ours.saturating_add(reads.ours);
        plain = plain.saturating_add(reads.plain);
    }
    println!(rt; "most {most}, sum {ours}, plainly {plain}")
}
