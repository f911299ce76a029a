// A block device from scratch: a chip in memory, whose erases fill a block with 0xff.

ghost use Rattle.std.specs.Prelude.{◌≡◌, ◌≤◌, ◌<◌, ◌+◌, ◌*◌, length, replicate};
ghost use Rattle.lfs_model.specs.format.Blocks.{cut, overwritten_at};
ghost use Rattle.lfs_model.specs.crash.Conformance.{CallsConform};
ghost use Rattle.lfs_model.specs.session.History.{LeftByLatestCall};
ghost use Rattle.lfs_device.specs.Bytes.{ElementsAreBytes};

use lfs_device::{BlockDevice, Error, Geometry, Trace};
use lfs_fs::format;
use saved_files::{
    append_to_log, increment_counter, read_settings, save_settings, set_counter, start,
};
use std::alloc::Global;
use std::{io, str};

// A chip: the bytes of all its blocks in order, and the history of its calls, which exists only in
// proofs.
#[derive(Drop)]
struct Chip {
    geometry: Geometry,
    bytes: Vec<u8>,
    trace: Trace,
    ghost are_bytes: { ElementsAreBytes bytes.items },
    ghost size: { length bytes.items ≡ geometry.block_size * geometry.block_count },
    ghost newest: { LeftByLatestCall trace.events (cut geometry.block_size geometry.block_count bytes.items) },
    ghost conforms: { CallsConform trace.events },
}

impl Chip {
    // Returns a chip whose bytes are all 0xff.
    fn new(alloc: Global, geometry: Geometry) -> Result<Chip, Error> {
        let len = geometry.block_size as usize * geometry.block_count as usize;
        let bytes = Vec::from_elem(alloc, 0xffu8, len)?;
        Ok(Chip {
            geometry,
            bytes,
            trace: Trace::with_ghost_history(&geometry, &()),
        })
    }

    // Returns the index in `bytes` of the byte at offset `off` of a block.
    fn position(&self, block: u32, off: u32) -> usize
        requires in_device { block < self.now.geometry.block_count }
        requires in_block { off ≤ self.now.geometry.block_size }
        ensures { result ≡ self.now.geometry.block_size * block + off }
    {
        self.geometry.block_size as usize * block as usize + off as usize
    }
}

// Overwrites the bytes from index `at` on.
fn overwrite_bytes(all: &mut Vec<u8>, at: usize, bytes: &[u8])
    requires { at + length bytes.now ≤ length all.old.items }
    ensures { all.new.items ≡ overwritten_at all.old.items at bytes.now }
{
    all[at..at + bytes.len()].copy_from_slice(bytes);
}

// Fills `len` bytes from index `at` on with 0xff.
fn fill_with_erased_bytes(all: &mut Vec<u8>, at: usize, len: usize)
    requires { at + len ≤ length all.old.items }
    ensures filled { all.new.items ≡ overwritten_at all.old.items at (replicate len 255) }
    ensures are_bytes { ElementsAreBytes all.old.items → ElementsAreBytes all.new.items }
{
    all[at..at + len].fill(0xff);
}

impl BlockDevice for Chip {
    ghost use Rattle.lfs_model.proofs.Cuts.{HasBlockSizes-cut};
    ghost use Rattle.lfs_device.specs.ByteLists.{HasBytes-cut};

    ghost geometry = { λ d. d.geometry };

    ghost blocks = { λ d. cut d.geometry.block_size d.geometry.block_count d.bytes.items };

    ghost history = { λ d. d.trace.events };

    ghost shape = { λ d. HasBlockSizes-cut d.geometry.block_size d.geometry.block_count d.bytes.items d.size };

    ghost bytes = { λ d. HasBytes-cut d.geometry.block_size d.geometry.block_count d.bytes.items d.are_bytes };

    ghost newest = { λ d. d.newest };

    ghost conforms = { λ d. d.conforms };

    fn geometry(&self) -> Geometry {
        self.geometry
    }

    fn read(&mut self, block: u32, off: u32, buf: &mut [u8]) -> Result<(), Error> {
        let start = self.position(block, off);
        buf.copy_from_slice(&self.bytes[start..start + buf.len()]);
        self.trace = Trace::with_ghost_history(self, &(block, off, buf.len()));
        Ok(())
    }

    fn prog(&mut self, block: u32, off: u32, bytes: &[u8]) -> Result<(), Error> {
        let trace = Trace::with_ghost_history(self, &(block, off, bytes));
        let start = self.position(block, off);
        overwrite_bytes(&mut self.bytes, start, bytes);
        self.trace = trace;
        Ok(())
    }

    fn erase(&mut self, block: u32) -> Result<(), Error> {
        let trace = Trace::with_ghost_history(self, &block);
        let start = self.position(block, 0);
        fill_with_erased_bytes(&mut self.bytes, start, self.geometry.block_size as usize);
        self.trace = trace;
        Ok(())
    }

    // Returns true if all these bytes are 0xff, which on this chip means that they are
    // unprogrammed.
    fn is_unprogrammed(&mut self, block: u32, off: u32, len: u32) -> Result<bool, Error> {
        let start = self.position(block, off);
        if self.bytes[start..start + len as usize]
            .iter()
            .any(|byte| *byte != 0xff)
        {
            return Ok(false);
        }
        self.trace = Trace::with_ghost_history(self, &(block, off, len));
        Ok(true)
    }
}

// Makes one directory on a new chip, and returns the number of used blocks.
fn used_block_count(alloc: Global) -> Result<u32, Error> {
    let chip = Chip::new(alloc, Geometry::new(1024, 128, 8)?)?;
    let mut session = format(alloc, chip).map_err(|(_, error)| error)?;
    session.mkdir(alloc, b"/log")?;
    session.used_count()
}

// Stores settings, a counter and a log on a chip. Returns the settings that the next start reads,
// and the incremented counter.
fn keep_files(alloc: Global) -> Result<(Vec<u8>, u32), Error> {
    let chip = Chip::new(alloc, Geometry::new(1024, 128, 8)?)?;
    let mut session = format(alloc, chip).map_err(|(_, error)| error)?;
    save_settings(&mut session, alloc, b"contrast 3")?;
    append_to_log(&mut session, alloc, b"started\n")?;
    set_counter(&mut session, alloc, 41)?;
    let number = increment_counter(&mut session, alloc)?;
    save_settings(&mut session, alloc, b"contrast 5")?;
    let mut next = start(alloc, session.unmount())?;
    Ok((read_settings(&mut next, alloc)?, number))
}

/// Prints the number of used blocks on a chip with one directory.
pub fn print_used_blocks(rt: &HostRuntime) -> io::Result<()> {
    match used_block_count(rt.alloc()) {
        Ok(count) => println!(rt; "a device of your own: {count} blocks used"),
        Err(error) => println!(rt; "error {error:?}"),
    }
}

/// Prints the settings and the counter that an application stores on a chip.
pub fn print_kept_files(rt: &HostRuntime) -> io::Result<()> {
    match keep_files(rt.alloc()) {
        Ok((settings, number)) => println!(rt;
            "kept on it: {}, counter {number}",
            str::from_utf8(&settings).unwrap_or("no text")
        ),
        Err(error) => println!(rt; "error {error:?}"),
    }
}
