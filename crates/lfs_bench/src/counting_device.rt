// A device that counts its calls and their bytes, and checks in which order blocks are written.

use lfs_device::{BlockDevice, Error, Geometry};
use std::alloc::Global;

/// The numbers of reads, programs and erases of a device, and of the bytes read and programmed.
#[derive(Clone, Copy)]
pub struct Counts {
    pub reads: u64,
    pub read_bytes: u64,
    pub programs: u64,
    pub program_bytes: u64,
    pub erases: u64,
    /// The number of programs that begin at offset 0 of the block just erased, if its index is
    /// higher than that of the last such block.
    pub in_turn: u64,
}

impl Counts {
    const NONE: Counts = Counts {
        reads: 0,
        read_bytes: 0,
        programs: 0,
        program_bytes: 0,
        erases: 0,
        in_turn: 0,
    };

    /// Returns the counts of the calls since `before` was taken.
    pub fn since(&self, before: &Counts) -> Counts {
        Counts {
            reads: self.reads.saturating_sub(before.reads),
            read_bytes: self.read_bytes.saturating_sub(before.read_bytes),
            programs: self.programs.saturating_sub(before.programs),
            program_bytes: self.program_bytes.saturating_sub(before.program_bytes),
            erases: self.erases.saturating_sub(before.erases),
            in_turn: self.in_turn.saturating_sub(before.in_turn),
        }
    }
}

// The counts of the calls, and what is needed to check their order.
#[derive(Clone, Copy)]
struct CallCounter {
    counts: Counts,
    // The block that was erased last, until it is programmed.
    erased: Option<u32>,
    // The block of the last program that counted as `in_turn`.
    last: Option<u32>,
}

impl CallCounter {
    fn count_read_call(&mut self, bytes: usize) {
        self.counts.reads = self.counts.reads.saturating_add(1);
        self.counts.read_bytes = self.counts.read_bytes.saturating_add(bytes as u64);
    }

    fn count_erase_call(&mut self, block: u32) {
        self.counts.erases = self.counts.erases.saturating_add(1);
        self.erased = Some(block);
    }

    fn count_program_call(&mut self, block: u32, off: u32, bytes: usize) {
        self.counts.programs = self.counts.programs.saturating_add(1);
        self.counts.program_bytes = self.counts.program_bytes.saturating_add(bytes as u64);
        let is_later = match self.last {
            Some(last) => last < block,
            None => true,
        };
        if self.erased == Some(block) && off == 0 && is_later {
            self.counts.in_turn = self.counts.in_turn.saturating_add(1);
            self.last = Some(block);
        }
        self.erased = None;
    }
}

/// A device that counts its calls.
#[derive(Drop)]
pub struct CountingDevice<D: BlockDevice> {
    inner: D,
    turns: CallCounter,
    // The number of erases of each block. Blocks past the end of this list aren't counted.
    erased: Vec<u32>,
}

impl<D: BlockDevice> CountingDevice<D> {
    pub fn new(alloc: Global, inner: D) -> CountingDevice<D> {
        CountingDevice::with_erase_counts(inner, Vec::new(alloc))
    }

    /// Makes a device whose number of erases of each block starts at the value in `erased`.
    pub fn with_erase_counts(inner: D, erased: Vec<u32>) -> CountingDevice<D> {
        CountingDevice {
            inner,
            turns: CallCounter {
                counts: Counts::NONE,
                erased: None,
                last: None,
            },
            erased,
        }
    }

    pub fn counts(&self) -> Counts {
        self.turns.counts
    }

    /// Borrows the number of erases of each block.
    pub fn erase_counts(&self) -> &[u32] {
        &self.erased
    }
}

impl<D: BlockDevice> BlockDevice for CountingDevice<D> {
    ghost geometry = { λ d. D.geometry d.inner };

    ghost blocks = { λ d. D.blocks d.inner };

    ghost history = { λ d. D.history d.inner };

    ghost shape = { λ d. D.shape d.inner };

    ghost bytes = { λ d. D.bytes d.inner };

    ghost newest = { λ d. D.newest d.inner };

    ghost conforms = { λ d. D.conforms d.inner };

    fn geometry(&self) -> Geometry {
        self.inner.geometry()
    }

    fn read(&mut self, block: u32, off: u32, buf: &mut [u8]) -> Result<(), Error> {
        self.turns.count_read_call(buf.len());
        self.inner.read(block, off, buf)
    }

    fn prog(&mut self, block: u32, off: u32, bytes: &[u8]) -> Result<(), Error> {
        self.turns.count_program_call(block, off, bytes.len());
        self.inner.prog(block, off, bytes)
    }

    fn erase(&mut self, block: u32) -> Result<(), Error> {
        self.turns.count_erase_call(block);
        if let Some(count) = self.erased.get_mut(block as usize) {
            *count = count.saturating_add(1);
        }
        self.inner.erase(block)
    }

    fn is_unprogrammed(&mut self, block: u32, off: u32, len: u32) -> Result<bool, Error> {
        self.inner.is_unprogrammed(block, off, len)
    }
}
