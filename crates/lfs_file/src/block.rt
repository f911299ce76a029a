ghost use Rattle.std.specs.Prelude.{[], ◌∷◌, ◌≡◌, ◌≤◌, ◌<◌, ◌+◌, ◌-◌, ◌*◌, ◌^◌, ◌++◌, ℕ, List, length, take, drop, OnOk, slice_index};
ghost use Rattle.byteorder.specs.Endian.{little_bytes};
ghost use Rattle.lfs_device.specs.DeviceCalls.{ChangesOneBlock, ReadsOnly, ReportsOnlyIo};
ghost use Rattle.lfs_file.specs.Front.{KeepsFullBlocks, ReadsUnknownPointers};
ghost use Rattle.lfs_file.specs.Known.{ArePointersKnown, OnlyBelowKnown, AreKnownBlocks, ArePointedKnown};
ghost use Rattle.lfs_model.specs.format.SkipLists.{blocks_to_head, pointer_count, word_at};
ghost use Rattle.lfs_file.specs.CallPremises.{CanWritePointers, CanWriteBlock};
ghost use Rattle.lfs_file.specs.BlockCalls.{HasAppendedBlock, BuffersPointers, WritesBlockOnce};

use crate::known::IndexCache;
use crate::read::pointer_count_at;
use byteorder::{ByteOrder, LittleEndian};
use lfs_device::{BlockDevice, Error};

/// The full blocks of a CTZ skip-list that is being extended.
#[derive(Clone, Copy)]
pub(crate) struct FullBlocks {
    pub count: u32,
    /// The address of the last full block, if there is one.
    pub head: u32,
    /// An index cache of the blocks to which the pointers of later blocks refer.
    pub known: IndexCache,
}

impl FullBlocks {
    // Returns the full blocks of an empty list.
    pub(crate) fn new() -> FullBlocks
        ensures made { result ≡ record { count = 0; head = 0; known = result.known } }
        ensures known { (all : List ℕ) → AreKnownBlocks all result.known }
        ensures below { (n : ℕ) → OnlyBelowKnown n result.known }
    {
        FullBlocks {
            count: 0,
            head: 0,
            known: IndexCache::new(),
        }
    }

    // Starts with the full blocks before the list's block at `index`. `bytes` begins with the
    // pointers of that block, which are added to the index cache. Requires that the cache is empty.
    pub(crate) fn begin_before_block(&mut self, index: u32, bytes: &[u8])
        requires none { OnlyBelowKnown 0 self.old.known }
        requires pointers { 4 * pointer_count index ≤ length bytes.now }
        ensures made { self.new ≡ record { count = index; head = self.new.head; known = self.new.known } }
        ensures head { 0 < index → self.new.head ≡ word_at bytes.now 0 }
        ensures known { (all : List ℕ) → ((k : ℕ) → k < pointer_count index → word_at bytes.now (4 * k) ≡ slice_index all (index - 2 ^ k)) → AreKnownBlocks all self.new.known }
        ensures below { OnlyBelowKnown index self.new.known }
        ensures pointers { ArePointersKnown index self.new.known }
    {
        self.count = index;
        for k in 0..pointer_count_at(index) {
            let at = 4 * k as usize;
            let block = LittleEndian::read_u32(&bytes[at..at + 4]);
            if k == 0 {
                self.head = block;
            }
            self.known.note(index - (1 << k), block);
        }
    }

    // Appends a full block.
    pub(crate) fn add(&mut self, block: u32)
        requires few { self.old.count < 2 ^ 31 }
        requires below { OnlyBelowKnown self.old.count self.old.known }
        ensures added { self.new ≡ record { count = self.old.count + 1; head = block; known = self.new.known } }
        ensures below { OnlyBelowKnown self.new.count self.new.known }
        ensures known { (all : List ℕ) → length all ≡ self.old.count → AreKnownBlocks all self.old.known → AreKnownBlocks (all ++ block ∷ []) self.new.known }
        ensures later { ArePointedKnown self.old.count self.old.known → ArePointedKnown self.new.count self.new.known }
    {
        self.known.note(self.count, block);
        self.count += 1;
        self.head = block;
    }
}

// Writes a little-endian 32-bit word at an offset.
fn write_word(buf: &mut [u8], at: usize, word: u32)
    requires { at + 4 ≤ length buf.old }
    ensures { buf.new ≡ take at buf.old ++ (little_bytes 4 word ++ drop (at + 4) buf.old) }
{
    LittleEndian::write_u32(&mut buf[at..], word);
}

// Writes the pointers of the list's next block to the start of the buffer. Adds the blocks that are
// found by reads to the index cache.
fn write_pointers<D: BlockDevice>(
    dev: &mut D,
    front: &mut FullBlocks,
    buf: &mut [u8],
) -> Result<(), Error>
    requires { CanWritePointers (D.blocks dev.old) front.old (length buf.old) }
    ensures puts { BuffersPointers (D.blocks dev.old) front.old buf.old buf.new result }
    ensures front { KeepsFullBlocks (blocks_to_head (D.blocks dev.old) front.old.count front.old.head) front.old front.new }
    ensures few { OnOk result (ReadsUnknownPointers front.old front.new (D.history dev.old) (D.history dev.new)) }
    ensures device { ReadsOnly D.BlockDevice dev.old dev.new }
    ensures io { ReportsOnlyIo D.BlockDevice dev.old dev.new result }
{
    let index = front.count;
    if index == 0 {
        return Ok(());
    }
    let mut to = front.head;
    write_word(buf, 0, to);
    for k in 0..index.trailing_zeros() {
        to = front.known.block_at_pointer(dev, to, k, index - (2 << k))?;
        write_word(buf, 4 * (k + 1) as usize, to);
    }
    Ok(())
}

// Writes the pointers of the list's next block to the start of the buffer. Then erases `block` and
// programs it with the buffer up to offset `end`.
pub(crate) fn write_block<D: BlockDevice>(
    dev: &mut D,
    front: &mut FullBlocks,
    block: u32,
    buf: &mut [u8],
    end: u32,
) -> Result<(), Error>
    requires { CanWriteBlock D.BlockDevice dev.old front.old block end (length buf.old) }
    ensures block { OnOk result (HasAppendedBlock (D.blocks dev.old) (D.blocks dev.new) front.old.count front.old.head block
        (end - 4 * pointer_count front.old.count) (take (end - 4 * pointer_count front.old.count) (drop (4 * pointer_count front.old.count) buf.old))) }
    ensures front { KeepsFullBlocks (blocks_to_head (D.blocks dev.old) front.old.count front.old.head) front.old front.new }
    ensures calls { OnOk result (WritesBlockOnce front.old front.new (D.history dev.old) (D.history dev.new)) }
    ensures device { ChangesOneBlock D.BlockDevice block dev.old dev.new }
    ensures io { ReportsOnlyIo D.BlockDevice dev.old dev.new result }
{
    write_pointers(dev, front, buf)?;
    dev.erase(block)?;
    dev.prog(block, 0, &buf[..end as usize])?;
    Ok(())
}
