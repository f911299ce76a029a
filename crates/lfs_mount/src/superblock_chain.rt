// The superblock's pairs, which precede the root's first pair.

ghost use Rattle.std.specs.Prelude.{Err, ◌≡◌, ◌↔◌, ◌⊎◌, ◌<◌, ◌≤◌, ◌+◌, length, IsTrue, IfOk, IfErr, IfSome, IsErrOf, None, Some, map};
ghost use Rattle.std.specs.Option.{option_map};
ghost use Rattle.lfs_model.specs.format.Disk.{disk_with_order};
ghost use Rattle.lfs_model.specs.format.Blocks.{block_bytes};
ghost use Rattle.lfs_model.specs.session.History.{read_count};
ghost use Rattle.lfs_model.specs.tree.View.{HasFirstLogEntry, superblock_entry};
ghost use Rattle.lfs_model.specs.layers.Violations.{PairsBreak};
ghost use Rattle.lfs_model.specs.declared.order.NameOrder.{NameOrder};
ghost use Rattle.lfs_model.specs.declared.violations.Violation.{Violation};
ghost use Rattle.lfs_tag.specs.ContentView.{slot_view};
ghost use Rattle.lfs_thread.specs.Kept.{disk_of_device, header_pairs};
ghost use Rattle.lfs_thread.specs.MountErrors.{ReadsReportingFaults};
ghost use Rattle.lfs_mount.specs.SuperblockChain.{AreThreadHeaders, BreaksFirstSuperblock, HasSuperblockChainLength, BlockHasSuperblock, is_geometry_struct, first_filled, inline_bytes, has_name, may_superblock_chain_continue, repeats_superblock_struct, first_repeats_superblock, repeats_superblock, first_slot_struct, superblock_in_log};

use lfs_device::{AcceptedVersions, BlockDevice, Error, Geometry, read_block};
use lfs_model::Violation;
use lfs_pair::Pair;
use lfs_tag::kinds::{INLINE_STRUCT, SUPERBLOCK_NAME};
use lfs_tag::{Content, Log, Slot, Tag, has_hard_tail, superblock_of};
use lfs_thread::MountError;
use std::alloc::Global;

const MAGIC: &[u8] = b"littlefs";

// Returns whether the first entry of the log is the superblock's name.
fn log_begins_superblock(log: &Log<'_>) -> bool
    ensures { IsTrue result ↔ HasFirstLogEntry (Some log.now) superblock_entry }
{
    match log.entries().next() {
        Some(entry) => entry.tag == Tag::new(SUPERBLOCK_NAME, 0, 8) && entry.bytes == MAGIC,
        None => false,
    }
}

// Returns whether a superblock's struct has an accepted version and the device's geometry.
fn fits_geometry(geometry: &Geometry, bytes: &[u8]) -> bool
    ensures { result ≡ is_geometry_struct geometry.now.profile.versions geometry.now.block_size geometry.now.block_count bytes.now }
{
    match <&[u8; 24]>::try_from(bytes) {
        Ok(bytes) => {
            let fields = superblock_of(bytes);
            fields.has_accepted_version(geometry.profile.versions)
                && fields.block_size == geometry.block_size
                && fields.block_count == geometry.block_count
        }
        Err(_) => false,
    }
}

fn has_name(slot: &Slot<'_>, bytes: &[u8]) -> bool
    ensures { result ≡ has_name bytes.now (slot_view slot.now).name }
{
    match slot.name {
        Some(name) => name.bytes == bytes,
        None => false,
    }
}

// Returns the bytes of a slot's inline struct, or None if the slot has no inline struct.
fn inline_bytes_in<'a>(slot: &Slot<'a>) -> Option<&'a [u8]>
    ensures { option_map (λ b. b.now) result ≡ inline_bytes (slot_view slot.now).struct }
{
    match slot.structure {
        Some(part) if part.kind == INLINE_STRUCT => Some(part.bytes),
        _ => None,
    }
}

// Returns the superblock's struct in the first slot. Returns None if the first slot isn't the
// superblock of a device with this geometry.
fn superblock_in_slots<'a>(geometry: &Geometry, slots: &[Slot<'a>]) -> Option<&'a [u8]>
    ensures { option_map (λ b. b.now) result ≡ first_slot_struct geometry.now.profile.versions geometry.now.block_size geometry.now.block_count (map slot_view slots.now) }
{
    let [first, ..] = slots else {
        return None;
    };
    if !first.is_superblock() || !has_name(first, MAGIC) {
        return None;
    }
    match inline_bytes_in(first) {
        Some(bytes) if fits_geometry(geometry, bytes) => Some(bytes),
        _ => None,
    }
}

// Returns whether the struct `own` has an accepted version, and otherwise the same bytes as the
// superblock's struct `bytes`.
fn repeats_superblock_struct(versions: AcceptedVersions, bytes: &[u8], own: &[u8]) -> bool
    requires { length bytes.now ≡ 24 }
    ensures { result ≡ repeats_superblock_struct versions bytes.now own.now }
{
    match <&[u8; 24]>::try_from(own) {
        Ok(fields) => {
            superblock_of(fields).has_accepted_version(versions) && own[4..] == bytes[4..]
        }
        Err(_) => false,
    }
}

// Returns whether the first slot is a superblock's. Returns `Corrupt` if and only if the first slot
// is a superblock's, but its struct lacks an accepted version or differs from `bytes` elsewhere.
fn slots_repeat_superblock(
    versions: AcceptedVersions,
    slots: &[Slot<'_>],
    bytes: &[u8],
) -> Result<bool, Error>
    requires { length bytes.now ≡ 24 }
    ensures ok { IfOk result (λ repeats. first_repeats_superblock versions bytes.now (map slot_view slots.now) ≡ Some repeats) }
    ensures corrupt { IfErr result (λ e. (e ≡ Error.Corrupt) × (first_repeats_superblock versions bytes.now (map slot_view slots.now) ≡ None)) }
{
    let [first, ..] = slots else {
        return Ok(false);
    };
    if !first.is_superblock() {
        return Ok(false);
    }
    match inline_bytes_in(first) {
        Some(own) if repeats_superblock_struct(versions, bytes, own) => Ok(true),
        _ => Err(Error::Corrupt),
    }
}

// Returns the superblock's struct in slot 0 of a log. Returns `Corrupt` only if there is no such
// struct, and `NoMemory` if memory can't be allocated.
fn superblock_from_log(alloc: Global, geometry: &Geometry, log: &Log<'_>) -> Result<Vec<u8>, Error>
    ensures ok { IfOk result (λ bytes. superblock_in_log geometry.now.profile.versions geometry.now.block_size geometry.now.block_count log.now ≡ Some bytes.items) }
    ensures corrupt { IsErrOf result Error.Corrupt → superblock_in_log geometry.now.profile.versions geometry.now.block_size geometry.now.block_count log.now ≡ None }
    ensures errors { IfErr result (λ e. (e ≡ Error.Corrupt) ⊎ (e ≡ Error.NoMemory)) }
{
    let content = Content::read(alloc, log)?;
    match superblock_in_slots(geometry, &content.slots) {
        Some(bytes) => Ok(Vec::from_slice(alloc, bytes)?),
        None => Err(Error::Corrupt),
    }
}

// Returns whether the first slot in a block's log is a superblock's. Returns `Corrupt` only if the
// log is malformed, or if the superblock's struct lacks an accepted version or differs from `bytes`
// elsewhere. Returns `NoMemory` if memory can't be allocated.
fn block_repeats_superblock(
    alloc: Global,
    versions: AcceptedVersions,
    block: &[u8],
    bytes: &[u8],
) -> Result<bool, Error>
    requires { length bytes.now ≡ 24 }
    ensures ok { IfOk result (λ repeats. repeats_superblock versions bytes.now block.now ≡ Some repeats) }
    ensures corrupt { IsErrOf result Error.Corrupt → repeats_superblock versions bytes.now block.now ≡ None }
    ensures errors { IfErr result (λ e. (e ≡ Error.Corrupt) ⊎ (e ≡ Error.NoMemory)) }
{
    let log = Log::read(block);
    let content = Content::read(alloc, &log)?;
    slots_repeat_superblock(versions, &content.slots, bytes)
}

// Reads the first pair that has a slot, and returns the struct of its superblock. Returns `Corrupt`
// if the pair's log doesn't begin with the superblock's entry, or if slot 0 isn't the superblock's.
fn read_superblock_struct<D: BlockDevice>(
    alloc: Global,
    dev: &mut D,
    pair: &Pair,
) -> Result<Vec<u8>, MountError>
    requires { pair.now.active < (D.geometry dev.old).block_count }
    ensures found { IfOk result (λ bytes. BlockHasSuperblock (disk_of_device D.BlockDevice dev.old) pair.now.active bytes.items) }
    ensures broken { (v : Violation) → result ≡ Err (MountError.Corrupt v) → BreaksFirstSuperblock (disk_of_device D.BlockDevice dev.old) pair.now v }
    ensures device { ReadsReportingFaults D.BlockDevice dev.old dev.new result }
    ensures reads { read_count (D.history dev.new) ≤ read_count (D.history dev.old) + 1 }
{
    let geometry = dev.geometry();
    let no_struct = Violation::Superblock { pair: pair.blocks };
    let block = match read_block(alloc, dev, pair.active) {
        Ok(block) => block,
        Err(error) => return Err(MountError::of(error, no_struct)),
    };
    let log = Log::read(&block);
    if !log_begins_superblock(&log) {
        return Err(MountError::Corrupt(Violation::FirstEntry { pair: pair.blocks }));
    }
    match superblock_from_log(alloc, &geometry, &log) {
        Ok(bytes) => Ok(bytes),
        Err(error) => Err(MountError::of(error, no_struct)),
    }
}

// Reads a pair, and returns whether its first slot is a superblock's. Returns `Corrupt` only if the
// log is malformed, or if the superblock's struct lacks an accepted version or differs from `bytes`
// elsewhere.
fn pair_repeats_superblock<D: BlockDevice>(
    alloc: Global,
    dev: &mut D,
    pair: &Pair,
    bytes: &[u8],
) -> Result<bool, MountError>
    requires block { pair.now.active < (D.geometry dev.old).block_count }
    requires bytes { length bytes.now ≡ 24 }
    ensures ok { IfOk result (λ repeats. repeats_superblock (D.geometry dev.old).profile.versions bytes.now (block_bytes (D.blocks dev.old) pair.now.active) ≡ Some repeats) }
    ensures broken { (v : Violation) → result ≡ Err (MountError.Corrupt v) → (v ≡ Violation.OtherSuperblock pair.now.blocks) × (repeats_superblock (D.geometry dev.old).profile.versions bytes.now (block_bytes (D.blocks dev.old) pair.now.active) ≡ None) }
    ensures device { ReadsReportingFaults D.BlockDevice dev.old dev.new result }
    ensures reads { read_count (D.history dev.new) ≤ read_count (D.history dev.old) + 1 }
{
    let versions = dev.geometry().profile.versions;
    let other = Violation::OtherSuperblock { pair: pair.blocks };
    let block = match read_block(alloc, dev, pair.active) {
        Ok(block) => block,
        Err(error) => return Err(MountError::of(error, other)),
    };
    match block_repeats_superblock(alloc, versions, &block, bytes) {
        Ok(repeats) => Ok(repeats),
        Err(error) => Err(MountError::of(error, other)),
    }
}

// Returns whether a pair has at most one slot, and a hard tail.
fn can_chain_continue(pair: &Pair) -> bool
    ensures { result ≡ may_superblock_chain_continue pair.now }
{
    (pair.slot_count == 0 || pair.slot_count == 1) && has_hard_tail(pair.tail)
}

// Returns the index of the first pair that has a slot. Returns None if no pair has a slot, or if an
// earlier pair has no hard tail.
fn first_nonempty_pair(pairs: &[Pair]) -> Option<usize>
    ensures first { result ≡ first_filled pairs.now }
    ensures below { IfSome result (λ index. index < length pairs.now) }
{
    for index in 0..pairs.len() {
        if pairs[index].slot_count != 0 {
            return Some(index);
        }
        if !has_hard_tail(pairs[index].tail) {
            return None;
        }
    }
    None
}

// Returns the number of pairs before the root's first pair. These pairs are the superblock's chain
// without its last pair (SPEC.md of littlefs, "0x0ff LFS_TYPE_SUPERBLOCK").
//
// The log of the first pair that has a slot must begin with the superblock's entry. Slot 0 of that
// pair must have the superblock's name, and a struct with an accepted version and the device's
// geometry. The chain continues after a pair with a hard tail and at most one slot, the
// superblock's, if the next pair that has a slot begins with a superblock. The structs of all
// superblocks in the chain are equal except for their versions, which must be accepted ones. The
// root begins at the last superblock.
//
// Errors: `Corrupt` if the superblock chain is invalid, with the rule that the image breaks. `Io`
// if a read fails. `NoMemory` if memory for a block and its slots can't be allocated. Writes
// nothing. Makes at most one read for each pair in the chain, and one for the pair after the chain.
//
// Requires that `pairs` are the headers of all pairs of the device's thread, in the thread's order.
pub(crate) fn superblock_chain_length<D: BlockDevice>(
    alloc: Global,
    dev: &mut D,
    pairs: &[Pair],
) -> Result<usize, MountError>
    requires { AreThreadHeaders (disk_of_device D.BlockDevice dev.old) (D.history dev.old) pairs.now }
    ensures head { IfOk result (HasSuperblockChainLength (disk_of_device D.BlockDevice dev.old) (header_pairs (disk_of_device D.BlockDevice dev.old) pairs.now)) }
    ensures broken { (v : Violation) → result ≡ Err (MountError.Corrupt v) → (order : NameOrder) → PairsBreak (disk_with_order order (disk_of_device D.BlockDevice dev.old)) (header_pairs (disk_of_device D.BlockDevice dev.old) pairs.now) v }
    ensures device { ReadsReportingFaults D.BlockDevice dev.old dev.new result }
    ensures reads { IfOk result (λ count. read_count (D.history dev.new) ≤ read_count (D.history dev.old) + count + 2) }
{
    let Some(first) = first_nonempty_pair(pairs) else {
        return Err(MountError::Corrupt(Violation::NoSuperblock));
    };
    let bytes = read_superblock_struct(alloc, dev, &pairs[first])?;
    let mut root = first;
    for index in first + 1..pairs.len() {
        if !can_chain_continue(&pairs[index - 1]) {
            return Ok(root);
        }
        if pairs[index].slot_count == 0 {
            continue;
        }
        if !pair_repeats_superblock(alloc, dev, &pairs[index], &bytes)? {
            return Ok(root);
        }
        root = index;
    }
    Ok(root)
}
