// The slots of all metadata pairs in the tail list, for the lines that refer to them.

use crate::number_text::PairText;
use lfs_device::{BlockDevice, Error, Geometry, RamDevice, read_block};
use lfs_lookup::{OwnedStruct, push_escaped_path};
use lfs_model::NameOrder;
use lfs_pair::is_same_pair;
use lfs_tag::kinds::DELETE;
use lfs_tag::{
    Content, Log, MoveState, Slot, SlotNameKind, Struct, has_hard_tail, is_later_than, name_cmp,
};
use lfs_thread::gstate_xor_delta;
use std::alloc::{AllocError, Global};
use std::fmt;

// Returns a name, escaped as in a listing.
pub(crate) fn escaped_name(alloc: Global, name: &[u8]) -> Result<String, AllocError> {
    let mut text = Vec::new(alloc);
    push_escaped_path(&mut text, name)?;
    String::from_utf8_lossy(alloc, &text)
}

// Returns the active block of a pair, or None if neither block has a valid commit or one of the
// blocks is out of range.
pub(crate) fn current_block(
    alloc: Global,
    device: &mut RamDevice,
    pair: [u32; 2],
) -> Result<Option<Vec<u8>>, Error> {
    let [first, second] = pair;
    let count = device.geometry().block_count;
    if first >= count || second >= count {
        return Ok(None);
    }
    let first = read_block(alloc, device, first)?;
    let second = read_block(alloc, device, second)?;
    let (one, two) = (Log::read(&first), Log::read(&second));
    let is_later = is_later_than(one.revision(), two.revision());
    match (one.has_commit(), two.has_commit()) {
        (false, false) => Ok(None),
        (true, holds) if !holds || !is_later => Ok(Some(first)),
        _ => Ok(Some(second)),
    }
}

// A slot that has a name and a struct.
#[derive(Drop)]
pub(crate) struct ScannedSlot {
    // The address of the slot's pair, as the tail list states it, and the slot's number in the
    // pair.
    pub pair: [u32; 2],
    pub number: usize,
    // The address of the first pair of the slot's directory.
    pub directory: [u32; 2],
    pub kind: SlotNameKind,
    pub name: Vec<u8>,
    // The name, escaped as in a listing.
    pub shown: String,
    pub structure: OwnedStruct,
}

impl fmt::Display for ScannedSlot {
    fn fmt<W: fmt::Write>(&self, f: &mut fmt::Formatter<W>) -> fmt::Result {
        let (pair, shown) = (PairText(self.pair), self.shown.as_str());
        write!(f, "{pair}, slot {}: \"{shown}\"", self.number)
    }
}

impl ScannedSlot {
    // Returns the address of the directory that the slot points to, or None if the slot is a
    // file's.
    pub(crate) fn branch(&self) -> Option<[u32; 2]> {
        match self.structure {
            OwnedStruct::Branch(to) => Some(to),
            _ => None,
        }
    }
}

#[derive(Clone, Copy, Drop)]
pub(crate) struct NeighboringNames<'a> {
    before: &'a ScannedSlot,
    slot: &'a ScannedSlot,
}

impl fmt::Display for NeighboringNames<'_> {
    fn fmt<W: fmt::Write>(&self, f: &mut fmt::Formatter<W>) -> fmt::Result {
        let (slot, before) = (self.slot, self.before.shown.as_str());
        write!(f, "{slot} stands behind \"{before}\"")
    }
}

impl NeighboringNames<'_> {
    // Returns whether the two names are in ascending order, in the given order of names.
    pub(crate) fn are_names_ascending(&self, order: NameOrder) -> bool {
        name_cmp(order, &self.before.name, &self.slot.name).is_lt()
    }
}

#[derive(Drop)]
pub(crate) struct ScannedPairs {
    pub alloc: Global,
    pub geometry: Geometry,
    pub pairs: Vec<[u32; 2]>,
    // The addresses of the first pairs of all directories, with the root directory's first.
    pub directories: Vec<[u32; 2]>,
    pub slots: Vec<ScannedSlot>,
    pub state: MoveState,
}

impl ScannedPairs {
    // Reads the metadata pairs of a device in the order of the tail list, up to but not including
    // the pair `stop`, or up to the end.
    pub(crate) fn read(
        alloc: Global,
        device: &mut RamDevice,
        stop: Option<[u32; 2]>,
    ) -> Result<ScannedPairs, Error> {
        let mut thread = ScannedPairs {
            alloc,
            geometry: device.geometry(),
            pairs: Vec::new(alloc),
            directories: Vec::new(alloc),
            slots: Vec::new(alloc),
            state: MoveState::none(),
        };
        let mut next = Some([0, 1]);
        let mut is_chain = true;
        for _ in 0..device.geometry().block_count {
            let Some(at) = next else {
                break;
            };
            if next == stop {
                break;
            }
            let Some(block) = current_block(alloc, device, at)? else {
                break;
            };
            let content = Content::read(alloc, &Log::read(&block))?;
            is_chain = thread.push_pair(at, &content, is_chain)?;
            next = content.tail.map(|tail| tail.pair);
        }
        Ok(thread)
    }

    // Appends a pair, and returns whether the next pair may continue the superblock chain. The root
    // directory begins at the last superblock of that chain (SPEC.md of littlefs, "0x0ff
    // LFS_TYPE_SUPERBLOCK").
    fn push_pair(
        &mut self,
        pair: [u32; 2],
        content: &Content<'_>,
        is_chain: bool,
    ) -> Result<bool, AllocError> {
        let (is_superblock, is_short) = match content.slots.as_slice() {
            [] => (false, true),
            [only] => (only.is_superblock(), only.is_superblock()),
            [first, ..] => (first.is_superblock(), false),
        };
        if self.pairs.is_empty() || is_chain && is_superblock {
            self.directories.clear();
            self.directories.push(pair)?;
        }
        self.pairs.push(pair)?;
        self.push_slots(pair, &content.slots)?;
        self.state = gstate_xor_delta(&self.state, &content.move_state);
        match content.tail {
            Some(tail) if !tail.hard => self.directories.push(tail.pair)?,
            _ => {}
        }
        Ok(is_chain && is_short && has_hard_tail(content.tail))
    }

    // Appends the slots of a pair that have a name and a struct.
    fn push_slots(&mut self, pair: [u32; 2], slots: &[Slot<'_>]) -> Result<(), AllocError> {
        let alloc = self.alloc;
        let directory = self.directories.last().copied().unwrap_or(pair);
        for number in 0..slots.len() {
            let (Some(name), Some(part)) = (slots[number].name, slots[number].structure) else {
                continue;
            };
            let structure = match Struct::of(&part) {
                Some(Struct::Inline(bytes)) => OwnedStruct::Inline(Vec::from_slice(alloc, bytes)?),
                Some(Struct::Ctz { head, size }) => OwnedStruct::Ctz { head, size },
                Some(Struct::Branch(to)) => OwnedStruct::Branch(to),
                None => continue,
            };
            self.slots.push(ScannedSlot {
                pair,
                number,
                directory,
                kind: SlotNameKind::of(&name),
                name: Vec::from_slice(alloc, name.bytes)?,
                shown: escaped_name(alloc, name.bytes)?,
                structure,
            })?;
        }
        Ok(())
    }

    // Returns the slot with this number in a pair, or None if there is none.
    pub(crate) fn slot_at(&self, pair: [u32; 2], number: usize) -> Option<&ScannedSlot> {
        let mut slots = self.slots.iter();
        slots.find(|slot| slot.number == number && is_same_pair(slot.pair, pair))
    }

    // Returns whether a slot is an entry. A superblock's slot isn't one, and neither is the slot
    // that a pending move has copied.
    pub(crate) fn is_entry(&self, slot: &ScannedSlot) -> bool {
        let is_moved = self.state.kind == DELETE
            && is_same_pair(self.state.pair, slot.pair)
            && usize::from(self.state.id) == slot.number;
        !is_moved && !slot.kind.is_superblock()
    }

    pub(crate) fn is_entry_in(&self, slot: &ScannedSlot, directory: [u32; 2]) -> bool {
        is_same_pair(slot.directory, directory) && self.is_entry(slot)
    }

    pub(crate) fn has_directory(&self, at: [u32; 2]) -> bool {
        self.directories
            .iter()
            .any(|first| is_same_pair(*first, at))
    }

    // Returns the first two neighbouring entries of a directory that aren't in the given order of
    // names.
    pub(crate) fn misordered_names(
        &self,
        order: NameOrder,
        directory: [u32; 2],
    ) -> Option<NeighboringNames<'_>> {
        let mut last: Option<&ScannedSlot> = None;
        for slot in &self.slots {
            if !self.is_entry_in(slot, directory) {
                continue;
            }
            if let Some(before) = last {
                let two = NeighboringNames { before, slot };
                if !two.are_names_ascending(order) {
                    return Some(two);
                }
            }
            last = Some(slot);
        }
        None
    }

    // Returns the entries that point to an address, in directories that a path from the root
    // reaches.
    pub(crate) fn entries_pointing_to(
        &self,
        at: [u32; 2],
    ) -> Result<Vec<&ScannedSlot>, AllocError> {
        let mut leading = Vec::new(self.alloc);
        let mut reached: Vec<[u32; 2]> = Vec::new(self.alloc);
        reached.extend_from_slice(self.directories.get(..1).unwrap_or(&[]))?;
        for step in 0..self.directories.len() {
            let Some(directory) = reached.get(step).copied() else {
                break;
            };
            for slot in &self.slots {
                let Some(to) = slot.branch() else {
                    continue;
                };
                if !self.is_entry_in(slot, directory) {
                    continue;
                }
                if is_same_pair(to, at) {
                    leading.push(slot)?;
                }
                if self.has_directory(to) && !reached.iter().any(|one| is_same_pair(*one, to)) {
                    reached.push(to)?;
                }
            }
        }
        Ok(leading)
    }
}
