// The line that states which rule an image breaks, and where. The image is read again for this
// line.

ghost use Rattle.std.specs.Prelude.{◌≡◌, IfErr, IfOk};

use crate::ImageLayout;
use crate::number_text::{PairText, WrongFieldText};
use crate::scanned_pairs::{ScannedPairs, ScannedSlot, current_block, escaped_name};
use crate::superblocks::wrong_field_of;
use crate::verdict::{BrokenRule, CheckedSizes};
use lfs_device::{BlockDevice, Error, RamDevice};
use lfs_file::walk;
use lfs_lookup::OwnedStruct;
use lfs_model::{NameOrder, Violation};
use lfs_pair::is_same_pair;
use lfs_tag::{Content, ContentError, Log, SlotNameKind, superblock_of};
use std::alloc::{AllocError, Global};

// ---- rules of one pair

// Returns the line that says why a metadata pair has no valid contents.
fn invalid_pair_line(
    alloc: Global,
    device: &mut RamDevice,
    pair: [u32; 2],
) -> Result<String, Error> {
    let at = PairText(pair);
    let Some(block) = current_block(alloc, device, pair)? else {
        return Ok(format!(in alloc; "{at}: no commit with a right checksum")?);
    };
    let content = match Content::read(alloc, &Log::read(&block)) {
        Ok(content) => content,
        Err(ContentError::Malformed) => {
            return Ok(format!(in alloc; "{at}: its log has an entry that may not stand there")?);
        }
        Err(ContentError::NoMemory) => return Err(Error::NoMemory),
    };
    for number in 0..content.slots.len() {
        let slot = &content.slots[number];
        match (slot.name, slot.structure) {
            (None, _) => return Ok(format!(in alloc; "{at}, slot {number}: no name")?),
            (Some(name), None) => {
                let name = escaped_name(alloc, name.bytes)?;
                return Ok(format!(in alloc; "{at}, slot {number}: \"{name}\" has no struct")?);
            }
            _ => {}
        }
    }
    Ok(String::new(alloc))
}

fn no_superblock_line(alloc: Global) -> Result<String, AllocError> {
    format!(in alloc; "superblock: the root directory doesn't begin with one")
}

// ---- rules of the tail list

// Returns why a slot isn't a valid entry.
fn invalid_entry_reason(slot: &ScannedSlot) -> &'static str {
    match (slot.kind, &slot.structure) {
        (SlotNameKind::Superblock, _) => "is a second superblock",
        (SlotNameKind::File, OwnedStruct::Branch(_)) => "has another kind's struct",
        (SlotNameKind::Directory, OwnedStruct::Branch(_)) => "is no name",
        (SlotNameKind::Directory, _) => "has another kind's struct",
        (SlotNameKind::File, _) => "is no name",
    }
}

// Returns whether a block is in a file's CTZ skip-list. Returns false if the list is malformed.
fn has_list_block(
    device: &mut RamDevice,
    structure: &OwnedStruct,
    wanted: u32,
) -> Result<bool, Error> {
    let OwnedStruct::Ctz { head, size } = structure else {
        return Ok(false);
    };
    let mut met = false;
    let visit = &mut |block: u32| met = met || block == wanted;
    match walk(device, *head, *size, visit) {
        Ok(()) => Ok(met),
        Err(Error::Corrupt) => Ok(false),
        Err(error) => Err(error),
    }
}

impl ScannedPairs {
    // Returns the wrong number of the superblock in a slot, or None if it has none.
    fn wrong_number(&self, slot: &ScannedSlot) -> Option<WrongFieldText> {
        let OwnedStruct::Inline(bytes) = &slot.structure else {
            return None;
        };
        let fields = superblock_of(<&[u8; 24]>::try_from(bytes.as_slice()).ok()?);
        let (size, blocks) = (self.geometry.block_size, self.geometry.block_count as usize);
        let stated = wrong_field_of(size, blocks, self.geometry.profile.versions, &fields)?;
        let layout = ImageLayout::new(size, self.geometry.page);
        let given = CheckedSizes::of(size as usize * blocks, layout);
        Some(WrongFieldText { given, stated })
    }

    fn first_superblock_line(&self, pair: [u32; 2]) -> Result<String, AllocError> {
        let slot = match self.slot_at(pair, 0) {
            Some(slot) if slot.kind.is_superblock() => slot,
            _ => return no_superblock_line(self.alloc),
        };
        if slot.name.as_slice() != b"littlefs".as_slice() {
            return format!(in self.alloc; "{slot} isn't the name of a superblock");
        }
        let at = PairText(pair);
        match self.wrong_number(slot) {
            Some(number) => format!(in self.alloc; "{at}, {number}"),
            None => format!(in self.alloc; "{at}, slot 0: no superblock's struct"),
        }
    }

    // Returns the line for a superblock after the first: its wrong number, or that it differs from
    // the first one.
    fn other_superblock_line(&self, pair: [u32; 2]) -> Result<String, AllocError> {
        let at = PairText(pair);
        if let Some(slot) = self.slot_at(pair, 0) {
            if let Some(number) = self.wrong_number(slot) {
                return format!(in self.alloc; "{at}, {number}");
            }
        }
        let first = PairText(self.slots.first().map_or(pair, |slot| slot.pair));
        format!(in self.alloc; "{at}, superblock: another one than in {first}")
    }

    // Returns the line for two neighbouring names that are out of order. If no two names are out of
    // order in both orders, the line has two such pairs of names, one for each order. The second of
    // these may be in another directory, which the rule `other` states.
    fn misordered_names_line(
        &self,
        pair: [u32; 2],
        other: Violation,
    ) -> Result<String, AllocError> {
        let other = match other {
            Violation::Names { pair } => pair,
            _ => pair,
        };
        let one = self.misordered_names(NameOrder::LongerFirst, pair);
        let two = self.misordered_names(NameOrder::ShorterFirst, other);
        let (Some(one), Some(two)) = (one, two) else {
            return Ok(String::new(self.alloc));
        };
        if !one.are_names_ascending(NameOrder::ShorterFirst) {
            format!(in self.alloc; "{one}")
        } else if !two.are_names_ascending(NameOrder::LongerFirst) {
            format!(in self.alloc; "{two}")
        } else {
            format!(in self.alloc; "names in two orders: {one}, and {two}")
        }
    }

    // Returns the line for the first entry of a directory that points to a pair where no directory
    // begins.
    fn dangling_directory_line(&self, pair: [u32; 2]) -> Result<String, AllocError> {
        for slot in &self.slots {
            if let Some(to) = slot.branch() {
                if self.is_entry_in(slot, pair) && !self.has_directory(to) {
                    let to = PairText(to);
                    return format!(in self.alloc;
                        "{slot} leads to {to}, where no directory begins"
                    );
                }
            }
        }
        Ok(String::new(self.alloc))
    }

    // Returns the line for two entries that point to the same directory, or for one that points to
    // the root.
    fn directory_paths_line(&self, pair: [u32; 2]) -> Result<String, AllocError> {
        let root = self.directories.first().copied();
        let is_root = root.is_some_and(|root| is_same_pair(root, pair));
        match self.entries_pointing_to(pair)?.as_slice() {
            [one, ..] if is_root => format!(in self.alloc; "{one} leads to the root directory"),
            [one, other, ..] => {
                format!(in self.alloc; "{other} leads to the same directory as {one}")
            }
            _ => Ok(String::new(self.alloc)),
        }
    }

    fn pair_containing_block(&self, block: u32) -> Option<[u32; 2]> {
        self.pairs.iter().copied().find(|p| p.contains(&block))
    }

    // Returns the line for a block that an entry's file shares with a metadata pair or with another
    // file.
    fn shared_block_line(
        &self,
        device: &mut RamDevice,
        slot: &ScannedSlot,
        block: u32,
    ) -> Result<String, Error> {
        let alloc = self.alloc;
        if let Some(pair) = self.pair_containing_block(block) {
            let at = PairText(pair);
            return Ok(format!(in alloc; "block {block}: in {at} and in a file, {slot}")?);
        }
        for other in &self.slots {
            let is_slot = other.number == slot.number && other.pair == slot.pair;
            if !is_slot
                && self.is_entry(other)
                && has_list_block(device, &other.structure, block)?
            {
                return Ok(format!(in alloc; "block {block}: in two files, {other} and {slot}")?);
            }
        }
        Ok(String::new(alloc))
    }

    // Returns the line for a rule that refers to a slot.
    fn slot_violation_line(
        &self,
        device: &mut RamDevice,
        violation: Violation,
    ) -> Result<String, Error> {
        let (pair, number) = match violation {
            Violation::Entry { pair, slot }
            | Violation::List { pair, slot }
            | Violation::TwoOwners { pair, slot, .. } => (pair, slot),
            _ => return Ok(String::new(self.alloc)),
        };
        let Some(slot) = self.slot_at(pair, number as usize) else {
            return Ok(String::new(self.alloc));
        };
        let line = match violation {
            Violation::TwoOwners { block, .. } => self.shared_block_line(device, slot, block)?,
            Violation::List { .. } => {
                format!(in self.alloc; "{slot} has a list with a wrong size, block or pointer")?
            }
            _ => format!(in self.alloc; "{slot} {}", invalid_entry_reason(slot))?,
        };
        Ok(line)
    }
}

// Returns the line for a rule that needs all metadata pairs to be read again.
fn thread_violation_line(
    alloc: Global,
    device: &mut RamDevice,
    violation: Violation,
    other: Violation,
) -> Result<String, Error> {
    let stop = match violation {
        Violation::TwoPairs { pair, .. } => Some(pair),
        _ => None,
    };
    let thread = ScannedPairs::read(alloc, device, stop)?;
    let line = match violation {
        Violation::Superblock { pair } => thread.first_superblock_line(pair)?,
        Violation::OtherSuperblock { pair } => thread.other_superblock_line(pair)?,
        Violation::TwoPairs { pair, block } => {
            let [a, b] = thread.pair_containing_block(block).unwrap_or(pair);
            let [c, d] = pair;
            format!(in alloc; "block {block}: in two pairs, {a} {b} and {c} {d}")?
        }
        Violation::Names { pair } => thread.misordered_names_line(pair, other)?,
        Violation::Branch { pair } => thread.dangling_directory_line(pair)?,
        Violation::TwoPaths { pair } => thread.directory_paths_line(pair)?,
        Violation::Move if thread.state.kind == 0 => {
            format!(in alloc; "global state: no move is set, but it names a slot")?
        }
        Violation::Move => format!(in alloc; "global state: its move names no entry")?,
        _ => thread.slot_violation_line(device, violation)?,
    };
    Ok(line)
}

// ---- all rules

// Returns the line for a rule. In the other order of names, the image breaks the rule `other`.
fn broken_rule_text(
    alloc: Global,
    device: &mut RamDevice,
    violation: Violation,
    other: Violation,
) -> Result<String, Error> {
    let line = match violation {
        Violation::OutOfRange { pair } => {
            let [first, second] = pair;
            let count = device.geometry().block_count;
            let (at, block) = (PairText(pair), if first >= count { first } else { second });
            format!(in alloc; "{at}: block {block} isn't in the image")?
        }
        Violation::OneBlock { pair } => format!(in alloc; "{}: one block twice", PairText(pair))?,
        Violation::NoSuperblock => no_superblock_line(alloc)?,
        Violation::FirstEntry { pair } => format!(in alloc;
            "{}: its log doesn't begin with the superblock's name",
            PairText(pair)
        )?,
        Violation::NoPath { pair } => format!(in alloc;
            "{}: no path leads to its directory, and the sync bit is clear",
            PairText(pair)
        )?,
        Violation::NoContent { pair } => invalid_pair_line(alloc, device, pair)?,
        _ => thread_violation_line(alloc, device, violation, other)?,
    };
    Ok(line)
}

// Returns a rule that the image of a device breaks, with its line. In the other order of names, the
// image breaks the rule `other`.
pub(crate) fn broken_rule(
    alloc: Global,
    device: RamDevice,
    violation: Violation,
    other: Violation,
) -> Result<BrokenRule, Error>
    ensures rule { IfOk result (λ rule. rule.violation ≡ violation) }
    ensures err { IfErr result (λ e. e ≡ Error.NoMemory) }
{
    let mut device = device;
    match broken_rule_text(alloc, &mut device, violation, other) {
        Ok(line) => Ok(BrokenRule {
            violation,
            line: line.into_bytes(),
        }),
        // A device in memory never fails, and the same reads found the rule before, so memory ran
        // out.
        Err(_) => Err(Error::NoMemory),
    }
}
