// A search for a rule that keeps an image from being written: a rule of the writing profile
// (docs/GLOSSARY.md) that the image breaks.

ghost use Rattle.std.specs.Prelude.{List, ◌≡◌, ◌↔◌, ◌<◌, ◌⊎◌, IsTrue, All, IfOk, IfErr, IfSome, MatchOption, None, Some, false, length, map, true};
ghost use Rattle.lfs_model.specs.format.Content.{decoded_slot, decoded_slots, decoded_struct};
ghost use Rattle.lfs_model.specs.format.EntryTypes.{superblock_fields};
ghost use Rattle.lfs_model.specs.format.Disk.{inline_limit};
ghost use Rattle.lfs_model.specs.format.Slots.{PairContent as ModelContent, Inline, Slot as ModelSlot, is_superblock, address_of_array};
ghost use Rattle.lfs_model.specs.format.Thread.{count_before_root};
ghost use Rattle.lfs_model.specs.tree.Profile.{InlineBytesFit};
ghost use Rattle.lfs_model.specs.layers.ProfileBreaches.{IsBreachIfAny, IsDifferingLimit};
ghost use Rattle.lfs_model.specs.tree.View.{IsAccepted};
ghost use Rattle.lfs_model.specs.layers.WrittenContent.{RawContentFitsInPair};
ghost use Rattle.lfs_model.specs.declared.breaches.ProfileBreach.TheVariants.{EmptyPair, TooLarge};
ghost use Rattle.lfs_tag.specs.ContentView.{attribute_view, content_view, slot_view};
ghost use Rattle.lfs_tag.specs.FieldsView.{superblock_view};
ghost use Rattle.lfs_thread.specs.CachedLog.{IsContentLog};
ghost use Rattle.lfs_thread.specs.ThreadSteps.{thread_pair};
ghost use Rattle.lfs_lookup.specs.ProfileChecks.{IsSlotsBreachIfAny, EntryFitsHalfPair, IsPairBreachIfAny, IsSlotBreachIfAny, HasProfileLimits, HasSuperblockStruct, follows_hard_tail_at};
ghost use Rattle.lfs_lookup.specs.LookupReading.{ReadsOrReports};

use lfs_device::{BlockDevice, Error, Geometry};
use lfs_model::{OtherLimit, ProfileBreach};
use lfs_pair::{attributes_size, content_fits};
use lfs_tag::kinds::INLINE_STRUCT;
use lfs_tag::{Attribute, Content, Log, NameOrStruct, Slot, Superblock, superblock_of};
use lfs_thread::Thread;
use std::alloc::Global;

// The position of a slot: its pair's address, and its index in the pair.
#[derive(Clone, Copy)]
struct SlotPlace {
    pair: [u32; 2],
    slot: usize,
}

// ---- the choice of the breach that is reported

// Returns the rank of a breach's rule. The breach with the lowest rank is reported.
fn breach_rank(breach: ProfileBreach) -> u32 {
    match breach {
        ProfileBreach::OtherLimits { .. } => 0,
        ProfileBreach::LongInline { .. } => 1,
        ProfileBreach::EmptyPair { .. } => 2,
        ProfileBreach::TooLarge { .. } => 3,
    }
}

// Returns the breach whose rule has the lower rank, or `first` if the ranks are equal.
fn breach_to_report(
    first: Option<ProfileBreach>,
    next: Option<ProfileBreach>,
) -> Option<ProfileBreach>
    ensures none { result ≡ None → (first ≡ None) × (next ≡ None) }
    ensures either { (result ≡ first) ⊎ (result ≡ next) }
{
    match (first, next) {
        (Some(one), Some(other)) if breach_rank(one) <= breach_rank(other) => first,
        (Some(_), None) => first,
        _ => next,
    }
}

// ---- slots

// Returns the first limit of a superblock that differs from the profile's limit.
fn other_limit(geometry: &Geometry, fields: &Superblock) -> Option<OtherLimit>
    ensures found { IfSome result (IsDifferingLimit geometry.now.profile (superblock_view fields.now)) }
    ensures none { result ≡ None → HasProfileLimits geometry.now.profile (superblock_view fields.now) }
{
    if fields.name_max != geometry.name_max() {
        return Some(OtherLimit::Name(fields.name_max));
    }
    if fields.file_max != geometry.file_max() {
        return Some(OtherLimit::File(fields.file_max));
    }
    if fields.attr_max != geometry.attr_max() {
        return Some(OtherLimit::Attr(fields.attr_max));
    }
    None
}

// Returns the first limit in a superblock's struct that differs from the profile's limit.
fn struct_differing_limit(geometry: &Geometry, structure: &NameOrStruct<'_>) -> Option<OtherLimit>
    requires { length structure.now.bytes.now ≡ 24 }
    ensures found { IfSome result (IsDifferingLimit geometry.now.profile (superblock_fields structure.now.bytes.now)) }
    ensures none { result ≡ None → HasProfileLimits geometry.now.profile (superblock_fields structure.now.bytes.now) }
{
    match <&[u8; 24]>::try_from(structure.bytes) {
        Ok(bytes) => other_limit(geometry, &superblock_of(bytes)),
        Err(_) => None,
    }
}

// Returns the rule of the writing profile that a superblock's slot breaks, if any.
fn breach_of_superblock(
    geometry: &Geometry,
    place: SlotPlace,
    structure: &NameOrStruct<'_>,
) -> Option<ProfileBreach>
    requires { length structure.now.bytes.now ≡ 24 }
    ensures { (s : ModelSlot) → is_superblock s ≡ true → s.struct ≡ Inline structure.now.bytes.now → IsSlotBreachIfAny geometry.now.profile geometry.now.block_size geometry.now.page (address_of_array place.pair) place.slot s result }
{
    let SlotPlace { pair, slot } = place;
    match struct_differing_limit(geometry, structure) {
        Some(limit) => Some(ProfileBreach::OtherLimits { pair, slot, limit }),
        None => None,
    }
}

// Returns whether a struct's inline bytes are within the inline limit.
fn inline_fits(geometry: &Geometry, structure: &NameOrStruct<'_>) -> bool
    ensures { IsTrue result ↔ InlineBytesFit (inline_limit geometry.now.profile geometry.now.block_size) (decoded_struct structure.now.kind structure.now.bytes.now) }
{
    structure.kind != INLINE_STRUCT || structure.bytes.len() <= geometry.inline_limit() as usize
}

// Returns whether an entry uses at most half of a pair, even with the longest inline contents that
// it may ever have.
fn fits_half_pair(
    geometry: &Geometry,
    name: &NameOrStruct<'_>,
    attributes: &[Attribute<'_>],
) -> bool
    ensures { (s : ModelSlot) → s.name ≡ name.now.bytes.now → s.attributes ≡ map attribute_view attributes.now → IsTrue result ↔ EntryFitsHalfPair geometry.now.profile geometry.now.block_size geometry.now.page s }
{
    let charge = attributes_size(attributes)
        .saturating_add(name.bytes.len() as u64)
        .saturating_add(u64::from(geometry.struct_limit()) + 8);
    charge <= u64::from(geometry.entry_size_limit())
}

// Returns the rule of the writing profile that an entry breaks, if any.
fn breach_of_entry(
    geometry: &Geometry,
    place: SlotPlace,
    name: &NameOrStruct<'_>,
    structure: &NameOrStruct<'_>,
    attributes: &[Attribute<'_>],
) -> Option<ProfileBreach>
    ensures { (s : ModelSlot) → is_superblock s ≡ false → s.name ≡ name.now.bytes.now → s.struct ≡ decoded_struct structure.now.kind structure.now.bytes.now → s.attributes ≡ map attribute_view attributes.now
        → IsSlotBreachIfAny geometry.now.profile geometry.now.block_size geometry.now.page (address_of_array place.pair) place.slot s result }
{
    let SlotPlace { pair, slot } = place;
    if !inline_fits(geometry, structure) {
        return Some(ProfileBreach::LongInline { pair, slot });
    }
    if !fits_half_pair(geometry, name, attributes) {
        return Some(ProfileBreach::TooLarge { pair });
    }
    None
}

// Returns the rule of the writing profile that a slot breaks, if any.
fn breach_of_slot(geometry: &Geometry, place: SlotPlace, slot: &Slot<'_>) -> Option<ProfileBreach>
    requires { (s : ModelSlot) × ((decoded_slot (slot_view slot.now) ≡ Some s) × HasSuperblockStruct s) }
    ensures { (s : ModelSlot) → decoded_slot (slot_view slot.now) ≡ Some s → HasSuperblockStruct s → IsSlotBreachIfAny geometry.now.profile geometry.now.block_size geometry.now.page (address_of_array place.pair) place.slot s result }
{
    let (Some(name), Some(structure)) = (slot.name, slot.structure) else {
        return None;
    };
    if slot.is_superblock() {
        return breach_of_superblock(geometry, place, &structure);
    }
    breach_of_entry(geometry, place, &name, &structure, &slot.attributes)
}

// Returns a rule of the writing profile that the slots of the pair at address `pair` break, if any.
fn breach_of_slots(geometry: &Geometry, pair: [u32; 2], slots: &[Slot<'_>]) -> Option<ProfileBreach>
    requires { (all : List ModelSlot) × ((decoded_slots (map slot_view slots.now) ≡ Some all) × All HasSuperblockStruct all) }
    ensures { (all : List ModelSlot) → decoded_slots (map slot_view slots.now) ≡ Some all → All HasSuperblockStruct all → IsSlotsBreachIfAny geometry.now.profile geometry.now.block_size geometry.now.page (address_of_array pair) all result }
{
    let mut found = None;
    for (id, slot) in slots.iter().enumerate() {
        let place = SlotPlace { pair, slot: id };
        found = breach_to_report(found, breach_of_slot(geometry, place, slot));
    }
    found
}

// ---- pairs

// Returns a breach if a pair that follows a hard tail has no slot.
fn empty_pair_breach(pair: [u32; 2], follows: bool, slots: &[Slot<'_>]) -> Option<ProfileBreach>
    ensures { MatchOption result (follows ≡ true → ¬ (length slots.now ≡ 0)) (λ b. (b ≡ EmptyPair pair) × (follows ≡ true) × (length slots.now ≡ 0)) }
{
    if follows && slots.is_empty() {
        Some(ProfileBreach::EmptyPair { pair })
    } else {
        None
    }
}

// Returns a breach if a pair's content is too large.
fn oversized_pair_breach(
    geometry: &Geometry,
    pair: [u32; 2],
    content: &Content<'_>,
) -> Option<ProfileBreach>
    ensures { MatchOption result (RawContentFitsInPair geometry.now.block_size geometry.now.page (content_view content.now)) (λ b. (b ≡ TooLarge pair) × ¬ RawContentFitsInPair geometry.now.block_size geometry.now.page (content_view content.now)) }
{
    if content_fits(content, *geometry) {
        None
    } else {
        Some(ProfileBreach::TooLarge { pair })
    }
}

// Returns a rule of the writing profile that a pair with the given log breaks, if any. `follows` is
// true if a hard tail points to the pair, which must then have a slot.
fn breach_of_log(
    alloc: Global,
    geometry: &Geometry,
    pair: [u32; 2],
    log: &Log<'_>,
    follows: bool,
) -> Result<Option<ProfileBreach>, Error>
    requires { (content : ModelContent) × (IsContentLog log.now content × All HasSuperblockStruct content.slots) }
    ensures is { (content : ModelContent) → IsContentLog log.now content → All HasSuperblockStruct content.slots → IfOk result (IsPairBreachIfAny geometry.now.profile geometry.now.block_size geometry.now.page follows (record { at = address_of_array pair; content = content })) }
    ensures errors { IfErr result (λ e. e ≡ Error.NoMemory) }
{
    let content = Content::read(alloc, log)?;
    let of_slots = breach_of_slots(geometry, pair, &content.slots);
    let empty = empty_pair_breach(pair, follows, &content.slots);
    let large = oversized_pair_breach(geometry, pair, &content);
    Ok(breach_to_report(breach_to_report(of_slots, empty), large))
}

// Returns a rule of the writing profile that the pair at an index breaks, if any.
fn breach_of_pair<D: BlockDevice>(
    alloc: Global,
    thread: &mut Thread<D>,
    geometry: &Geometry,
    index: usize,
    follows: bool,
) -> Result<Option<ProfileBreach>, Error>
    requires works { thread.old.failed ≡ false }
    requires below { index < length thread.old.kept.pairs }
    requires shaped { All HasSuperblockStruct (thread_pair thread.old.kept index).content.slots }
    ensures is { IfOk result (IsPairBreachIfAny geometry.now.profile geometry.now.block_size geometry.now.page follows (thread_pair thread.old.kept index)) }
    ensures reading { ReadsOrReports thread.old thread.new result }
{
    thread.load_pair(index)?;
    let pair = thread.blocks_of_pair(index);
    breach_of_log(alloc, geometry, pair, &thread.lend(index).unwrap(), follows)
}

// ---- the image

/// Returns whether a pair continues the directory of the previous pair. Returns false for each pair
/// up to the root's first one, whose index is `root`.
pub fn follows_hard_tail<D: BlockDevice>(thread: &Thread<D>, root: usize, index: usize) -> bool
    requires works { thread.now.failed ≡ false }
    requires below { index < length thread.now.kept.pairs }
    ensures { result ≡ follows_hard_tail_at root thread.now.kept.pairs index }
{
    index > root && thread.next(index - 1).is_some()
}

/// Returns a rule of the writing profile that an image breaks, and where the image breaks it.
/// Returns None if and only if the image may be written.
///
/// The rules are these. Each pair has at most a thousand slots, which fit into the pair after a
/// compaction. Each superblock has the limits of the device's profile. Each entry uses at most half
/// of a pair, even with the longest inline contents that the entry may ever have. Inline contents
/// are within the device's inline limit. Only the first pair of a directory may have no slots.
///
/// If the image breaks several rules, reports the rule that comes first in this order: other
/// limits, long inline contents, an empty pair, too much content. Reports the first place in the
/// image where this rule is broken. `root` is the index of the root directory's first pair.
///
/// Errors: `Io` if a read fails. `NoMemory` if memory for a block and its slots can't be allocated.
pub fn find_profile_breach<D: BlockDevice>(
    alloc: Global,
    thread: &mut Thread<D>,
    root: usize,
) -> Result<Option<ProfileBreach>, Error>
    requires works { thread.old.failed ≡ false }
    requires accepted { IsAccepted thread.old.kept.disk thread.old.kept.pairs }
    requires root { root ≡ count_before_root thread.old.kept.pairs }
    ensures is { IfOk result (IsBreachIfAny thread.old.kept.disk thread.old.kept.pairs) }
    ensures reading { ReadsOrReports thread.old thread.new result }
{
    let geometry = thread.geometry();
    let mut found = None;
    for index in 0..thread.len() {
        let follows = follows_hard_tail(thread, root, index);
        let next = breach_of_pair(alloc, thread, &geometry, index, follows)?;
        found = breach_to_report(found, next);
        if let Some(ProfileBreach::OtherLimits { .. }) = found {
            return Ok(found);
        }
    }
    Ok(found)
}
