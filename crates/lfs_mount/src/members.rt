// Descriptions of the directories' pairs, made from the pairs' headers alone.

ghost use Rattle.std.specs.Prelude.{◌≡◌, IfErr, IfOk, nat_eq, true};
ghost use Rattle.std.specs.List.{IsDistinct};
ghost use Rattle.lfs_model.specs.format.Slots.{address_of_array};
ghost use Rattle.lfs_tag.specs.FieldsView.{move_view};
ghost use Rattle.lfs_thread.specs.PairPlaces.{blocks_of_addresses};
ghost use Rattle.lfs_mount.specs.Members.{directory_start_addresses_of, description_of_header, header_descriptions, moved_id_at};

use crate::pass::DirectoryPairHeader;
use lfs_device::Error;
use lfs_pair::{Pair, is_same_pair};
use lfs_tag::kinds::DELETE;
use lfs_tag::{MoveState, has_hard_tail};
use lfs_thread::PairAddressList;
use std::alloc::Global;

// Returns the id of the slot to which a pending move refers, if that slot is in the pair at address
// `at`.
fn moved_slot_at(state: &MoveState, at: [u32; 2]) -> Option<u32>
    ensures { result ≡ moved_id_at (move_view state.now) (address_of_array at) }
{
    if state.kind == DELETE && is_same_pair(state.pair, at) {
        Some(u32::from(state.id))
    } else {
        None
    }
}

fn to_pair_description(state: &MoveState, is_first: bool, pair: &Pair) -> DirectoryPairHeader
    ensures { result ≡ description_of_header (move_view state.now) is_first pair.now }
{
    DirectoryPairHeader {
        at: pair.blocks,
        active: pair.active,
        is_hard: has_hard_tail(pair.tail),
        has_superblock: is_first,
        moved: moved_slot_at(state, pair.blocks),
    }
}

// Describes each pair by its header. The first of the pairs is the root's first pair.
pub(crate) fn describe_headers(
    alloc: Global,
    state: &MoveState,
    pairs: &[Pair],
) -> Result<Vec<DirectoryPairHeader>, Error>
    ensures members { IfOk result (λ members. members.items ≡ header_descriptions (move_view state.now) true pairs.now) }
    ensures error { IfErr result (λ e. e ≡ Error.NoMemory) }
{
    let mut members = Vec::new(alloc);
    for pair in pairs {
        let is_first = members.is_empty();
        members.push(to_pair_description(state, is_first, pair))?;
    }
    Ok(members)
}

// Returns the address of each directory's first pair. The first of the pairs is the root's first
// pair.
pub(crate) fn directory_start_addresses(
    alloc: Global,
    pairs: &[Pair],
) -> Result<PairAddressList, Error>
    requires { IsDistinct nat_eq (blocks_of_addresses (directory_start_addresses_of true pairs.now)) }
    ensures places { IfOk result (λ places. places ≡ directory_start_addresses_of true pairs.now) }
    ensures error { IfErr result (λ e. e ≡ Error.NoMemory) }
{
    let mut places = PairAddressList::new(alloc);
    let mut begins = true;
    for pair in pairs {
        if begins {
            places.add(pair.blocks)?;
        }
        begins = !has_hard_tail(pair.tail);
    }
    Ok(places)
}
