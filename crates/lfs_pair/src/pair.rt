// The header of a metadata pair, which is kept in memory.

ghost use Rattle.std.specs.Prelude.{◌≡◌, is_some, map};
ghost use Rattle.lfs_model.specs.format.Content.{RawContent, decoded_slots};
ghost use Rattle.lfs_model.specs.format.Slots.{address_of_array, same_pair};
ghost use Rattle.lfs_tag.specs.ContentView.{content_view, slot_view};
ghost use Rattle.lfs_pair.specs.Pair.{IsContentHeader, IsHeaderWith, IsWrittenHeader, header_address, header_inactive_block};

use crate::programs::WrittenCommit;
use lfs_tag::{Content, MoveState, Slot, Tag, Tail};

// Returns whether each slot has a name and a struct.
pub(crate) fn are_slots_complete(slots: &[Slot<'_>]) -> bool
    ensures { result ≡ is_some (decoded_slots (map slot_view slots.now)) }
{
    for slot in slots {
        if slot.name.is_none() || slot.structure.is_none() {
            return false;
        }
    }
    true
}

/// Returns whether two addresses refer to the same pair. The two blocks of an address may be in
/// either order.
pub fn is_same_pair(a: [u32; 2], b: [u32; 2]) -> bool
    ensures { result ≡ same_pair (address_of_array a) (address_of_array b) }
{
    a[0] == b[0] && a[1] == b[1] || a[0] == b[1] && a[1] == b[0]
}

/// The header of a metadata pair, which is kept in memory without the pair's slots. A slot is the
/// name, the struct and the attributes of one id. The header contains all that is needed to append
/// a commit to the active block (SPEC.md of littlefs, "Metadata pairs").
#[derive(Clone, Copy, Debug, PartialEq, Eq, Drop)]
pub struct Pair {
    /// The addresses of the pair's two blocks, in the order in which the caller passed them.
    pub blocks: [u32; 2],
    /// The active block, whose log determines the pair's content.
    pub active: u32,
    /// The offset in bytes at which the last commit ends in the active block.
    pub end: usize,
    /// The tag that the next tag in the active block's log is XORed with.
    pub last: Tag,
    /// The revision count of the active block.
    pub revision: u32,
    /// The number of slots in the pair.
    pub slot_count: usize,
    /// The pair's tail, which refers to the next pair in the linked list of all pairs. The last
    /// pair in the list has no tail.
    pub tail: Option<Tail>,
    /// The pair's delta of the global state.
    pub move_state: MoveState,
    /// Whether each slot of the pair has a name and a struct.
    pub is_complete: bool,
    /// Whether the pair hasn't been written since it was fetched. After a fetch, it isn't known
    /// which bytes after the log are unprogrammed (erased, and not programmed since).
    pub is_fetched: bool,
}

impl Pair {
    /// Returns the address of the pair's inactive block.
    pub fn inactive_block(&self) -> u32
        ensures { result ≡ header_inactive_block self.now }
    {
        if self.active == self.blocks[0] {
            self.blocks[1]
        } else {
            self.blocks[0]
        }
    }

    // Returns the header with the slot count, tail and delta of `content`.
    pub(crate) fn with_content(&self, content: &Content<'_>) -> Pair
        ensures { IsHeaderWith (content_view content.now) self.now result }
    {
        Pair {
            slot_count: content.slots.len(),
            tail: content.tail,
            move_state: content.move_state,
            is_complete: are_slots_complete(&content.slots),
            ..*self
        }
    }

    // Returns the header after a commit was written to the active block.
    pub(crate) fn with_end(self, written: WrittenCommit) -> Pair
        ensures { (c : RawContent) → IsContentHeader c self → IsWrittenHeader (header_address self) self.active self.revision written.end written.last c result }
    {
        Pair {
            end: written.end,
            last: written.last,
            is_fetched: false,
            ..self
        }
    }

    // Makes the header of a pair whose active block has just been written.
    pub(crate) fn written(
        blocks: [u32; 2],
        active: u32,
        revision: u32,
        written: WrittenCommit,
        content: &Content<'_>,
    ) -> Pair
        ensures { IsWrittenHeader (address_of_array blocks) active revision written.end written.last (content_view content.now) result }
    {
        Pair {
            blocks,
            active,
            end: written.end,
            last: written.last,
            revision,
            slot_count: content.slots.len(),
            tail: content.tail,
            move_state: content.move_state,
            is_complete: are_slots_complete(&content.slots),
            is_fetched: false,
        }
    }
}
