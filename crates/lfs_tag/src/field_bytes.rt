// Encodes structs, tails and move states as little-endian 32-bit numbers.

ghost use Rattle.std.specs.Prelude.{◌≡◌, ◌^◌, ◌<◌, slice_index};
ghost use Rattle.std.specs.List.{flat_map};
ghost use Rattle.byteorder.specs.Endian.{little_bytes};
ghost use Rattle.lfs_model.specs.format.Slots.{Ctz, address_of_array};
ghost use Rattle.lfs_model.specs.format.EntryTypes.{decoded_address, decoded_gstate, superblock_fields, ctz_struct_type};
ghost use Rattle.lfs_model.specs.format.Content.{decoded_struct};
ghost use Rattle.lfs_model.specs.layers.WrittenContent.{address_bytes, bytes_of_move_state, superblock_fields_bytes};
ghost use Rattle.lfs_tag.specs.FieldsView.{superblock_view, move_view};

use crate::fields::{MoveState, Superblock};
use byteorder::{ByteOrder, LittleEndian};

/// Encodes a pair's address in the form that tails and directory structs store.
pub fn pair_bytes(pair: [u32; 2]) -> [u8; 8]
    ensures bytes { result ≡ address_bytes (address_of_array pair) }
    ensures read { decoded_address result ≡ address_of_array pair }
{
    let mut bytes = [0; 8];
    LittleEndian::write_u32_into(&pair, &mut bytes);
    bytes
}

/// Encodes a file's CTZ struct (SPEC.md of littlefs, "0x202 LFS_TYPE_CTZSTRUCT"). `head` is the
/// address of the CTZ skip-list's last block, and `size` is the file's size in bytes.
pub fn ctz_bytes(head: u32, size: u32) -> [u8; 8]
    ensures bytes { result ≡ address_bytes (head, size) }
    ensures read { decoded_struct ctz_struct_type result ≡ Ctz head size }
{
    pair_bytes([head, size])
}

/// Encodes the superblock's struct (SPEC.md of littlefs, "0x0ff LFS_TYPE_SUPERBLOCK").
pub fn superblock_bytes(superblock: &Superblock) -> [u8; 24]
    ensures bytes { result ≡ superblock_fields_bytes (superblock_view superblock.now) }
    ensures read { superblock_fields result ≡ superblock_view superblock.now }
{
    six_word_bytes([
        superblock.version,
        superblock.block_size,
        superblock.block_count,
        superblock.name_max,
        superblock.file_max,
        superblock.attr_max,
    ])
}

// Encodes the superblock's six numbers in order.
fn six_word_bytes(words: [u32; 6]) -> [u8; 24]
    ensures bytes { result ≡ flat_map (little_bytes 4) words }
    ensures read { superblock_fields result ≡ record {
      version = slice_index words 0;
      block_size = slice_index words 1;
      block_count = slice_index words 2;
      name_max = slice_index words 3;
      file_max = slice_index words 4;
      attr_max = slice_index words 5;
    } }
{
    let mut bytes = [0; 24];
    LittleEndian::write_u32_into(&words, &mut bytes);
    bytes
}

/// Encodes a move state. The lowest ten bits of the first word have no meaning and are set to 0.
/// Requires a type below 2,048 and an id below 1,024.
pub fn move_state_bytes(state: &MoveState) -> [u8; 12]
    requires kind { state.now.kind < 2 ^ 11 }
    requires id { state.now.id < 2 ^ 10 }
    ensures bytes { result ≡ bytes_of_move_state (move_view state.now) }
    ensures read { decoded_gstate result ≡ move_view state.now }
{
    let word = u32::from(state.sync) * 0x8000_0000
        + u32::from(state.kind) * 0x10_0000
        + u32::from(state.id) * 0x400;
    let mut bytes = [0; 12];
    LittleEndian::write_u32(&mut bytes, word);
    LittleEndian::write_u32(&mut bytes[4..], state.pair[0]);
    LittleEndian::write_u32(&mut bytes[8..], state.pair[1]);
    bytes
}
