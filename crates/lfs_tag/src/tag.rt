// The tags of a log's entries.

ghost use Rattle.std.specs.Prelude.{◌≡◌, ◌<◌, ◌^◌, ◌%◌, ◌↔◌, IsTrue, bit_xor};
ghost use Rattle.lfs_model.specs.format.Tag.{IsValidTag, tag_type, tag_id, tag_length, tag_class, tag_chunk, tag_data_size, is_commit_end, make_tag, tag_for_next_xor};
ghost use Rattle.lfs_model.specs.format.EntryTypes.{is_attribute_removal};

use crate::kinds::{CHECKSUM_CLASS, FORWARD_CHECKSUM};
use std::marker::Model;

/// A 32-bit tag (SPEC.md of littlefs, "Metadata tags"). From the top, the fields of a tag are a bit
/// that is 0 in a valid tag, an 11-bit type, a 10-bit id and a 10-bit length.
#[derive(Clone, Copy, Debug, PartialEq, Eq, Drop)]
pub struct Tag {
    bits: u32,
}

impl Model for Tag {
    ghost use Rattle.std.specs.Prelude.{ℕ};

    ghost Value = { ℕ };

    ghost view = { λ t. t.bits };

    ghost inverse = { λ n. record { bits = n } };
}

impl Tag {
    /// The id of a tag that doesn't refer to a slot.
    pub const NO_ID: u16 = 0x3ff;

    /// The length field of a tag that removes an attribute. No data follows a tag whose length is
    /// 0x3ff.
    pub const REMOVED: u16 = 0x3ff;

    /// Makes a tag from its 32 bits.
    pub fn from_bits(bits: u32) -> Tag
        ensures { result ≡ bits }
    {
        Tag { bits }
    }

    /// Returns the tag's bits.
    pub fn bits(self) -> u32
        ensures { result ≡ self }
    {
        self.bits
    }

    /// Makes a valid tag. Requires a type below 2,048, and an id and a length below 1,024.
    pub fn new(kind: u16, id: u16, len: u16) -> Tag
        requires kind { kind < 2 ^ 11 }
        requires id { id < 2 ^ 10 }
        requires len { len < 2 ^ 10 }
        ensures bits { result ≡ make_tag kind id len }
        ensures kind { tag_type result ≡ kind }
        ensures id { tag_id result ≡ id }
        ensures len { tag_length result ≡ len }
        ensures valid { IsValidTag result }
    {
        Tag {
            bits: u32::from(kind) * 0x10_0000 + u32::from(id) * 0x400 + u32::from(len),
        }
    }

    /// Decodes a stored tag by XORing it with the tag before it. For a block's first tag,
    /// `previous` has all bits set.
    pub fn decode(stored: u32, previous: Tag) -> Tag
        ensures { result ≡ bit_xor stored previous }
    {
        Tag {
            bits: stored ^ previous.bits,
        }
    }

    /// Returns the tag in its stored form, which is its XOR with the tag before it.
    pub fn encode(self, previous: Tag) -> u32
        ensures stored { result ≡ bit_xor self previous }
        ensures again { bit_xor result previous ≡ self }
    {
        self.bits ^ previous.bits
    }

    /// Returns whether the tag is valid, which means that its top bit is 0.
    pub fn is_valid(self) -> bool
        ensures { IsTrue result ↔ IsValidTag self }
    {
        self.bits >> 31 == 0
    }

    /// Returns the 11-bit type: one of [`crate::kinds`], or 0x300 plus a user attribute's 8-bit
    /// type.
    pub fn kind(self) -> u16
        ensures { result ≡ tag_type self }
    {
        (self.bits >> 20 & 0x7ff) as u16
    }

    /// Returns the 10-bit id of the slot, or 0x3ff if the tag doesn't refer to a slot.
    pub fn id(self) -> u16
        ensures { result ≡ tag_id self }
    {
        (self.bits >> 10 & 0x3ff) as u16
    }

    /// Returns the 10-bit length field.
    pub fn len(self) -> u16
        ensures { result ≡ tag_length self }
    {
        (self.bits & 0x3ff) as u16
    }

    /// Returns the class, which is the upper three bits of the type.
    pub fn class(self) -> u16
        ensures { result ≡ tag_class self }
    {
        self.kind() >> 8
    }

    /// Returns the chunk, which is the lower eight bits of the type. A user attribute's chunk is
    /// the attribute's own type.
    pub fn chunk(self) -> u8
        ensures { result ≡ tag_chunk self }
    {
        (self.kind() & 0xff) as u8
    }

    /// Returns whether the length field is 0x3ff, which removes an attribute.
    pub fn has_removal_length(self) -> bool
        ensures { result ≡ is_attribute_removal self }
    {
        self.len() == Tag::REMOVED
    }

    /// Returns the number of data bytes that follow the tag.
    pub fn size(self) -> usize
        ensures { result ≡ tag_data_size self }
    {
        if self.has_removal_length() {
            0
        } else {
            usize::from(self.len())
        }
    }

    // Returns whether the tag ends a commit or invalidates it. Every tag of class 5 ends or
    // invalidates a commit, except a forward checksum, which littlefs writes from version 2.1 on
    // and which has no effect here.
    pub(crate) fn ends_commit(self) -> bool
        ensures { result ≡ is_commit_end self }
    {
        self.class() == CHECKSUM_CLASS && !(self.kind() == FORWARD_CHECKSUM && self.len() <= 1022)
    }

    // Returns the tag that the next tag is XORed with. This is the tag itself, but a checksum's
    // lowest chunk bit flips the top bit. By the flipped bit, a commit can make the bytes after it
    // decode as an invalid tag.
    pub(crate) fn as_previous_tag(self) -> Tag
        ensures { result ≡ tag_for_next_xor self }
    {
        if self.ends_commit() {
            Tag {
                bits: self.bits ^ (u32::from(self.kind()) & 1) << 31,
            }
        } else {
            self
        }
    }

    // Returns the valid tag whose [`as_previous_tag`](Tag::as_previous_tag) is this tag.
    pub(crate) fn without_top_bit(self) -> Tag
        ensures { result ≡ self % 2 ^ 31 }
    {
        Tag {
            bits: self.bits & 0x7fff_ffff,
        }
    }
}
