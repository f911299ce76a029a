// An iterator over a log's entries, from both ends.

ghost use Rattle.std.specs.Prelude.{◌≡◌, ◌+◌, ◌%◌, ◌^◌, ◌≤◌, ◌<◌, List, length, drop, slice_range, bit_xor};
ghost use Rattle.byteorder.specs.Endian.{big_number};
ghost use Rattle.lfs_model.specs.format.Tag.{tag_data_size};
ghost use Rattle.std.specs.Iterator.{YieldsFirstBy, YieldsLastBy, item_count};
ghost use Rattle.lfs_model.specs.format.Log.{chain_of, block_entries};
ghost use Rattle.lfs_tag.specs.LogEntryView.{log_entry_view};

use crate::entry::Entry;
use crate::log::entry_at;
use crate::tag::Tag;
use byteorder::{BigEndian, ByteOrder};
use std::marker::Model;

/// A double-ended iterator over a log's entries, from the oldest to the newest.
#[derive(Drop)]
pub struct Entries<'a> {
    block: &'a [u8],
    at: usize,
    before: Tag,
    end: usize,
    last: Tag,
}

impl<'a> Model for Entries<'a> {
    ghost use Rattle.std.specs.Prelude.{List};
    ghost use Rattle.lfs_model.specs.format.Log.{LogEntry};

    ghost Value = { List LogEntry };

    ghost use Rattle.lfs_tag.specs.EntryWalk.{entries_left, AreIteratorEntries};

    ghost view = { entries_left };

    ghost invariant = { AreIteratorEntries };
}

impl<'a> Entries<'a> {
    // Returns the entries of a block whose valid commits end at offset `end`. The tag at that
    // offset is stored as its XOR with `last`.
    pub(crate) fn log_entries(block: &'a [u8], end: usize, last: Tag) -> Entries<'a>
        requires end { end ≡ (chain_of block.now).end }
        requires last { last ≡ (chain_of block.now).last }
        ensures value { result ≡ block_entries block.now }
        ensures small { length (block_entries block.now) < 2 ^ 62 }
    {
        Entries {
            block,
            at: 4,
            before: Tag::from_bits(0xffff_ffff),
            end,
            last,
        }
    }
}

impl<'a> Entries<'a> {
    // Returns a copy of the iterator for another walk over the same entries.
    pub(crate) fn copy_iterator(&self) -> Entries<'a>
        ensures { result ≡ self.now }
    {
        Entries {
            block: self.block,
            at: self.at,
            before: self.before,
            end: self.end,
            last: self.last,
        }
    }
}

impl<'a> Iterator for Entries<'a> {
    type Item = Entry<'a>;

    ghost next_gives = { YieldsFirstBy log_entry_view (λ s. s) };

    ghost remaining = { item_count (λ s. s) };

    fn next(&mut self) -> Option<Entry<'a>> {
        if self.end <= self.at {
            return None;
        }
        let Some(entry) = entry_at(self.block, self.at, self.before) else {
            return None;
        };
        self.at = self.at + 4 + entry.bytes.len();
        self.before = entry.tag.as_previous_tag();
        Some(entry)
    }
}

// Decodes the entry that ends at offset `end`. The tag at that offset is stored as its XOR with
// `last`. Returns the entry's offset, the tag that the entry's own tag is XORed with, and the
// entry.
fn entry_before(block: &[u8], end: usize, last: Tag) -> (usize, Tag, Entry<'_>)
    requires room { 4 + tag_data_size (last % 2 ^ 31) ≤ end }
    requires within { end ≤ length block.now }
    ensures start { result.0 + 4 + tag_data_size (last % 2 ^ 31) ≡ end }
    ensures before { result.1 ≡ bit_xor (big_number 4 (drop result.0 block.now)) (last % 2 ^ 31) }
    ensures tag { result.2.tag ≡ last % 2 ^ 31 }
    ensures bytes { result.2.bytes.now ≡ slice_range block.now (result.0 + 4) end }
{
    let tag = last.without_top_bit();
    let start = end - 4 - tag.size();
    let before = Tag::decode(BigEndian::read_u32(&block[start..]), tag);
    let bytes = &block[start + 4..end];
    (start, before, Entry { tag, bytes })
}

impl<'a> DoubleEndedIterator for Entries<'a> {
    ghost next_back_gives = { YieldsLastBy log_entry_view (λ s. s) };

    fn next_back(&mut self) -> Option<Entry<'a>> {
        if self.end <= self.at {
            return None;
        }
        let found = entry_before(self.block, self.end, self.last);
        self.end = found.0;
        self.last = found.1;
        Some(found.2)
    }
}
