// The log of a block.

ghost use Rattle.std.specs.Prelude.{◌≡◌, ℕ, ◌+◌, ◌≤◌, ◌<◌, ◌^◌, ◌↔◌, List, length, IfSome};
ghost use Rattle.std.specs.Option.{option_map};
ghost use Rattle.lfs_model.specs.format.Log.{entry_at, closes, commit_at, chain_of, block_revision, block_entries};
ghost use Rattle.lfs_model.specs.format.Content.{has_commit};
ghost use Rattle.lfs_tag.specs.LogEntryView.{log_entry_view};

use crate::crc;
use crate::entries::Entries;
use crate::entry::Entry;
use crate::tag::Tag;
use byteorder::{BigEndian, ByteOrder, LittleEndian};
use std::marker::Model;

// Decodes the entry at an offset, or returns None if there is no valid entry. The entry's tag is
// stored as its XOR with `before`.
#[tactic(auto, unfolding(lfs_model::specs::format::Log::entry_at))]
pub(crate) fn entry_at(block: &[u8], at: usize, before: Tag) -> Option<Entry<'_>>
    ensures value { option_map log_entry_view result ≡ entry_at block.now at before }
    ensures within { IfSome result (λ e. at + 4 + length e.bytes.now ≤ length block.now) }
{
    if block.len() < 4 || block.len() - 4 < at {
        return None;
    }
    let tag = Tag::decode(BigEndian::read_u32(&block[at..]), before);
    let rest = &block[at + 4..];
    let size = tag.size();
    if !tag.is_valid() || rest.len() < size {
        return None;
    }
    Some(Entry {
        tag,
        bytes: &rest[..size],
    })
}

// Returns whether the checksum entry at an offset is valid and ends the commit that begins at
// offset `start`.
#[tactic(auto, unfolding(lfs_model::specs::format::Log::closes))]
fn is_valid_checksum(block: &[u8], start: usize, at: usize, entry: &Entry<'_>) -> bool
    requires start { start ≤ at }
    requires within { at + 4 + length entry.now.bytes.now ≤ length block.now }
    ensures { result ≡ closes block.now start at (log_entry_view entry.now) }
{
    let kind = entry.tag.kind();
    let len = entry.tag.len();
    (kind == 0x500 || kind == 0x501)
        && (4 <= len
            && (len <= 1022
                && LittleEndian::read_u32(entry.bytes) == crc(0xffff_ffff, &block[start..at + 4])))
}

// Returns the end of the commit that begins at offset `start`, and the tag that the next commit's
// first tag is XORed with. The commit's next entry is at offset `at`, and its tag is XORed with
// `before`. Returns None if no valid checksum ends the commit.
fn commit_end(block: &[u8], start: usize, mut at: usize, mut before: Tag) -> Option<(usize, Tag)>
    requires { start ≤ at }
    ensures value { result ≡ option_map (λ c. (c.end, c.last)) (commit_at block.now start at before) }
    ensures end_of_entry { IfSome result (λ r. at < r.0) }
    ensures within { IfSome result (λ r. r.0 ≤ length block.now) }
{
    while let Some(entry) = entry_at(block, at, before) {
        let end = at + 4 + entry.bytes.len();
        if entry.tag.ends_commit() {
            return if is_valid_checksum(block, start, at, &entry) {
                Some((end, entry.tag.as_previous_tag()))
            } else {
                None
            };
        }
        at = end;
        before = entry.tag;
    }
    None
}

// Returns a block's revision count, or 0 if the block is shorter than 4 bytes.
fn revision(block: &[u8]) -> u32
    ensures { result ≡ block_revision block.now }
{
    if block.len() < 4 {
        0
    } else {
        LittleEndian::read_u32(block)
    }
}

/// The log of a block, which is the longest chain of valid commits that starts at offset 4 (SPEC.md
/// of littlefs, "Metadata pairs"). In contracts, the value of a log is the bytes of its block.
#[derive(Drop)]
pub struct Log<'a> {
    block: &'a [u8],
    end: usize,
    last: Tag,
    revision: u32,
}

impl<'a> Model for Log<'a> {
    ghost use Rattle.std.specs.Prelude.{ℕ, List};

    ghost Value = { List ℕ };

    ghost use Rattle.lfs_tag.specs.LogReading.{AreLogFields};

    ghost view = { λ l. l.block.now };

    ghost invariant = { AreLogFields };
}

impl<'a> Log<'a> {
    /// Reads the log of a block, which may have any length and any bytes. The log ends before the
    /// first commit with an invalid entry or checksum, so it may have no commit at all.
    ///
    /// An entry is invalid if its tag is invalid, if its data extends past the end of the block, or
    /// if its type is an undefined type of class 5. A checksum is invalid if its data has fewer
    /// than 4 or more than 1,022 bytes, or if its value is wrong. A forward checksum of version 2.1
    /// (type 0x5ff, at most 1,022 bytes) is read as an entry that has no effect.
    pub fn read(block: &'a [u8]) -> Log<'a>
        ensures { result ≡ block.now }
    {
        let mut start = 0;
        let mut end = 4;
        let mut last = Tag::from_bits(0xffff_ffff);
        while let Some(commit) = commit_end(block, start, end, last) {
            start = commit.0;
            end = commit.0;
            last = commit.1;
        }
        Log::with_known_end(block, end, last)
    }

    /// Makes the log of a block whose end and last tag are known, without reading the commits.
    /// `end` and `last` must equal what [`end`](Log::end) and [`last_log_tag`](Log::last_log_tag)
    /// return after a [`read`](Log::read) of the block.
    pub fn with_known_end(block: &'a [u8], end: usize, last: Tag) -> Log<'a>
        requires end { end ≡ (chain_of block.now).end }
        requires last { last ≡ (chain_of block.now).last }
        ensures { result ≡ block.now }
    {
        Log {
            block,
            end,
            last,
            revision: revision(block),
        }
    }

    /// Returns whether the log has at least one commit.
    pub fn has_commit(&self) -> bool
        ensures { result ≡ has_commit self.now }
    {
        4 < self.end
    }

    /// Returns the block offset at which the last commit ends, or 4 if the log has no commit.
    pub fn end(&self) -> usize
        ensures { result ≡ (chain_of self.now).end }
    {
        self.end
    }

    /// Returns the tag that the next commit's first tag is XORed with. All bits of the returned tag
    /// are set if the log has no commit.
    pub fn last_log_tag(&self) -> Tag
        ensures { result ≡ (chain_of self.now).last }
    {
        self.last
    }

    /// Returns the block's revision count, or 0 if the block is shorter than 4 bytes.
    pub fn revision(&self) -> u32
        ensures { result ≡ block_revision self.now }
    {
        self.revision
    }

    // Returns the bytes of the block.
    pub(crate) fn block(&self) -> &'a [u8]
        ensures { result.now ≡ self.now }
    {
        self.block
    }

    /// Returns a double-ended iterator over the entries of all commits, from the oldest to the
    /// newest. Doesn't copy the entries' data.
    pub fn entries(&self) -> Entries<'a>
        ensures value { result ≡ block_entries self.now }
        ensures small { length (block_entries self.now) < 2 ^ 62 }
    {
        Entries::log_entries(self.block, self.end, self.last)
    }
}
