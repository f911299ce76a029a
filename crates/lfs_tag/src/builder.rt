// A builder that encodes a commit in a buffer.

ghost use Rattle.std.specs.Prelude.{◌≡◌, ℕ, IfSome, slice_index, ◌≢◌, ◌+◌, ◌-◌, ◌≤◌, ◌<◌, ◌^◌, ◌++◌, [], ◌↔◌, length, take, min, true, replicate, IsOk, IfOk, IfErr};
ghost use Rattle.byteorder.specs.Endian.{big_bytes, little_bytes};
ghost use Rattle.lfs_model.specs.format.Crc.{crc_of};
ghost use Rattle.lfs_model.specs.format.Log.{LogEntry};
ghost use Rattle.lfs_model.specs.format.Tag.{IsValidTag, tag_class, tag_data_size, make_tag, tag_for_next_xor};
ghost use Rattle.lfs_model.specs.format.Geometry.{is_valid_page_size};
ghost use Rattle.lfs_model.specs.format.EntryTypes.{no_id};
ghost use Rattle.lfs_model.specs.format.Blocks.{overwritten_at};
ghost use Rattle.lfs_model.specs.layers.Commit.{checksum_type};
ghost use Rattle.lfs_tag.specs.Builder.{commit_adding_entry, padded_commit_end, checksum_tag as checksum_entry_tag, AreCommitPages};

use crate::crc;
use crate::kinds::{CHECKSUM, TURNED_CHECKSUM};
use crate::pushed_commit::PushedCommitProof;
use crate::tag::Tag;
use byteorder::{BigEndian, ByteOrder, LittleEndian};
use lfs_device::Error;
use std::marker::Model;

/// A builder that encodes a commit in a caller's buffer (SPEC.md of littlefs, "Metadata pairs" and
/// "0x5xx LFS_TYPE_CRC"). A commit consists of its entries, a checksum, and padding up to the end
/// of a page. A page is the unit in which blocks are programmed (littlefs's `prog_size`).
///
/// The first byte of the buffer is to be programmed at the end of the block's log, or at offset 0
/// for the block's first commit. The buffer may be longer than the commit.
#[derive(Drop)]
pub struct CommitBuilder<'a> {
    page: usize,
    buf: &'a mut [u8],
    // The length of the commit so far in bytes, even if the commit doesn't fit in the buffer.
    len: usize,
    last: Tag,
    pushed: PushedCommitProof,
}

impl<'a> Model for CommitBuilder<'a> {
    ghost use Rattle.lfs_tag.specs.Builder.{PartialCommit};

    ghost Value = { PartialCommit };

    ghost use Rattle.lfs_tag.specs.BuilderView.{builder_view, IsBuilder};

    ghost view = { builder_view };

    ghost invariant = { IsBuilder };
}

// Writes a block's revision count if the buffer has at least 4 bytes. Returns 4, the size of a
// revision count.
fn write_revision(buf: &mut [u8], revision: u32) -> usize
    ensures value { result ≡ 4 }
    ensures len { length buf.new ≡ length buf.old }
    ensures bytes { 4 ≤ length buf.old → take 4 buf.new ≡ little_bytes 4 revision }
{
    if buf.len() >= 4 {
        LittleEndian::write_u32(buf, revision);
    }
    4
}

// Writes an encoded tag and its data at an offset.
fn store_entry(buf: &mut [u8], at: usize, stored: u32, bytes: &[u8])
    requires { at + 4 + length bytes.now ≤ length buf.old }
    ensures { buf.new ≡ overwritten_at buf.old at (big_bytes 4 stored ++ bytes.now) }
{
    BigEndian::write_u32(&mut buf[at..], stored);
    let start = at + 4;
    buf[start..start + bytes.len()].copy_from_slice(bytes);
}

// Writes an encoded tag and its data at an offset if they fit in the buffer. Returns the offset
// after the data, whether or not they fit.
fn write_entry(buf: &mut [u8], at: usize, stored: u32, bytes: &[u8]) -> usize
    ensures end { result ≡ min (at + 4 + length bytes.now) (2 ^ 64 - 1) }
    ensures exact { result ≤ length buf.old → result ≡ at + 4 + length bytes.now }
    ensures len { length buf.new ≡ length buf.old }
    ensures bytes { result ≤ length buf.old
        → buf.new ≡ overwritten_at buf.old at (big_bytes 4 stored ++ bytes.now) }
{
    let end = at.saturating_add(4).saturating_add(bytes.len());
    if end <= buf.len() {
        store_entry(buf, at, stored, bytes);
    }
    end
}

// Writes the encoded tag of the checksum, the checksum of all bytes up to the end of that tag, and
// the padding up to offset `end`.
fn write_checksum(buf: &mut [u8], at: usize, stored: u32, end: usize)
    requires room { at + 8 ≤ end }
    requires within { end ≤ length buf.old }
    ensures fits { crc_of 0xffffffff (take at buf.old ++ big_bytes 4 stored) < 2 ^ 32 }
    ensures bytes { let sum = crc_of 0xffffffff (take at buf.old ++ big_bytes 4 stored) in
        buf.new ≡ overwritten_at buf.old at (big_bytes 4 stored
        ++ (little_bytes 4 sum ++ replicate (end - (at + 8)) 255)) }
{
    BigEndian::write_u32(&mut buf[at..], stored);
    let sum = crc(0xffff_ffff, &buf[..at + 4]);
    LittleEndian::write_u32(&mut buf[at + 4..], sum);
    buf[at + 8..end].fill(0xff);
}

// Returns the tag of a checksum entry with `size` bytes of data, padding included.
fn checksum_tag(next: Option<[u8; 4]>, size: usize) -> Tag
    requires { size < 2 ^ 10 }
    ensures tag { result ≡ make_tag (checksum_type next) no_id size }
    ensures bytes { IfSome next (λ next. (i : ℕ) → slice_index next i < 256) }
{
    let turns = match next {
        Some(next) => next[0] < 0x80,
        None => false,
    };
    let kind = if turns { TURNED_CHECKSUM } else { CHECKSUM };
    Tag::new(kind, 0x3ff, size as u16)
}

impl<'a> CommitBuilder<'a> {
    /// Starts an empty commit for a device with pages of `page` bytes. Requires that `page` is a
    /// power of two from 8 to 512.
    ///
    /// For a block's first commit, `revision` is the revision count to write before the entries,
    /// and `previous` has all bits set. To append a commit, pass None as `revision` and the log's
    /// last tag as `previous`. The commit's first tag is stored as its XOR with `previous`.
    pub fn new(
        page: u32,
        buf: &'a mut [u8],
        previous: Tag,
        revision: Option<u32>,
    ) -> CommitBuilder<'a>
        requires { is_valid_page_size page ≡ true }
        ensures { result ≡ record {
          page = page;
          room = length buf.old;
          previous = previous;
          revision = revision;
          entries = [];
        } }
    {
        let len = match revision {
            Some(revision) => write_revision(buf, revision),
            None => 0,
        };
        CommitBuilder {
            page: page as usize,
            pushed: PushedCommitProof::with_ghost_commit(
                &(page, buf.len(), previous, revision),
                &(),
            ),
            buf,
            len,
            last: previous,
        }
    }

    /// Adds an entry. Requires a valid tag that isn't a checksum's. The length of `bytes` must
    /// equal the tag's [`size`](Tag::size). If an entry doesn't fit in the buffer,
    /// [`finish`](CommitBuilder::finish) fails.
    pub fn push(&mut self, tag: Tag, bytes: &[u8])
        requires valid { IsValidTag tag }
        requires other { tag_class tag ≢ 5 }
        requires bytes { length bytes.now ≡ tag_data_size tag }
        ensures { let entry : LogEntry = record { tag = tag; bytes = bytes.now } in
            self.new ≡ commit_adding_entry entry self.old }
    {
        let stored = tag.encode(self.last);
        let buf = &mut *self.buf;
        let end = write_entry(buf, self.len, stored, bytes);
        self.pushed = PushedCommitProof::with_ghost_commit(&self.pushed, &(tag, bytes));
        self.len = end;
        self.last = tag;
    }

    // Returns the buffer offset of the padded commit's end, or `usize::MAX` if the offset is
    // larger.
    fn padded_end(&self) -> usize
        ensures { result ≡ min (padded_commit_end self.now) (2 ^ 64 - 1) }
    {
        self.len
            .saturating_add(8)
            .checked_next_multiple_of(self.page)
            .unwrap_or(usize::MAX)
    }

    /// Returns the buffer offset of the padded commit's end, or `u32::MAX` if the offset is larger.
    /// The offset may be past the end of the buffer.
    pub fn end_on_page(&self) -> u32
        ensures { result ≡ min (padded_commit_end self.now) (2 ^ 32 - 1) }
    {
        u32::try_from(self.padded_end()).unwrap_or(u32::MAX)
    }

    /// Returns the tag to pass as `previous` to [`new`](CommitBuilder::new) when the next commit is
    /// appended to the block. `next` is the argument that will be passed to
    /// [`finish`](CommitBuilder::finish). Requires that the padded commit fits in the buffer.
    pub fn last_commit_tag(&self, next: Option<[u8; 4]>) -> Tag
        requires { padded_commit_end self.now ≤ self.now.room }
        ensures { result ≡ tag_for_next_xor (checksum_entry_tag self.now next) }
    {
        let size = self.padded_end() - (self.len + 4);
        checksum_tag(next, size).as_previous_tag()
    }

    /// Ends the commit and returns its bytes, which fill whole pages and which the caller programs
    /// into the block. The padding consists of 0xff bytes. `next` is the four bytes that follow the
    /// commit in the block, or None if fewer than four follow. The type of the checksum is chosen
    /// so that `next` decodes as an invalid tag, because an erase may leave any bytes there.
    ///
    /// Errors: `TooBig` if and only if the padded commit doesn't fit in the buffer.
    pub fn finish(self, next: Option<[u8; 4]>) -> Result<&'a [u8], Error>
        ensures fits { IsOk result ↔ (padded_commit_end self.entry ≤ self.entry.room) }
        ensures error { IfErr result (λ e. e ≡ Error.TooBig) }
        ensures size { IfOk result (λ pages. length pages.now ≡ padded_commit_end self.entry) }
        ensures commit { IfOk result (λ pages. AreCommitPages self.entry next pages.now) }
    {
        let end = self.padded_end();
        let CommitBuilder {
            page: _,
            buf,
            len,
            last,
            pushed: _,
        } = self;
        if buf.len() < end {
            return Err(Error::TooBig);
        }
        let tag = checksum_tag(next, end - (len + 4));
        write_checksum(buf, len, tag.encode(last), end);
        Ok(&buf[..end])
    }
}
