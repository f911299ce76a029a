// Builds images of 16 blocks of 4,096 bytes from tags and bytes, without the crates that read
// images.

use std::alloc::{AllocError, Global};

/// The entries of a commit, each a tag with its data.
pub type FixtureEntries<'a> = &'a [(u32, &'a [u8])];

// The superblock's struct: version 2.0, 16 blocks of 4,096 bytes, and three limits.
const FIELDS: [u8; 24] = [
    0, 0, 2, 0, 0, 16, 0, 0, 16, 0, 0, 0, 255, 0, 0, 0, 255, 255, 255, 127, 254, 3, 0, 0,
];

// Computes the CRC-32 of a commit, bit by bit.
fn checksum(bytes: &[u8]) -> u32 {
    let mut sum = 0xffff_ffffu32;
    for byte in bytes {
        sum ^= u32::from(*byte);
        for _ in 0..8 {
            sum = if sum & 1 == 1 {
                sum >> 1 ^ 0xedb8_8320
            } else {
                sum >> 1
            };
        }
    }
    sum
}

// Appends a commit that is padded to the next page of 256 bytes, and returns the commit's last tag.
// `last` is the tag before the commit.
fn push_commit(
    bytes: &mut Vec<u8>,
    last: u32,
    entries: FixtureEntries<'_>,
) -> Result<u32, AllocError> {
    let start = match bytes.len() {
        4 => 0,
        len => len,
    };
    let mut last = last;
    for (tag, data) in entries {
        bytes.extend_from_slice(&(tag ^ last).to_be_bytes())?;
        bytes.extend_from_slice(data)?;
        last = *tag;
    }
    let used = (bytes.len() % 256 + 8) % 256;
    let tag = 0x500f_fc04 + ((256 - used) % 256) as u32;
    bytes.extend_from_slice(&(tag ^ last).to_be_bytes())?;
    let sum = checksum(bytes.get(start..).unwrap_or_default());
    bytes.extend_from_slice(&sum.to_le_bytes())?;
    let end = bytes.len().next_multiple_of(256);
    bytes.resize(end, 0xff)?;
    Ok(tag)
}

// Returns a block with the superblock in its first commit, and the last tag of that commit.
fn superblock_block(alloc: Global, revision: u32) -> Result<(Vec<u8>, u32), AllocError> {
    let mut bytes = Vec::from_slice(alloc, &revision.to_le_bytes())?;
    let superblock = [
        (0x0ff0_0008, b"littlefs".as_slice()),
        (0x2010_0018, &FIELDS),
    ];
    let last = push_commit(&mut bytes, 0xffff_ffff, &superblock)?;
    Ok((bytes, last))
}

/// Returns a block with the superblock in its first commit, followed by the given commits.
pub fn block_with_commits(
    alloc: Global,
    revision: u32,
    commits: &[FixtureEntries<'_>],
) -> Result<Vec<u8>, AllocError> {
    let (mut bytes, mut last) = superblock_block(alloc, revision)?;
    for entries in commits {
        last = push_commit(&mut bytes, last, entries)?;
    }
    Ok(bytes)
}

/// Returns a block with the superblock in its first commit and the given entries in a second one.
/// Without entries there is no second commit.
pub fn block_with_entries(
    alloc: Global,
    revision: u32,
    entries: FixtureEntries<'_>,
) -> Result<Vec<u8>, AllocError> {
    let (mut bytes, last) = superblock_block(alloc, revision)?;
    if !entries.is_empty() {
        push_commit(&mut bytes, last, entries)?;
    }
    Ok(bytes)
}

// Returns a block with the revision count 1 and one commit of the given entries.
fn one_commit_block(alloc: Global, entries: FixtureEntries<'_>) -> Result<Vec<u8>, AllocError> {
    let mut bytes = Vec::from_slice(alloc, &[1, 0, 0, 0])?;
    push_commit(&mut bytes, 0xffff_ffff, entries)?;
    Ok(bytes)
}

/// The contents of a block, either one commit or plain bytes.
#[derive(Clone, Copy)]
pub enum BlockContents<'a> {
    Commit(FixtureEntries<'a>),
    Bytes(&'a [u8]),
}

fn copy_to_block(image: &mut [u8], block: usize, bytes: &[u8]) {
    let start = block.saturating_mul(4096);
    let end = start.saturating_add(bytes.len());
    if let Some(place) = image.get_mut(start..end) {
        place.copy_from_slice(bytes);
    }
}

fn put_block_content(
    alloc: Global,
    image: &mut [u8],
    block: usize,
    held: BlockContents<'_>,
) -> Result<(), AllocError> {
    match held {
        BlockContents::Commit(entries) => copy_to_block(
            image,
            block,
            one_commit_block(alloc, entries)?.as_slice(),
        ),
        BlockContents::Bytes(bytes) => copy_to_block(image, block, bytes),
    }
    Ok(())
}

/// Returns an image whose first block has the superblock and a commit of the given entries.
/// `others` lists the contents of other blocks by their addresses.
pub fn image_with_commit(
    alloc: Global,
    entries: FixtureEntries<'_>,
    others: &[(usize, BlockContents<'_>)],
) -> Result<Vec<u8>, AllocError> {
    let first = block_with_entries(alloc, 1, entries)?;
    let mut image = image_with_pair(alloc, first.as_slice(), &[])?;
    for (block, held) in others {
        put_block_content(alloc, image.as_mut_slice(), *block, *held)?;
    }
    Ok(image)
}

/// Returns an image that begins with the two given blocks.
pub fn image_with_pair(alloc: Global, first: &[u8], second: &[u8]) -> Result<Vec<u8>, AllocError> {
    let mut image = Vec::from_slice(alloc, first)?;
    image.resize(4096, 0xff)?;
    image.extend_from_slice(second)?;
    image.resize(65536, 0xff)?;
    Ok(image)
}
