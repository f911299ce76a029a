// Images, and the results of listing and unpacking them.

use crate::log_entries::{
    A0, A1, A2, AB1, AB2, B1, B2, D1, D3, E2, EMPTY, EMPTY0, EMPTY1, EMPTY2, FIRST, GOES_ON,
    LARGER, LATER_FIELDS, LIST1, LIST2, MOVE_STATE, NEXT_PAIR, PAIR, PLAIN_FIELDS, SAME,
    SHORT_FIELDS, SOFT_TAIL, SUPERBLOCK, TO_PAIR1, TO_PAIR2, TO_PAIR3, TO_ROOT1, TURNED,
};
use crate::texts::{list_text, unpack_text};
use lfs_fixtures::BlockContents::{Bytes, Commit};
use lfs_fixtures::{
    BlockContents, FixtureEntries, block_with_commits, block_with_entries, image_with_commit,
    image_with_pair,
};
use lfs_tool::ImageLayout;
use std::alloc::{AllocError, Global};
use std::test::Fail;

const CORRUPT: &str = "error: Corrupt (84)\n";

const INVALID: &str = "error: Invalid (22)\n";

// Addresses of metadata pairs.
const HALF: &[u8] = &[2, 0, 0, 0, 0xff, 0xff, 0xff, 0xff];

const NO_PAIR: &[u8] = &[0xff; 8];

// Blocks of a pair, with a file `f` and with a file `a`.
const WITH_F: BlockContents<'static> = Commit(&[(0x0010_0001, b"f"), (0x2010_0002, b"hi")]);

const WITH_A: BlockContents<'static> = Commit(&[A0, (0x2010_0002, b"hi")]);

// An image, and the expected text. The image has a second commit in its first block, and some other
// blocks.
type Row<'a> = (
    FixtureEntries<'a>,
    &'a [(usize, BlockContents<'a>)],
    &'a str,
);

// The entries of a second commit, and the expected listing.
const COMMITS: [(FixtureEntries<'static>, &str); 19] = [
    // names with bytes that are printed as numbers, for an empty file and for one of five bytes
    (
        &[(0x0010_0405, b"a\n\\\xc3\xa9"), EMPTY1],
        "f 0 /a\\x0a\\x5c\\xc3\\xa9\n",
    ),
    (
        &[(0x0010_0405, b"a\n\\\xc3\xa9"), (0x2010_0405, b"hello")],
        "f 5 /a\\x0a\\x5c\\xc3\\xa9\n",
    ),
    // a directory outside the tail list, a list of one block, a directory with a file's struct, and
    // a tail to a pair without a commit
    (&[D1, TO_PAIR1], CORRUPT),
    (&[A1, (0x2020_0408, PAIR)], "f 3 /a\n"),
    (&[D1, EMPTY1], CORRUPT),
    (&[(0x600f_fc08, PAIR), (0x7fff_fc0c, &[0; 12])], CORRUPT),
    // a sync bit, an id without a move, and an empty move state
    (
        &[
            (0x600f_fc08, NO_PAIR),
            (0x7fff_fc0c, &[0, 0, 0, 0x80, 0, 0, 0, 0, 0, 0, 0, 0]),
        ],
        "",
    ),
    (
        &[
            (0x600f_fc08, NO_PAIR),
            (0x7fff_fc0c, &[0, 4, 0, 0, 0, 0, 0, 0, 0, 0, 0, 0]),
        ],
        CORRUPT,
    ),
    (
        &[
            (0x600f_fc08, NO_PAIR),
            (0x7fff_fc0c, &[0xff, 3, 0, 0, 0, 0, 0, 0, 0, 0, 0, 0]),
        ],
        "",
    ),
    // a superblock in a later slot, a name twice, and a name that is out of order
    (&[(0x0ff0_0408, b"littlefs"), EMPTY1], CORRUPT),
    (&[A1, EMPTY1, A2, EMPTY2], CORRUPT),
    (&[A2, EMPTY2, B1, EMPTY1], CORRUPT),
    // names that no entry may have
    (&[(0x0010_0400, b""), EMPTY1], CORRUPT),
    (&[(0x0010_0402, b".."), EMPTY1], CORRUPT),
    (&[(0x0010_0403, b"a/b"), EMPTY1], CORRUPT),
    // a file with a directory's struct, and a file without a struct
    (&[A1, TO_PAIR1], CORRUPT),
    (&[A1, (0x3410_0400, b"")], CORRUPT),
    // a slot before the superblock's, and a struct for a slot that doesn't exist
    (&[(0x4010_0000, b""), A0, EMPTY0], CORRUPT),
    (&[A1, EMPTY1, EMPTY2], CORRUPT),
];

const TAILS: [Row<'static>; 8] = [
    // tails to the first pair, to the same block twice, to half a pair, and to no pair
    (&[(SOFT_TAIL, FIRST)], &[], CORRUPT),
    (&[(SOFT_TAIL, SAME)], &[(2, WITH_F)], CORRUPT),
    (&[(SOFT_TAIL, HALF)], &[], CORRUPT),
    (&[(SOFT_TAIL, NO_PAIR)], &[], ""),
    // an orphan, with and without the sync bit
    (
        &[
            NEXT_PAIR,
            (MOVE_STATE, &[0, 0, 0, 0x80, 0, 0, 0, 0, 0, 0, 0, 0]),
        ],
        &[(2, EMPTY)],
        "",
    ),
    (
        &[
            NEXT_PAIR,
            (MOVE_STATE, &[0, 0, 0, 0, 0, 0, 0, 0, 0, 0, 0, 0]),
        ],
        &[(2, EMPTY)],
        CORRUPT,
    ),
    // an inline file of 600 bytes, and another limit
    (&[A1, (0x2010_0658, &[7; 600])], &[], "f 600 /a\n"),
    (&[SHORT_FIELDS], &[], ""),
];

const DIRECTORIES: [Row<'static>; 5] = [
    // an entry that points to the root
    (&[D1, TO_ROOT1], &[], CORRUPT),
    // an address with its blocks swapped, and a pair that two entries point to
    (
        &[D1, (0x2000_0408, TURNED), NEXT_PAIR],
        &[(2, WITH_F)],
        "d 0 /d\nf 2 /d/f\n",
    ),
    (
        &[D1, TO_PAIR1, E2, TO_PAIR2, NEXT_PAIR],
        &[(2, WITH_F)],
        CORRUPT,
    ),
    // a directory whose only file is moved away
    (
        &[
            D1,
            TO_PAIR1,
            (0x0010_0801, b"g"),
            (0x2010_0802, b"hi"),
            NEXT_PAIR,
            (MOVE_STATE, &[0, 0, 0xf0, 0x4f, 2, 0, 0, 0, 3, 0, 0, 0]),
        ],
        &[(2, WITH_F)],
        "d 0 /d\nf 2 /g\n",
    ),
    // a directory with two pairs
    (&[A1, EMPTY1, GOES_ON], &[(2, WITH_F)], "f 0 /a\nf 2 /f\n"),
];

const SUPERBLOCKS: [Row<'static>; 4] = [
    (
        &[GOES_ON],
        &[(
            2,
            Commit(&[SUPERBLOCK, PLAIN_FIELDS, A1, (0x2010_0402, b"hi")]),
        )],
        "f 2 /a\n",
    ),
    (
        &[GOES_ON],
        &[(
            2,
            Commit(&[SUPERBLOCK, (0x2010_0018, LARGER), A1, (0x2010_0402, b"hi")]),
        )],
        CORRUPT,
    ),
    (
        &[(0x0010_0401, b"z"), EMPTY1, GOES_ON],
        &[(2, Commit(&[SUPERBLOCK, PLAIN_FIELDS]))],
        CORRUPT,
    ),
    (&[GOES_ON], &[(2, WITH_A)], "f 2 /a\n"),
];

const FORWARD_CHECKSUM: (u32, &[u8]) = (0x5fff_fc08, &[0x10, 0, 0, 0, 0x12, 0x34, 0x56, 0x78]);

// Two files, of which one name is a prefix of the other. Either the longer or the shorter name
// comes first.
const LONGER: BlockContents<'static> = Commit(&[
    (0x0010_0002, b"xy"),
    EMPTY0,
    (0x0010_0401, b"x"),
    EMPTY1,
]);

pub(crate) const SHORTER: BlockContents<'static> = Commit(&[
    (0x0010_0001, b"x"),
    EMPTY0,
    (0x0010_0402, b"xy"),
    EMPTY1,
]);

pub(crate) const LONGER_FIRST: FixtureEntries<'static> = &[
    AB1, EMPTY1, A2, EMPTY2, D3, TO_PAIR3, NEXT_PAIR,
];

const SHORTER_FIRST: FixtureEntries<'static> = &[A1, EMPTY1, AB2, EMPTY2, D3, TO_PAIR3, NEXT_PAIR];

const BOTH: &str = "f 0 /a\nf 0 /ab\nd 0 /d\nf 0 /d/x\nf 0 /d/xy\n";

// The same tree in each order of names, directories with different orders, and an image that a
// driver of version 2.1 has written.
const ORDERS: [Row<'static>; 6] = [
    (LONGER_FIRST, &[(2, LONGER)], BOTH),
    (SHORTER_FIRST, &[(2, SHORTER)], BOTH),
    (LONGER_FIRST, &[(2, SHORTER)], CORRUPT),
    (SHORTER_FIRST, &[(2, LONGER)], CORRUPT),
    (
        &[FORWARD_CHECKSUM, A1, (0x2010_0402, b"hi")],
        &[],
        "f 2 /a\n",
    ),
    (&[LATER_FIELDS, FORWARD_CHECKSUM], &[], CORRUPT),
];

// A move that refers to the superblock's slot, and a move that refers to one of two files with the
// same name.
const MOVES: [Row<'static>; 2] = [
    (
        &[(MOVE_STATE, &[0, 0, 0xf0, 0x4f, 0, 0, 0, 0, 1, 0, 0, 0])],
        &[],
        CORRUPT,
    ),
    (
        &[
            (0x0010_0401, b"f"),
            (0x2020_0408, &[16, 0, 0, 0, 3, 0, 0, 0]),
            (0x0010_0801, b"f"),
            (0x2010_0802, b"hi"),
            (MOVE_STATE, &[0, 4, 0xf0, 0x4f, 0, 0, 0, 0, 1, 0, 0, 0]),
        ],
        &[],
        "f 2 /f\n",
    ),
];

// A list of three blocks, and one whose last block has a wrong pointer.
const SECOND: BlockContents<'static> = Bytes(&[4, 0, 0, 0]);

const LISTS: [Row<'static>; 8] = [
    // a block in two files, the superblock's block, and a block that isn't in the image
    (&[A1, LIST1, B2, LIST2], &[], CORRUPT),
    (
        &[A1, (0x2020_0408, &[1, 0, 0, 0, 3, 0, 0, 0])],
        &[],
        CORRUPT,
    ),
    (
        &[A1, (0x2020_0408, &[16, 0, 0, 0, 3, 0, 0, 0])],
        &[],
        CORRUPT,
    ),
    // an empty list, and a list that is one byte too long
    (
        &[A1, (0x2020_0408, &[2, 0, 0, 0, 0, 0, 0, 0])],
        &[],
        CORRUPT,
    ),
    (
        &[A1, (0x2020_0408, &[2, 0, 0, 0, 0, 0, 0, 0x80])],
        &[],
        CORRUPT,
    ),
    // three blocks, with a right and a wrong pointer 1
    (
        &[A1, (0x2020_0408, &[6, 0, 0, 0, 0x08, 0x20, 0, 0])],
        &[(5, SECOND), (6, Bytes(&[5, 0, 0, 0, 4, 0, 0, 0]))],
        "f 8200 /a\n",
    ),
    (
        &[A1, (0x2020_0408, &[6, 0, 0, 0, 0x08, 0x20, 0, 0])],
        &[(5, SECOND), (6, Bytes(&[5, 0, 0, 0, 5, 0, 0, 0]))],
        CORRUPT,
    ),
    // two files with a block each
    (
        &[A1, LIST1, B2, (0x2020_0808, &[3, 0, 0, 0, 4, 0, 0, 0])],
        &[],
        "f 3 /a\nf 4 /b\n",
    ),
];

// A file with bytes, a directory, and an empty file in that directory.
pub(crate) const ENTRIES: FixtureEntries<'static> = &[
    A1,
    (0x2010_0405, b"hello"),
    (0x0020_0801, b"d"),
    TO_PAIR2,
    NEXT_PAIR,
];

pub(crate) const BELOW: BlockContents<'static> = Commit(&[(0x0010_0001, b"x"), EMPTY0]);

// Images, and the expected actions for unpacking them.
const UNPACKED: [Row<'static>; 4] = [
    (ENTRIES, &[(2, BELOW)], "f /a hello\nd /d\nf /d/x \n"),
    (&[], &[], ""),
    // a list of one block
    (&[A1, LIST1], &[(2, Bytes(b"abcd"))], "f /a abc\n"),
    // a directory outside the tail list
    (&[D1, TO_PAIR1], &[], "error: Corrupt (84)\n"),
];

// Returns whether listing an image, or unpacking it, gives the expected text.
fn has_expected_list_or_unpack_text(
    alloc: Global,
    row: Row<'_>,
    is_unpacked: bool,
) -> Result<bool, AllocError> {
    let (entries, others, wanted) = row;
    let image = image_with_commit(alloc, entries, others)?;
    let layout = ImageLayout::new(4096, 256);
    let text = if is_unpacked {
        unpack_text(alloc, image.as_slice(), layout)?
    } else {
        list_text(alloc, image.as_slice(), layout)?
    };
    Ok(text.as_slice() == wanted.as_bytes())
}

// All images to list, except those with only a commit in the first block.
const LISTED: [&[Row<'static>]; 6] = [&TAILS, &DIRECTORIES, &SUPERBLOCKS, &ORDERS, &MOVES, &LISTS];

#[test]
fn images_are_shown(rt: HostRuntime) -> Result<(), Fail> {
    for (entries, text) in COMMITS {
        assert!(rt;
            has_expected_list_or_unpack_text(rt.alloc(), (entries, &[], text), false)?,
            "{entries:?}"
        );
    }
    for rows in LISTED {
        for row in rows {
            assert!(rt;
                has_expected_list_or_unpack_text(rt.alloc(), *row, false)?,
                "{:?}",
                row.0
            );
        }
    }
    for row in UNPACKED {
        assert!(rt;
            has_expected_list_or_unpack_text(rt.alloc(), row, true)?,
            "{:?}",
            row.0
        );
    }
    Ok(())
}

// The commits of a block in which a file moves from slot to slot.
const SHIFTING: [FixtureEntries<'static>; 4] = [
    &[(0x4010_0400, b""), B1, EMPTY1],
    &[(0x4010_0400, b""), A1, EMPTY1],
    &[(0x4ff0_0400, b"")],
    &[(0x3410_0401, b"x")],
];

pub(crate) fn shifting_block(alloc: Global) -> Result<Vec<u8>, AllocError> {
    block_with_commits(alloc, 1, &SHIFTING)
}

// A log with a file `x` up to the middle of its CRC entry: the first bytes, 67 zeros, and the last
// bytes. If 0xff follows, the CRC is right.
const NEARLY: &[u8] =
    b"\x02\0\0\0\xf0\x0f\xff\xf7littlefs\x2f\xe0\0\x10\0\0\x02\0\0\x10\0\0\x10\0\0\0\xff\0\0\0\xff\xff\xff\x7f\xfe\x03\0\0\x60\0\x04\x18\x40\0\0\x01x\x20\0\0\x46\x86\x39\xe6\xa0";

const NEARLY_END: &[u8] = b"\x70\x1f\xf8\x3b";

// Images that can't be built only from commits.
#[derive(Clone, Copy)]
enum UnusualImage {
    // The block with the moving file, and a second block with this revision count and second
    // commit.
    Second(u32, FixtureEntries<'static>),
    // A first block without a commit, and a second block with this revision count and second
    // commit.
    Uncommitted(u32, FixtureEntries<'static>),
    // The block with the moving file, and a block that is nearly a log, whose first 132 bytes are
    // followed by this byte.
    Nearly(u8),
    // The block with the moving file, in which these bits of the byte at this offset are flipped.
    Flipped(usize, u8),
    // The given number of bytes of a fresh image, filled up with 0xff if it is shorter.
    Fresh(usize),
    // The given number of bytes 0xff.
    Blank(usize),
}

// Unusual images, and the expected listing of each.
const ODD: [(UnusualImage, &str); 15] = [
    (UnusualImage::Second(0xffff_ffff, &[]), "f 0 /b\n"),
    (
        UnusualImage::Second(2, &[(0x0010_0401, b"c"), EMPTY1]),
        "f 0 /c\n",
    ),
    (
        UnusualImage::Uncommitted(2, &[(0x0010_0401, b"c"), EMPTY1]),
        "f 0 /c\n",
    ),
    (UnusualImage::Nearly(0xff), "f 71 /x\n"),
    (UnusualImage::Nearly(0), "f 0 /b\n"),
    (UnusualImage::Flipped(0, 0), "f 0 /b\n"),
    (UnusualImage::Flipped(264, 0x62 ^ 0x63), ""),
    (UnusualImage::Flipped(776, 0xff), "f 0 /a\nf 0 /b\n"),
    (UnusualImage::Flipped(48, 0xff), CORRUPT),
    (UnusualImage::Fresh(8192), CORRUPT),
    (UnusualImage::Fresh(69632), CORRUPT),
    (UnusualImage::Fresh(4100), INVALID),
    (UnusualImage::Blank(0), INVALID),
    (UnusualImage::Blank(4100), INVALID),
    (UnusualImage::Blank(65536), CORRUPT),
];

// Returns the block that is nearly a log.
fn damaged_log_block(alloc: Global, byte: u8) -> Result<Vec<u8>, AllocError> {
    let mut block = Vec::from_slice(alloc, NEARLY)?;
    block.resize(128, 0)?;
    block.extend_from_slice(NEARLY_END)?;
    block.resize(4096, byte)?;
    Ok(block)
}

// Returns the bytes of an unusual image.
fn unusual_image(alloc: Global, odd: UnusualImage) -> Result<Vec<u8>, AllocError> {
    let mut first = shifting_block(alloc)?;
    let mut second = Vec::new(alloc);
    let mut len = 65536;
    match odd {
        UnusualImage::Second(revision, entries) => second = block_with_entries(
            alloc, revision, entries,
        )?,
        UnusualImage::Uncommitted(revision, entries) => {
            first = Vec::from_slice(alloc, &[0; 4])?;
            second = block_with_entries(alloc, revision, entries)?;
        }
        UnusualImage::Nearly(byte) => second = damaged_log_block(alloc, byte)?,
        UnusualImage::Flipped(at, bits) => {
            if let Some(byte) = first.get_mut(at) {
                *byte ^= bits;
            }
        }
        UnusualImage::Fresh(bytes) => {
            first = block_with_entries(alloc, 1, &[])?;
            len = bytes;
        }
        UnusualImage::Blank(bytes) => {
            first = Vec::new(alloc);
            len = bytes;
        }
    }
    let mut image = image_with_pair(alloc, first.as_slice(), second.as_slice())?;
    image.resize(len, 0xff)?;
    Ok(image)
}

fn is_unusual_image_listed(
    alloc: Global,
    odd: UnusualImage,
    block_size: u32,
    page: u32,
    wanted: &str,
) -> Result<bool, AllocError> {
    let image = unusual_image(alloc, odd)?;
    let text = list_text(alloc, image.as_slice(), ImageLayout::new(block_size, page))?;
    Ok(text.as_slice() == wanted.as_bytes())
}

// The block size, the page size, and the expected listing of a fresh image.
const SIZES: [(u32, u32, &str); 6] = [
    (4096, 256, ""),
    (0, 256, INVALID),
    (4096, 0, INVALID),
    (512, 64, INVALID),
    (65536, 256, INVALID),
    (1024, 128, CORRUPT),
];

#[test]
fn unusual_images_are_listed_or_refused(rt: HostRuntime) -> Result<(), Fail> {
    for (number, (odd, text)) in ODD.iter().enumerate() {
        assert!(rt;
            is_unusual_image_listed(rt.alloc(), *odd, 4096, 256, text)?,
            "{number}"
        );
    }
    for (block_size, page, text) in SIZES {
        let is_listed = is_unusual_image_listed(
            rt.alloc(),
            UnusualImage::Fresh(65536),
            block_size,
            page,
            text,
        )?;
        assert!(rt; is_listed, "{block_size}, {page}");
    }
    Ok(())
}

// The expected listing if one byte is inverted, for all offsets below each limit. The image is the
// one with the moving file, and the listings are from `bench/image_reader.py`.
const INVERTED: [(usize, &str); 6] = [
    (52, CORRUPT),
    (256, "f 0 /b\n"),
    (277, ""),
    (768, "f 0 /b\n"),
    (780, "f 0 /a\nf 0 /b\n"),
    (8192, "f 0 /b\n"),
];

fn invert_byte(image: &mut [u8], at: usize) {
    if let Some(byte) = image.get_mut(at) {
        *byte = !*byte;
    }
}

// Returns whether the listing is as expected if the byte at this offset is inverted. The image is
// restored at the end.
fn is_image_listed_with_inverted_byte(
    alloc: Global,
    image: &mut [u8],
    at: usize,
    wanted: &str,
) -> Result<bool, AllocError> {
    invert_byte(image, at);
    let layout = ImageLayout::new(4096, 256);
    let text = list_text(alloc, image, layout)?;
    invert_byte(image, at);
    Ok(text.as_slice() == wanted.as_bytes())
}

#[test]
fn images_with_inverted_bytes_are_listed(rt: HostRuntime) -> Result<(), Fail> {
    let mut image = unusual_image(rt.alloc(), UnusualImage::Flipped(0, 0))?;
    let mut from = 0;
    for (to, text) in INVERTED {
        for at in from..to {
            assert!(rt;
                is_image_listed_with_inverted_byte(rt.alloc(), &mut image, at, text)?,
                "{at}"
            );
        }
        from = to;
    }
    Ok(())
}
