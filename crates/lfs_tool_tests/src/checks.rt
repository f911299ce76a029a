// Images, and the lines that a check of each prints.

use crate::images::{BELOW, ENTRIES, LONGER_FIRST, SHORTER};
use crate::log_entries::{
    A0, A1, A2, AB1, AB2, B0, B1, B2, D1, E2, EMPTY, EMPTY0, EMPTY1, EMPTY2, EMPTY3, FIRST,
    GOES_ON, HARD_TAIL, LARGER, LATER_FIELDS, LIST1, LIST2, MOVE_STATE, NEXT_PAIR, PAIR,
    PLAIN_FIELDS, SAME, SHORT_FIELDS, SOFT_TAIL, SUPERBLOCK, TO_PAIR1, TO_ROOT1, TURNED,
};
use crate::texts::check_text;
use lfs_fixtures::BlockContents::{Bytes, Commit};
use lfs_fixtures::{BlockContents, FixtureEntries, image_with_commit};
use lfs_tool::ImageLayout;
use std::alloc::{AllocError, Global};
use std::test::Fail;

// Addresses of metadata pairs.
const NEXT: &[u8] = &[4, 0, 0, 0, 5, 0, 0, 0];

const FAR: &[u8] = &[2, 0, 0, 0, 16, 0, 0, 0];

// A superblock that states blocks of 8,192 bytes.
const LONG_BLOCKS: &[u8] = &[
    0, 0, 2, 0, 0, 32, 0, 0, 16, 0, 0, 0, 255, 0, 0, 0, 255, 255, 255, 127, 254, 3, 0, 0,
];

// An image, and the expected text. The image has a second commit in its first block, and some other
// blocks. The text is that of the whole check, or the line after `corrupt`.
type Row<'a> = (
    FixtureEntries<'a>,
    &'a [(usize, BlockContents<'a>)],
    &'a str,
);

pub(crate) const FRESH: &str =
    "ok\nfiles 0\ndirectories 0\nused 2 of 16 blocks\nfree 14\norder either\nrecover no\nwritable yes\n";

const ACCEPTED: [Row<'static>; 11] = [
    (&[], &[], FRESH),
    (
        ENTRIES,
        &[(2, BELOW)],
        "ok\nfiles 2\ndirectories 1\nused 4 of 16 blocks\nfree 12\norder either\nrecover no\nwritable yes\n",
    ),
    // names of which one is a prefix of the other
    (
        &[AB1, EMPTY1, A2, EMPTY2],
        &[],
        "ok\nfiles 2\ndirectories 0\nused 2 of 16 blocks\nfree 14\norder longer-first\nrecover no\nwritable yes\n",
    ),
    (
        &[A1, EMPTY1, AB2, EMPTY2],
        &[],
        "ok\nfiles 2\ndirectories 0\nused 2 of 16 blocks\nfree 14\norder shorter-first\nrecover no\nwritable yes\n",
    ),
    // an orphan, with the sync bit set
    (
        &[
            NEXT_PAIR,
            (MOVE_STATE, &[0, 0, 0, 0x80, 0, 0, 0, 0, 0, 0, 0, 0]),
        ],
        &[(2, EMPTY)],
        "ok\nfiles 0\ndirectories 0\nused 4 of 16 blocks\nfree 12\norder either\nrecover yes\nwritable yes\n",
    ),
    // another limit, an inline file of 600 bytes, an empty pair that continues the root directory,
    // and an entry whose attributes have many bytes
    (
        &[SHORT_FIELDS],
        &[],
        "ok\nfiles 0\ndirectories 0\nused 2 of 16 blocks\nfree 14\norder either\nrecover no\n\
        writable no: pair 0 1, slot 0: a superblock with other limits than the options give, name_max 32\n",
    ),
    (
        &[A1, (0x2010_0658, &[7; 600])],
        &[],
        "ok\nfiles 1\ndirectories 0\nused 2 of 16 blocks\nfree 14\norder either\nrecover no\n\
        writable no: pair 0 1, slot 1: more bytes inline than an eighth of a block\n",
    ),
    (
        &[GOES_ON],
        &[(2, EMPTY)],
        "ok\nfiles 0\ndirectories 0\nused 4 of 16 blocks\nfree 12\norder either\nrecover no\n\
        writable no: pair 2 3: no entry, but a directory goes on in it\n",
    ),
    (
        &[
            A1,
            EMPTY1,
            (0x3000_06bc, &[7; 700]),
            (0x3010_06bc, &[7; 700]),
        ],
        &[],
        "ok\nfiles 1\ndirectories 0\nused 2 of 16 blocks\nfree 14\norder either\nrecover no\n\
        writable no: a pair or an entry is larger than this library writes\n",
    ),
    // other limits, and an inline file of 600 bytes
    (
        &[SHORT_FIELDS, A1, (0x2010_0658, &[7; 600])],
        &[],
        "ok\nfiles 1\ndirectories 0\nused 2 of 16 blocks\nfree 14\norder either\nrecover no\n\
        writable no: pair 0 1, slot 0: a superblock with other limits than the options give, name_max 32\n",
    ),
    // an inline file of 600 bytes, after an empty pair
    (
        &[GOES_ON],
        &[
            (2, Commit(&[(HARD_TAIL, NEXT)])),
            (4, Commit(&[A0, (0x2010_0258, &[7; 600])])),
        ],
        "ok\nfiles 1\ndirectories 0\nused 6 of 16 blocks\nfree 10\norder either\nrecover no\n\
        writable no: pair 4 5, slot 0: more bytes inline than an eighth of a block\n",
    ),
];

const TWO_ORDERS: &str =
    "names in two orders: pair 0 1, slot 2: \"ab\" stands behind \"a\", and pair 0 1, slot 3: \"a\" stands behind \"ab\"";

const BAD_LIST: &str = "pair 0 1, slot 1: \"a\" has a list with a wrong size, block or pointer";

const NOT_REACHED: &str = "pair 2 3: no path leads to its directory, and the sync bit is clear";

// Images that break a rule, each with a second commit in its first block. The text is the line
// after `corrupt`.
const REFUSED: [(FixtureEntries<'static>, &str); 29] = [
    // the tail list
    (
        &[(SOFT_TAIL, FAR)],
        "pair 2 16: block 16 isn't in the image",
    ),
    (&[(SOFT_TAIL, SAME)], "pair 2 2: one block twice"),
    (&[(SOFT_TAIL, FIRST)], "block 0: in two pairs, 0 1 and 0 1"),
    (&[NEXT_PAIR], "pair 2 3: no commit with a right checksum"),
    (
        &[A1, EMPTY1, EMPTY3],
        "pair 0 1: its log has an entry that may not stand there",
    ),
    (
        &[A1, (0x3410_0400, b"")],
        "pair 0 1, slot 1: \"a\" has no struct",
    ),
    (&[(0x4010_0400, b"")], "pair 0 1, slot 1: no name"),
    // the superblock
    (
        &[(0x2010_0017, &[0; 23])],
        "pair 0 1, slot 0: no superblock's struct",
    ),
    (&[LATER_FIELDS], "pair 0 1, superblock: version 2.1"),
    (
        &[(0x2010_0018, LONG_BLOCKS)],
        "pair 0 1, superblock: block size 8192, given 4096",
    ),
    (
        &[(0x0010_0008, b"littlefs")],
        "superblock: the root directory doesn't begin with one",
    ),
    (
        &[(0x0ff0_0008, b"LITTLEFS")],
        "pair 0 1, slot 0: \"LITTLEFS\" isn't the name of a superblock",
    ),
    // entries
    (
        &[(0x0ff0_0408, b"littlefs"), EMPTY1],
        "pair 0 1, slot 1: \"littlefs\" is a second superblock",
    ),
    (
        &[A1, TO_PAIR1],
        "pair 0 1, slot 1: \"a\" has another kind's struct",
    ),
    (
        &[(0x0010_0403, b"a/\n"), EMPTY1],
        "pair 0 1, slot 1: \"a/\\x0a\" is no name",
    ),
    // a name after a greater one, a name twice, and a name in a slot that doesn't exist, which is
    // moved away
    (
        &[B1, EMPTY1, A2, EMPTY2],
        "pair 0 1, slot 2: \"a\" stands behind \"b\"",
    ),
    (
        &[A1, EMPTY1, A2, EMPTY2],
        "pair 0 1, slot 2: \"a\" stands behind \"a\"",
    ),
    (
        &[
            B1,
            EMPTY1,
            A2,
            EMPTY2,
            (0x0010_0c01, b"b"),
            EMPTY3,
            (MOVE_STATE, &[0, 8, 0xf0, 0x4f, 0, 0, 0, 0, 1, 0, 0, 0]),
        ],
        "pair 0 1, slot 3: \"b\" stands behind \"b\"",
    ),
    // an entry that points to a pair outside the tail list, and one that points to the root
    // directory, also before a name that is out of order
    (
        &[D1, TO_PAIR1],
        "pair 0 1, slot 1: \"d\" leads to pair 2 3, where no directory begins",
    ),
    (
        &[D1, TO_ROOT1],
        "pair 0 1, slot 1: \"d\" leads to the root directory",
    ),
    (
        &[D1, TO_ROOT1, A2, EMPTY2],
        "pair 0 1, slot 2: \"a\" stands behind \"d\"",
    ),
    // names of which one is a prefix of the other, in both orders: two files, and files with an
    // entry that points to the root directory but that no path reaches
    (
        &[A1, EMPTY1, AB2, EMPTY2, (0x0010_0c01, b"a"), EMPTY3],
        TWO_ORDERS,
    ),
    (
        &[
            A1,
            EMPTY1,
            AB2,
            EMPTY2,
            (0x0020_0c01, b"a"),
            (0x2000_0c08, FIRST),
        ],
        TWO_ORDERS,
    ),
    // a move of the superblock, and a slot number without a move
    (
        &[(MOVE_STATE, &[0, 0, 0xf0, 0x4f, 0, 0, 0, 0, 1, 0, 0, 0])],
        "global state: its move names no entry",
    ),
    (
        &[(MOVE_STATE, &[0, 4, 0, 0, 0, 0, 0, 0, 0, 0, 0, 0])],
        "global state: no move is set, but it names a slot",
    ),
    // a list whose head isn't in the image, an empty list, a list with a block of a pair, and two
    // lists with the same block
    (&[A1, (0x2020_0408, &[16, 0, 0, 0, 3, 0, 0, 0])], BAD_LIST),
    (&[A1, (0x2020_0408, &[2, 0, 0, 0, 0, 0, 0, 0])], BAD_LIST),
    (
        &[A1, (0x2020_0408, &[1, 0, 0, 0, 3, 0, 0, 0])],
        "block 1: in pair 0 1 and in a file, pair 0 1, slot 1: \"a\"",
    ),
    (
        &[A1, LIST1, B2, LIST2],
        "block 2: in two files, pair 0 1, slot 1: \"a\" and pair 0 1, slot 2: \"b\"",
    ),
];

// Images that break a rule and have other blocks as well.
const REFUSED_WITH_BLOCKS: [Row<'static>; 15] = [
    // the superblock chain
    (
        &[GOES_ON],
        &[(2, Commit(&[SUPERBLOCK, (0x2010_0018, LARGER)]))],
        "pair 2 3, superblock: block count 17, given 16",
    ),
    (
        &[GOES_ON],
        &[(2, Commit(&[SUPERBLOCK, SHORT_FIELDS]))],
        "pair 2 3, superblock: another one than in pair 0 1",
    ),
    // a name that is out of order in the next pair
    (
        &[B1, EMPTY1, GOES_ON],
        &[(2, Commit(&[A0, EMPTY0]))],
        "pair 2 3, slot 0: \"a\" stands behind \"b\"",
    ),
    // a name that is out of order in a directory below the root
    (
        &[D1, TO_PAIR1, NEXT_PAIR],
        &[(2, Commit(&[B0, EMPTY0, A1, EMPTY1]))],
        "pair 2 3, slot 1: \"a\" stands behind \"b\"",
    ),
    // an entry that points to a later pair of the root directory, and one that points to a pair
    // before the root directory
    (
        &[D1, (0x2000_0408, TURNED), GOES_ON],
        &[(2, BELOW)],
        "pair 0 1, slot 1: \"d\" leads to pair 3 2, where no directory begins",
    ),
    (
        &[],
        &[
            (0, Commit(&[GOES_ON])),
            (2, Commit(&[SUPERBLOCK, PLAIN_FIELDS, D1, TO_ROOT1])),
        ],
        "pair 2 3, slot 1: \"d\" leads to pair 0 1, where no directory begins",
    ),
    // an entry that points to another entry's directory, to its own directory, and to the root,
    // before which a name is out of order
    (
        &[D1, TO_PAIR1, E2, (0x2000_0808, TURNED), NEXT_PAIR],
        &[(2, BELOW)],
        "pair 0 1, slot 2: \"e\" leads to the same directory as pair 0 1, slot 1: \"d\"",
    ),
    (
        &[D1, TO_PAIR1, NEXT_PAIR],
        &[(2, Commit(&[(0x0020_0001, b"b"), (0x2000_0008, PAIR)]))],
        "pair 2 3, slot 0: \"b\" leads to the same directory as pair 0 1, slot 1: \"d\"",
    ),
    (
        &[D1, TO_PAIR1, E2, (0x2000_0808, FIRST), NEXT_PAIR],
        &[(2, Commit(&[B0, EMPTY0, A1, EMPTY1]))],
        "pair 0 1, slot 2: \"e\" leads to the root directory",
    ),
    // names in both orders, in two directories
    (
        LONGER_FIRST,
        &[(2, SHORTER)],
        "names in two orders: pair 2 3, slot 1: \"xy\" stands behind \"x\", and pair 0 1, slot 2: \"a\" stands behind \"ab\"",
    ),
    // names that are out of order in a directory that no entry points to, and a pair whose entry is
    // moved away
    (
        &[NEXT_PAIR],
        &[(2, Commit(&[B0, EMPTY0, A1, EMPTY1]))],
        NOT_REACHED,
    ),
    (
        &[
            D1,
            TO_PAIR1,
            NEXT_PAIR,
            (MOVE_STATE, &[0, 4, 0xf0, 0x4f, 0, 0, 0, 0, 1, 0, 0, 0]),
        ],
        &[(2, EMPTY)],
        NOT_REACHED,
    ),
    // a superblock in a slot that was a file's, and one that was created after an empty pair
    (
        &[],
        &[(0, Commit(&[(0x0010_0001, b"f"), SUPERBLOCK, PLAIN_FIELDS]))],
        "pair 0 1: its log doesn't begin with the superblock's name",
    ),
    (
        &[],
        &[
            (0, Commit(&[GOES_ON])),
            (2, Commit(&[(0x4010_0000, b""), SUPERBLOCK, PLAIN_FIELDS])),
        ],
        "pair 2 3: its log doesn't begin with the superblock's name",
    ),
    // a list that contains a block twice
    (
        &[A1, (0x2020_0408, &[2, 0, 0, 0, 0x88, 0x13, 0, 0])],
        &[(2, Bytes(&[2, 0, 0, 0]))],
        BAD_LIST,
    ),
];

// Returns whether the check of an image prints the expected text.
fn is_checked_as(alloc: Global, row: Row<'_>, is_accepted: bool) -> Result<bool, AllocError> {
    let (entries, others, wanted) = row;
    let image = image_with_commit(alloc, entries, others)?;
    let text = check_text(alloc, image.as_slice(), ImageLayout::new(4096, 256))?;
    if is_accepted {
        return Ok(text.as_slice() == wanted.as_bytes());
    }
    is_refusal(alloc, text.as_slice(), wanted)
}

// Returns whether a text says that an image is refused for the reason in this line.
fn is_refusal(alloc: Global, text: &[u8], line: &str) -> Result<bool, AllocError> {
    Ok(text == format!(in alloc; "corrupt\n{line}\n")?.as_bytes())
}

#[test]
fn accepted_images_are_checked(rt: HostRuntime) -> Result<(), Fail> {
    for row in ACCEPTED {
        assert!(rt; is_checked_as(rt.alloc(), row, true)?, "{:?}", row.2);
    }
    Ok(())
}

#[test]
fn refused_images_are_checked(rt: HostRuntime) -> Result<(), Fail> {
    for (entries, line) in REFUSED {
        assert!(rt;
            is_checked_as(rt.alloc(), (entries, &[], line), false)?,
            "{line:?}"
        );
    }
    Ok(())
}

#[test]
fn refused_images_with_blocks_are_checked(rt: HostRuntime) -> Result<(), Fail> {
    for row in REFUSED_WITH_BLOCKS {
        assert!(rt; is_checked_as(rt.alloc(), row, false)?, "{:?}", row.2);
    }
    Ok(())
}

// The number of bytes of a fresh image to keep, or to fill up with 0xff; the block size and the
// page size; and the line after `corrupt`.
const SIZES: [(usize, u32, u32, &str); 8] = [
    (65536, 8192, 256, "superblock: block size 4096, given 8192"),
    (65536, 1024, 128, "superblock: block size 4096, given 1024"),
    (8192, 4096, 256, "superblock: block count 16, given 2"),
    (69632, 4096, 256, "superblock: block count 16, given 17"),
    (4100, 4096, 256, "superblock: block count 16, given 1"),
    (
        40,
        4096,
        256,
        "no image of blocks of 4096 bytes and pages of 256 has a length of 40",
    ),
    (
        65536,
        0,
        256,
        "no image of blocks of 0 bytes and pages of 256 has a length of 65536",
    ),
    (
        0,
        4096,
        256,
        "no image of blocks of 4096 bytes and pages of 256 has a length of 0",
    ),
];

#[test]
fn sizes_are_checked(rt: HostRuntime) -> Result<(), Fail> {
    for (len, block_size, page, line) in SIZES {
        let mut image = image_with_commit(rt.alloc(), &[], &[])?;
        image.resize(len, 0xff)?;
        let layout = ImageLayout::new(block_size, page);
        let text = check_text(rt.alloc(), image.as_slice(), layout)?;
        assert!(rt; is_refusal(rt.alloc(), text.as_slice(), line)?, "{line}");
    }
    Ok(())
}
