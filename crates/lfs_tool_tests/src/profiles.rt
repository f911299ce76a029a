// Images with other versions and limits, and the creation of images with other limits.

use crate::checks::FRESH;
use crate::log_entries::{A1, GOES_ON, LATER_FIELDS, PLAIN_FIELDS, SHORT_FIELDS, SUPERBLOCK};
use crate::sources::{Items, memory_source_of_items};
use crate::texts::{check_text, create_of_source, list_text, unpack_text, with_error_line};
use lfs_device::{AcceptedVersions, Error, Geometry, Profile};
use lfs_fixtures::BlockContents::{Bytes, Commit};
use lfs_fixtures::{BlockContents, FixtureEntries, image_with_commit};
use lfs_tool::{ImageLayout, Stream};
use std::alloc::{AllocError, Global};
use std::test::Fail;

// The default profile, and the same profile with version 2.1 also accepted.
const DEFAULT: Profile = Profile {
    versions: AcceptedVersions::OnlyTwoZero,
    name_max: 255,
    file_max: 2_147_483_647,
    attr_max: 1022,
    inline_max: 1022,
    pair_cycles: 0,
    search_seed: 0,
};

const ALSO: Profile = Profile {
    versions: AcceptedVersions::AlsoTwoOne,
    ..DEFAULT
};

// Profiles with names of at most 32 bytes, and with inline files of at most 64 bytes.
const SHORT: Profile = Profile {
    name_max: 32,
    ..DEFAULT
};

const SMALL: Profile = Profile {
    inline_max: 64,
    ..DEFAULT
};

// Superblocks of version 2.2, and with smaller limits for files and attributes.
const NO_VERSION: &[u8] = &[
    2, 0, 2, 0, 0, 16, 0, 0, 16, 0, 0, 0, 255, 0, 0, 0, 255, 255, 255, 127, 254, 3, 0, 0,
];

const SHORT_FILES: &[u8] = &[
    0, 0, 2, 0, 0, 16, 0, 0, 16, 0, 0, 0, 255, 0, 0, 0, 0, 1, 0, 0, 254, 3, 0, 0,
];

const SHORT_ATTRIBUTES: &[u8] = &[
    0, 0, 2, 0, 0, 16, 0, 0, 16, 0, 0, 0, 255, 0, 0, 0, 255, 255, 255, 127, 100, 0, 0, 0,
];

// A first block that littlefs has compacted, so that a file comes between the superblock's name and
// its struct.
const COMPACTED: BlockContents<'static> = Commit(&[
    SUPERBLOCK,
    A1,
    (0x2010_041c, b"twenty-eight bytes are in it"),
    LATER_FIELDS,
]);

// A superblock of version 2.1 with three other limits.
const OTHER_NUMBERS: &[u8] = &[
    1, 0, 2, 0, 0, 16, 0, 0, 16, 0, 0, 0, 64, 0, 0, 0, 0, 1, 0, 0, 100, 0, 0, 0,
];

// The first two blocks of an image that littlefs 2.11 has changed. A file was created in version
// 2.0 and written twice in version 2.1. Both times the pair was compacted.
const FIRMWARE_FIRST: &[u8] =
    b"\x02\0\0\0\xf0\x0f\xff\xf7littlefs\x0f\xe0\x04\x09a \0\0\x1dxxxxxxxxxxxxxxxxxxxxxxxxxxxx\0\0\x04\x04\
    \x01\0\x02\0\0\x10\0\0\x10\0\0\0\xff\0\0\0\xff\xff\xff\x7f\xfe\x03\0\0\
    \x7f\xef\xfc\x10\x10\0\0\0\xe59L\xc0\x0f\xf0\0\x07\x13W\xe4\x1b\xff\xff\xff\xff\xff\xff\xff\xff\xff\xff\xff\
    p\x1f\xf8\x13yyyyyyyyyyyyyyyyyyyyyyyyyyyy\x7f\xef\xf8\x14\x10\0\0\0\xe59L\xc0\x0f\xf0\0\x18\xcb\xd9\xed!";

const FIRMWARE_SECOND: &[u8] = b"\x03\0\0\0\xf0\x0f\xff\xf7littlefs\x0f\xe0\x04\x09a \0\x04\x19\
    \x01\0\x02\0\0\x10\0\0\x10\0\0\0\xff\0\0\0\xff\xff\xff\x7f\xfe\x03\0\0\0\0\x04\x04\
    zzzzzzzzzzzzzzzzzzzzzzzzzzzz\x7f\xef\xf8\x14 \0\0\0\xf4T\x93\0\x0f\xf0\0\x17-\xcf\xe9\x16";

// The first two blocks of an image that littlefs 2.11 has formatted in version 2.1.
const FORMATTED_FIRST: &[u8] =
    b"\0\0\0\0\xf0\x0f\xff\xf7littlefs/\xe0\0\x10\x01\0\x02\0\0\x10\0\0\x10\0\0\0\xff\0\0\0\xff\xff\xff\x7f\xfe\x03\0\0\
    \x7f\xef\xfc\x10\0\x01\0\0\xdeWW\x01\x0f\xf0\0\xcc\x89\x1e\xc4\x82";

const FORMATTED_SECOND: &[u8] =
    b"\x01\0\0\0\xf0\x0f\xff\xf7littlefs/\xe0\0\x10\x01\0\x02\0\0\x10\0\0\x10\0\0\0\xff\0\0\0\xff\xff\xff\x7f\xfe\x03\0\0\
    \x7f\xef\xfc\x10\0\x01\0\0\xdeWW\x01\x0f\xf0\0\xcc\x06\x90\x17H";

const FIRMWARE_BLOCKS: &[(usize, BlockContents<'static>)] = &[
    (0, Bytes(FIRMWARE_FIRST)),
    (1, Bytes(FIRMWARE_SECOND)),
];

const FORMATTED_BLOCKS: &[(usize, BlockContents<'static>)] = &[
    (0, Bytes(FORMATTED_FIRST)),
    (1, Bytes(FORMATTED_SECOND)),
];

// The second pair of a superblock chain, with a superblock of version 2.1, of version 2.0, or with
// another limit.
const LATER_ROOT: &[(usize, BlockContents<'static>)] = &[(2, Commit(&[SUPERBLOCK, LATER_FIELDS]))];

const PLAIN_ROOT: &[(usize, BlockContents<'static>)] = &[(2, Commit(&[SUPERBLOCK, PLAIN_FIELDS]))];

const OTHER_ROOT: &[(usize, BlockContents<'static>)] = &[(2, Commit(&[SUPERBLOCK, SHORT_FIELDS]))];

// An image, a profile, and the lines of the check. The image has a second commit in its first
// block, and some other blocks.
type Row<'a> = (
    FixtureEntries<'a>,
    &'a [(usize, BlockContents<'a>)],
    Profile,
    &'a str,
);

// The lines for an image of version 2.1 with a file.
const LATER_FILE: &str =
    "ok\nfiles 1\ndirectories 0\nused 2 of 16 blocks\nfree 14\norder either\nversion 2.1\nrecover no\nwritable yes\n";

const CHECKED: [Row<'static>; 23] = [
    // versions
    (&[], &[], ALSO, FRESH),
    (
        &[LATER_FIELDS],
        &[],
        ALSO,
        "ok\nfiles 0\ndirectories 0\nused 2 of 16 blocks\nfree 14\norder either\nversion 2.1\nrecover no\nwritable yes\n",
    ),
    (
        &[LATER_FIELDS],
        &[],
        DEFAULT,
        "corrupt\npair 0 1, superblock: version 2.1\n",
    ),
    (
        &[(0x2010_0018, NO_VERSION)],
        &[],
        ALSO,
        "corrupt\npair 0 1, superblock: version 2.2\n",
    ),
    // superblocks that differ in more than their version
    (
        &[GOES_ON],
        LATER_ROOT,
        ALSO,
        "ok\nfiles 0\ndirectories 0\nused 4 of 16 blocks\nfree 12\norder either\nversion 2.1\nrecover no\nwritable yes\n",
    ),
    (
        &[LATER_FIELDS, GOES_ON],
        PLAIN_ROOT,
        ALSO,
        "ok\nfiles 0\ndirectories 0\nused 4 of 16 blocks\nfree 12\norder either\nrecover no\nwritable yes\n",
    ),
    (
        &[GOES_ON],
        LATER_ROOT,
        DEFAULT,
        "corrupt\npair 2 3, superblock: version 2.1\n",
    ),
    (
        &[GOES_ON],
        OTHER_ROOT,
        ALSO,
        "corrupt\npair 2 3, superblock: another one than in pair 0 1\n",
    ),
    // a superblock whose struct doesn't follow its name
    (
        &[],
        &[(0, COMPACTED)],
        DEFAULT,
        "corrupt\npair 0 1, superblock: version 2.1\n",
    ),
    (&[], &[(0, COMPACTED)], ALSO, LATER_FILE),
    (
        &[],
        FIRMWARE_BLOCKS,
        DEFAULT,
        "corrupt\npair 0 1, superblock: version 2.1\n",
    ),
    (&[], FIRMWARE_BLOCKS, ALSO, LATER_FILE),
    (
        &[],
        FORMATTED_BLOCKS,
        DEFAULT,
        "corrupt\nsuperblock: version 2.1\n",
    ),
    (
        &[],
        FORMATTED_BLOCKS,
        ALSO,
        "ok\nfiles 0\ndirectories 0\nused 2 of 16 blocks\nfree 14\norder either\nversion 2.1\nrecover no\nwritable yes\n",
    ),
    // limits
    (
        &[SHORT_FIELDS],
        &[],
        SHORT,
        "ok\nfiles 0\ndirectories 0\nused 2 of 16 blocks\nfree 14\norder either\nname_max 32\nrecover no\nwritable yes\n",
    ),
    (
        &[(0x2010_0018, SHORT_FILES)],
        &[],
        ALSO,
        "ok\nfiles 0\ndirectories 0\nused 2 of 16 blocks\nfree 14\norder either\nfile_max 256\nrecover no\n\
        writable no: pair 0 1, slot 0: a superblock with other limits than the options give, file_max 256\n",
    ),
    (
        &[(0x2010_0018, OTHER_NUMBERS)],
        &[],
        ALSO,
        "ok\nfiles 0\ndirectories 0\nused 2 of 16 blocks\nfree 14\norder either\n\
        version 2.1\nname_max 64\nfile_max 256\nattr_max 100\nrecover no\n\
        writable no: pair 0 1, slot 0: a superblock with other limits than the options give, name_max 64\n",
    ),
    (
        &[],
        &[],
        SHORT,
        "ok\nfiles 0\ndirectories 0\nused 2 of 16 blocks\nfree 14\norder either\nrecover no\n\
        writable no: pair 0 1, slot 0: a superblock with other limits than the options give, name_max 255\n",
    ),
    (
        &[(0x2010_0018, SHORT_FILES)],
        &[],
        DEFAULT,
        "ok\nfiles 0\ndirectories 0\nused 2 of 16 blocks\nfree 14\norder either\nrecover no\n\
        writable no: pair 0 1, slot 0: a superblock with other limits than the options give, file_max 256\n",
    ),
    (
        &[(0x2010_0018, SHORT_ATTRIBUTES)],
        &[],
        DEFAULT,
        "ok\nfiles 0\ndirectories 0\nused 2 of 16 blocks\nfree 14\norder either\nrecover no\n\
        writable no: pair 0 1, slot 0: a superblock with other limits than the options give, attr_max 100\n",
    ),
    (
        &[A1, (0x2010_0440, &[7; 64])],
        &[],
        SMALL,
        "ok\nfiles 1\ndirectories 0\nused 2 of 16 blocks\nfree 14\norder either\nrecover no\nwritable yes\n",
    ),
    (
        &[A1, (0x2010_0441, &[7; 65])],
        &[],
        SMALL,
        "ok\nfiles 1\ndirectories 0\nused 2 of 16 blocks\nfree 14\norder either\nrecover no\n\
        writable no: pair 0 1, slot 1: more bytes inline than inline_max 64\n",
    ),
    (
        &[A1, (0x2010_0601, &[7; 513])],
        &[],
        ALSO,
        "ok\nfiles 1\ndirectories 0\nused 2 of 16 blocks\nfree 14\norder either\nrecover no\n\
        writable no: pair 0 1, slot 1: more bytes inline than an eighth of a block\n",
    ),
];

// Returns whether checking an image with the profile gives the expected lines.
fn has_expected_check_text(alloc: Global, row: Row<'_>) -> Result<bool, AllocError> {
    let (entries, others, profile, wanted) = row;
    let image = image_with_commit(alloc, entries, others)?;
    let layout = ImageLayout::new(4096, 256).with_profile(profile);
    let text = check_text(alloc, image.as_slice(), layout)?;
    Ok(text.as_slice() == wanted.as_bytes())
}

#[test]
fn profiles_are_checked(rt: HostRuntime) -> Result<(), Fail> {
    for row in CHECKED {
        assert!(rt; has_expected_check_text(rt.alloc(), row)?, "{:?}", row.3);
    }
    Ok(())
}

// Returns whether an image of version 2.1 with a file is listed and unpacked as expected.
fn is_later_image_read_as(
    alloc: Global,
    profile: Profile,
    listed: &str,
    unpacked: &str,
) -> Result<bool, AllocError> {
    let image = image_with_commit(alloc, &[], &[(0, COMPACTED)])?;
    let layout = ImageLayout::new(4096, 256).with_profile(profile);
    let list = list_text(alloc, image.as_slice(), layout)?;
    let done = unpack_text(alloc, image.as_slice(), layout)?;
    Ok(list.as_slice() == listed.as_bytes() && done.as_slice() == unpacked.as_bytes())
}

#[test]
fn later_version_is_read_where_asked(rt: HostRuntime) -> Result<(), Fail> {
    let corrupt = "error: Corrupt (84)\n";
    assert!(rt; is_later_image_read_as(rt.alloc(), DEFAULT, corrupt, corrupt)?);
    assert!(rt;
        is_later_image_read_as(
            rt.alloc(),
            ALSO,
            "f 28 /a\n",
            "f /a twenty-eight bytes are in it\n",
        )?
    );
    Ok(())
}

const NAME_TOO_LONG: &str = "error: NameTooLong (36)\n";

const TOO_BIG: &str = "error: TooBig (27)\n";

// A profile with files of at most 1,000 bytes.
const SHORT_FILE: Profile = Profile {
    file_max: 1000,
    ..DEFAULT
};

// Names of 32 and 33 bytes.
const NAME_32: &[u8] = b"/nnnnnnnnnnnnnnnnnnnnnnnnnnnnnnnn";

const NAME_33: &[u8] = b"/nnnnnnnnnnnnnnnnnnnnnnnnnnnnnnnnn";

// A source, a profile, and the expected result: the error of the creation, or the lines of a check
// of the image.
const MADE: [(Items<'static>, Profile, &str); 9] = [
    (
        &[(NAME_32, Some(b""))],
        SHORT,
        "ok\nfiles 1\ndirectories 0\nused 2 of 16 blocks\nfree 14\norder either\nname_max 32\nrecover no\nwritable yes\n",
    ),
    (&[(NAME_33, Some(b""))], SHORT, NAME_TOO_LONG),
    (&[(NAME_33, None)], SHORT, NAME_TOO_LONG),
    (
        &[(NAME_33, Some(b""))],
        SMALL,
        "ok\nfiles 1\ndirectories 0\nused 2 of 16 blocks\nfree 14\norder either\nrecover no\nwritable yes\n",
    ),
    (
        &[(b"/a", Some(&[7; 1000]))],
        SHORT_FILE,
        "ok\nfiles 1\ndirectories 0\nused 3 of 16 blocks\nfree 13\norder either\nfile_max 1000\nrecover no\nwritable yes\n",
    ),
    (&[(b"/a", Some(&[7; 1001]))], SHORT_FILE, TOO_BIG),
    // the largest inline file, and a larger file, which needs a block
    (
        &[(b"/a", Some(&[7; 64]))],
        SMALL,
        "ok\nfiles 1\ndirectories 0\nused 2 of 16 blocks\nfree 14\norder either\nrecover no\nwritable yes\n",
    ),
    (
        &[(b"/a", Some(&[7; 65]))],
        SMALL,
        "ok\nfiles 1\ndirectories 0\nused 3 of 16 blocks\nfree 13\norder either\nrecover no\nwritable yes\n",
    ),
    // an image of version 2.0, which is created even if version 2.1 is accepted
    (
        &[(b"/a", Some(&[7; 512]))],
        ALSO,
        "ok\nfiles 1\ndirectories 0\nused 2 of 16 blocks\nfree 14\norder either\nrecover no\nwritable yes\n",
    ),
];

// Creates an image of a source with the profile, and checks it with the same limits. Returns the
// lines of the check, or the error of the creation.
fn text_of_made_image(alloc: Global, items: Items<'_>, profile: Profile) -> Result<Vec<u8>, Error> {
    let mut source = memory_source_of_items(alloc, items)?;
    let geometry = Geometry::new(4096, 256, 16)?.with_profile(profile);
    let mut out = Stream::new(Vec::new(alloc));
    let result = create_of_source(alloc, &mut source, geometry, &mut out, &mut ());
    let image = out.into_inner();
    if result.is_err() {
        let text = with_error_line(alloc, image, result)?;
        return Ok(text);
    }
    let limits = Profile {
        versions: AcceptedVersions::OnlyTwoZero,
        ..profile
    };
    let layout = ImageLayout::new(4096, 256).with_profile(limits);
    let text = check_text(alloc, image.as_slice(), layout)?;
    Ok(text)
}

#[test]
fn images_are_made_with_limits(rt: HostRuntime) -> Result<(), Fail> {
    for (items, profile, wanted) in MADE {
        let text = text_of_made_image(rt.alloc(), items, profile)?;
        assert!(rt; text.as_slice() == wanted.as_bytes(), "{wanted}");
    }
    Ok(())
}
