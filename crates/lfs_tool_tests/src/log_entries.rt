// Log entries and their contents, from which images are built.

use lfs_fixtures::BlockContents;

/// A log entry: its tag and its data.
pub(crate) type Entry = (u32, &'static [u8]);

// Addresses of metadata pairs.
pub(crate) const FIRST: &[u8] = &[0, 0, 0, 0, 1, 0, 0, 0];

pub(crate) const PAIR: &[u8] = &[2, 0, 0, 0, 3, 0, 0, 0];

pub(crate) const TURNED: &[u8] = &[3, 0, 0, 0, 2, 0, 0, 0];

pub(crate) const SAME: &[u8] = &[2, 0, 0, 0, 2, 0, 0, 0];

// Tags of tails and of the global state.
pub(crate) const SOFT_TAIL: u32 = 0x600f_fc08;

pub(crate) const HARD_TAIL: u32 = 0x601f_fc08;

pub(crate) const MOVE_STATE: u32 = 0x7fff_fc0c;

// Superblocks: a usual one, one with one block more, one with names of at most 32 bytes, and one of
// version 2.1.
pub(crate) const FIELDS: &[u8] = &[
    0, 0, 2, 0, 0, 16, 0, 0, 16, 0, 0, 0, 255, 0, 0, 0, 255, 255, 255, 127, 254, 3, 0, 0,
];

pub(crate) const LARGER: &[u8] = &[
    0, 0, 2, 0, 0, 16, 0, 0, 17, 0, 0, 0, 255, 0, 0, 0, 255, 255, 255, 127, 254, 3, 0, 0,
];

pub(crate) const SHORT_NAMES: &[u8] = &[
    0, 0, 2, 0, 0, 16, 0, 0, 16, 0, 0, 0, 32, 0, 0, 0, 255, 255, 255, 127, 254, 3, 0, 0,
];

pub(crate) const LATER_VERSION: &[u8] = &[
    1, 0, 2, 0, 0, 16, 0, 0, 16, 0, 0, 0, 255, 0, 0, 0, 255, 255, 255, 127, 254, 3, 0, 0,
];

// The name of a superblock, and its struct with these fields.
pub(crate) const SUPERBLOCK: Entry = (0x0ff0_0008, b"littlefs");

pub(crate) const PLAIN_FIELDS: Entry = (0x2010_0018, FIELDS);

pub(crate) const SHORT_FIELDS: Entry = (0x2010_0018, SHORT_NAMES);

pub(crate) const LATER_FIELDS: Entry = (0x2010_0018, LATER_VERSION);

// Names of files. The digit is the slot.
pub(crate) const A0: Entry = (0x0010_0001, b"a");

pub(crate) const B0: Entry = (0x0010_0001, b"b");

pub(crate) const A1: Entry = (0x0010_0401, b"a");

pub(crate) const B1: Entry = (0x0010_0401, b"b");

pub(crate) const AB1: Entry = (0x0010_0402, b"ab");

pub(crate) const A2: Entry = (0x0010_0801, b"a");

pub(crate) const B2: Entry = (0x0010_0801, b"b");

pub(crate) const AB2: Entry = (0x0010_0802, b"ab");

// Structs of files: empty inline files, and lists of three bytes in block 2.
pub(crate) const EMPTY0: Entry = (0x2010_0000, b"");

pub(crate) const EMPTY1: Entry = (0x2010_0400, b"");

pub(crate) const EMPTY2: Entry = (0x2010_0800, b"");

pub(crate) const EMPTY3: Entry = (0x2010_0c00, b"");

pub(crate) const LIST1: Entry = (0x2020_0408, PAIR);

pub(crate) const LIST2: Entry = (0x2020_0808, PAIR);

// Names of directories, and their structs, which point to the pair 2 3 or to the root's pair.
pub(crate) const D1: Entry = (0x0020_0401, b"d");

pub(crate) const E2: Entry = (0x0020_0801, b"e");

pub(crate) const D3: Entry = (0x0020_0c01, b"d");

pub(crate) const TO_PAIR1: Entry = (0x2000_0408, PAIR);

pub(crate) const TO_PAIR2: Entry = (0x2000_0808, PAIR);

pub(crate) const TO_PAIR3: Entry = (0x2000_0c08, PAIR);

pub(crate) const TO_ROOT1: Entry = (0x2000_0408, FIRST);

// Tails to the pair 2 3, which begins another directory or continues the same one.
pub(crate) const NEXT_PAIR: Entry = (SOFT_TAIL, PAIR);

pub(crate) const GOES_ON: Entry = (HARD_TAIL, PAIR);

/// A block of a pair without slots.
pub(crate) const EMPTY: BlockContents<'static> = BlockContents::Commit(&[]);
