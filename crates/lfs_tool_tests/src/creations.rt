// Sources, images that are created from them, and the results of listing and unpacking these
// images.

use crate::sources::{Items, memory_source_of_items};
use crate::texts::{create_of_source, list_text, unpack_text, with_error_line};
use lfs_device::{Error, Geometry};
use lfs_tool::{ImageLayout, MemorySource, Stream};
use std::alloc::Global;
use std::test::Fail;

const NO_SPACE: &str = "error: NoSpace (28)\n";

const NAME_TOO_LONG: &str = "error: NameTooLong (36)\n";

// Returns whether creating the image of a source gives the expected result. The image is listed as
// `lines`, and if `actions` are given, they unpack it. If the creation fails, `lines` is the error
// line, and nothing is written before it.
fn is_made_image_as_expected(
    alloc: Global,
    source: MemorySource,
    geometry: Geometry,
    lines: &[u8],
    actions: Option<&[u8]>,
) -> Result<bool, Error> {
    let mut source = source;
    let mut out = Stream::new(Vec::new(alloc));
    let result = create_of_source(alloc, &mut source, geometry, &mut out, &mut ());
    let image = out.into_inner();
    if result.is_err() {
        return Ok(with_error_line(alloc, image, result)?.as_slice() == lines);
    }
    let layout = ImageLayout::new(geometry.block_size, geometry.page);
    let is_listed = list_text(alloc, image.as_slice(), layout)?.as_slice() == lines;
    let Some(actions) = actions else {
        return Ok(is_listed);
    };
    let done = unpack_text(alloc, image.as_slice(), layout)?;
    Ok(is_listed && done.as_slice() == actions)
}

// A file, and a folder with an empty file.
const FOLDER: Items<'static> = &[(b"/d/x", Some(b"")), (b"/d", None), (b"/a", Some(b"hello"))];

const LONG_NAME: &[u8] =
    b"/nnnnnnnnnnnnnnnnnnnnnnnnnnnnnnnnnnnnnnnnnnnnnnnnnnnnnnnnnnnnnnnnnnnnnnnnnnnnnnnnnnnnnnnnnnnnnnnnnnnnnnnnnnnnnnnnnnnnnnnnnnnnnnnnnnnnnnnnnnnnnnnnnnnnnnnnnnnnnnnnnnnnnnnnnnnnnnnnnnnnnnnnnnnnnnnnnnnnnnnnnnnnnnnnnnnnnnnnnnnnnnnnnnnnnnnnnnnnnnnnnnnnnnnnnnnnnnn";

const LONG_LINE: &str =
    "f 0 /nnnnnnnnnnnnnnnnnnnnnnnnnnnnnnnnnnnnnnnnnnnnnnnnnnnnnnnnnnnnnnnnnnnnnnnnnnnnnnnnnnnnnnnnnnnnnnnnnnnnnnnnnnnnnnnnnnnnnnnnnnnnnnnnnnnnnnnnnnnnnnnnnnnnnnnnnnnnnnnnnnnnnnnnnnnnnnnnnnnnnnnnnnnnnnnnnnnnnnnnnnnnnnnnnnnnnnnnnnnnnnnnnnnnnnnnnnnnnnnnnnnnnnnnnnnnnnn\n";

const LONGER_NAME: &[u8] =
    b"/nnnnnnnnnnnnnnnnnnnnnnnnnnnnnnnnnnnnnnnnnnnnnnnnnnnnnnnnnnnnnnnnnnnnnnnnnnnnnnnnnnnnnnnnnnnnnnnnnnnnnnnnnnnnnnnnnnnnnnnnnnnnnnnnnnnnnnnnnnnnnnnnnnnnnnnnnnnnnnnnnnnnnnnnnnnnnnnnnnnnnnnnnnnnnnnnnnnnnnnnnnnnnnnnnnnnnnnnnnnnnnnnnnnnnnnnnnnnnnnnnnnnnnnnnnnnnnnn";

// A source, the number of blocks, and the expected listing or error.
type Row = (Items<'static>, u32, &'static str);

// Sources for images with blocks of 4,096 bytes and pages of 256 bytes.
const SOURCES: [Row; 15] = [
    (&[], 2, ""),
    (&[(b"/a", Some(b"hello"))], 16, "f 5 /a\n"),
    (&[(b"/a", Some(&[7; 512]))], 16, "f 512 /a\n"),
    (&[(b"/a", Some(&[7; 513]))], 16, "f 513 /a\n"),
    (FOLDER, 16, "f 5 /a\nd 0 /d\nf 0 /d/x\n"),
    (
        &[(b"/d", None), (b"/d/b", Some(&[7; 10000]))],
        16,
        "d 0 /d\nf 10000 /d/b\n",
    ),
    (&[(b"/a", Some(b""))], 2, NO_SPACE),
    (&[(b"/a", Some(b""))], 3, NO_SPACE),
    (&[(b"/d", None)], 5, NO_SPACE),
    (&[(b"/d", None)], 6, "d 0 /d\n"),
    // A list of 14 blocks in addition to the first two blocks. Two more are in use until the file
    // is closed.
    (&[(b"/a", Some(&[7; 57000]))], 18, "f 57000 /a\n"),
    (&[(b"/a", Some(&[7; 57000]))], 17, NO_SPACE),
    // the longest name, and a name that is one byte too long
    (&[(LONG_NAME, Some(b""))], 16, LONG_LINE),
    (&[(LONGER_NAME, Some(b""))], 16, NAME_TOO_LONG),
    // The whole source is read before anything is refused.
    (
        &[(b"/d", None), (b"/a", Some(b"")), (b"/d/..", Some(b""))],
        2,
        "error: input\n",
    ),
];

// The listing of the folder's image, and the actions that unpack it.
const LINES: &[u8] = b"f 5 /a\nd 0 /d\nf 0 /d/x\n";

const ACTIONS: &[u8] = b"f /a hello\nd /d\nf /d/x \n";

const BYTES: Option<&[u8]> = Some(&[0; 128]);

// Seven files, of which six fill two pairs in an image of four blocks.
const SEVEN: Items<'static> = &[
    (b"/a", BYTES),
    (b"/b", BYTES),
    (b"/c", BYTES),
    (b"/d", BYTES),
    (b"/e", BYTES),
    (b"/f", BYTES),
    (b"/g", Some(b"")),
];

// Sources for images with blocks of 1,024 bytes and pages of 128 bytes. A pair has space for 857
// bytes: 40 for the superblock, and for each file 9 plus the length of the file.
const SMALL: [Row; 4] = [
    (
        &[
            (b"/a", BYTES),
            (b"/b", BYTES),
            (b"/c", BYTES),
            (b"/d", BYTES),
            (b"/e", BYTES),
            (b"/f", Some(&[0; 123])),
        ],
        4,
        "f 128 /a\nf 128 /b\nf 128 /c\nf 128 /d\nf 128 /e\nf 123 /f\n",
    ),
    (
        &[
            (b"/a", BYTES),
            (b"/b", BYTES),
            (b"/c", BYTES),
            (b"/d", BYTES),
            (b"/e", BYTES),
            (b"/f", Some(&[0; 124])),
        ],
        4,
        "f 128 /a\nf 128 /b\nf 128 /c\nf 128 /d\nf 128 /e\nf 124 /f\n",
    ),
    (SEVEN, 4, NO_SPACE),
    (
        SEVEN,
        6,
        "f 128 /a\nf 128 /b\nf 128 /c\nf 128 /d\nf 128 /e\nf 128 /f\nf 0 /g\n",
    ),
];

// The block size, the page size, and the sources for images with these sizes.
const MADE: [(u32, u32, &[Row]); 2] = [(4096, 256, &SOURCES), (1024, 128, &SMALL)];

#[test]
fn images_are_made(rt: HostRuntime) -> Result<(), Fail> {
    for (block_size, page, rows) in MADE {
        for (items, blocks, text) in rows {
            let source = memory_source_of_items(rt.alloc(), items)?;
            let geometry = Geometry::new(block_size, page, *blocks)?;
            let comes_back = is_made_image_as_expected(
                rt.alloc(),
                source,
                geometry,
                text.as_bytes(),
                None,
            )?;
            assert!(rt; comes_back, "{text}");
        }
    }
    let source = memory_source_of_items(rt.alloc(), FOLDER)?;
    let geometry = Geometry::new(4096, 256, 16)?;
    assert!(rt; is_made_image_as_expected(rt.alloc(), source, geometry, LINES, Some(ACTIONS))?);
    Ok(())
}

// The first 52 bytes of an empty image with 16 blocks of 4,096 bytes. All other bytes are 0xff.
const FRESH: [u8; 52] = [
    0x01, 0, 0, 0, 0xf0, 0x0f, 0xff, 0xf7, 0x6c, 0x69, 0x74, 0x74, 0x6c, 0x65, 0x66, 0x73, 0x2f,
    0xe0, 0x00, 0x10, 0, 0, 0x02, 0, 0, 0x10, 0, 0, 0x10, 0, 0, 0, 0xff, 0, 0, 0, 0xff, 0xff, 0xff,
    0x7f, 0xfe, 0x03, 0, 0, 0x70, 0x1f, 0xfc, 0xc8, 0x4a, 0x7f, 0x27, 0xf3,
];

#[test]
fn an_image_has_these_bytes(rt: HostRuntime) -> Result<(), Fail> {
    let mut source = memory_source_of_items(rt.alloc(), &[])?;
    let mut out = Stream::new(Vec::new(rt.alloc()));
    let geometry = Geometry::new(4096, 256, 16)?;
    let result = create_of_source(rt.alloc(), &mut source, geometry, &mut out, &mut ());
    let mut wanted = Vec::from_slice(rt.alloc(), &FRESH)?;
    wanted.resize(65536, 0xff)?;
    assert!(rt; result == Ok(()) && out.inner().as_slice() == wanted.as_slice());
    Ok(())
}
