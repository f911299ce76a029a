// Readers and writers that fail in the middle of a stream, or that a signal interrupts.

use crate::images::shifting_block;
use crate::sources::memory_source_of_items;
use crate::texts::{create_of_source, with_error_line};
use lfs_device::{Error, Geometry};
use lfs_fixtures::image_with_pair;
use lfs_tool::{ImageLayout, Stream, ToolError, list, read_image};
use std::alloc::Global;
use std::io;
use std::io::{ErrorKind, Read, Write};
use std::test::Fail;

const LINES: &[u8] = b"f 0 /b\n";

const OUTPUT: &[u8] = b"error: output\n";

// A reader and writer that transfers at most `most` bytes in a call. The call with the number
// `fails_at` fails, and a flush counts as a call.
#[derive(Drop)]
struct FaultyRamDevice<'a> {
    left: &'a [u8],
    taken: Vec<u8>,
    most: usize,
    calls: u32,
    fails_at: u32,
    kind: ErrorKind,
}

impl FaultyRamDevice<'_> {
    fn count_call_or_fail(&mut self) -> io::Result<()> {
        self.calls = self.calls.saturating_add(1);
        if self.calls == self.fails_at {
            return Err(io::Error::from(self.kind));
        }
        Ok(())
    }
}

impl Read for FaultyRamDevice<'_> {
    fn read(&mut self, buf: &mut [u8]) -> io::Result<usize> {
        self.count_call_or_fail()?;
        let n = self.left.len().min(self.most);
        let mut part = &self.left[..n];
        let given = part.read(buf)?;
        self.left = &self.left[given.min(n)..];
        Ok(given)
    }
}

impl Write for FaultyRamDevice<'_> {
    fn write(&mut self, buf: &[u8]) -> io::Result<usize> {
        self.count_call_or_fail()?;
        let n = buf.len().min(self.most);
        self.taken.extend_from_slice(&buf[..n])?;
        Ok(n)
    }

    fn flush(&mut self) -> io::Result<()> {
        self.count_call_or_fail()
    }
}

fn stream_failing_at_call<'a>(
    alloc: Global,
    left: &'a [u8],
    most: usize,
    fails_at: u32,
    kind: ErrorKind,
) -> Stream<FaultyRamDevice<'a>> {
    Stream::new(FaultyRamDevice {
        left,
        taken: Vec::new(alloc),
        most,
        calls: 0,
        fails_at,
        kind,
    })
}

// The kind of an error, and whether it counts as a failure. A call that a signal interrupted is
// repeated.
const KINDS: [(ErrorKind, bool); 2] = [(ErrorKind::Other, true), (ErrorKind::Interrupted, false)];

// The number of bytes that each call reads, and the number of calls up to the end of 65,536 bytes.
const READERS: [(usize, u32); 2] = [(3000, 23), (30000, 4)];

#[test]
fn failing_readers_are_reported(rt: HostRuntime) -> Result<(), Fail> {
    let image = Vec::from_elem(rt.alloc(), b'x', 65536)?;
    for (kind, is_failure) in KINDS {
        for (most, calls) in READERS {
            for fails_at in 0..calls.saturating_add(3) {
                let left = image.as_slice();
                let mut reader = stream_failing_at_call(rt.alloc(), left, most, fails_at, kind);
                let read = read_image(rt.alloc(), &mut reader, 0);
                let fails = is_failure && (1..=calls).contains(&fails_at);
                let is_reported = match read {
                    Ok(bytes) => !fails && bytes.as_slice() == left,
                    Err(error) => fails && error == ToolError::Input,
                };
                let fault = if fails { Some(kind) } else { None };
                assert!(rt;
                    is_reported && reader.fault() == fault,
                    "{kind:?}, {most}, {fails_at}"
                );
            }
        }
    }
    Ok(())
}

// Whether an image is created rather than listed, the number of bytes that each call writes, the
// number of the call that fails, and the number of bytes written before it. The last call is the
// flush.
const WRITERS: [(bool, usize, u32, usize); 19] = [
    (false, 1, 1, 0),
    (false, 1, 2, 1),
    (false, 1, 3, 2),
    (false, 1, 4, 3),
    (false, 1, 5, 4),
    (false, 1, 6, 5),
    (false, 1, 7, 6),
    (false, 1, 8, 7),
    (false, 3, 1, 0),
    (false, 3, 2, 3),
    (false, 3, 3, 6),
    (false, 3, 4, 7),
    (true, 40000, 1, 0),
    (true, 40000, 2, 40000),
    (true, 40000, 3, 65536),
    (true, 4096, 2, 4096),
    (true, 1, 2, 1),
    (true, 65535, 2, 65535),
    (true, 65535, 3, 65536),
];

// Returns what is written before and after the failure. That is an empty image or the listing of
// `image`, and then the error line.
fn text_from_failing_writer(
    alloc: Global,
    image: &[u8],
    is_made: bool,
    writer: Stream<FaultyRamDevice<'_>>,
) -> Result<Vec<u8>, Error> {
    let mut writer = writer;
    let result = if is_made {
        let mut source = memory_source_of_items(alloc, &[])?;
        let geometry = Geometry::new(4096, 256, 16)?;
        create_of_source(alloc, &mut source, geometry, &mut writer, &mut ())
    } else {
        list(
            alloc,
            image.to_vec(alloc)?,
            ImageLayout::new(4096, 256),
            &mut writer,
        )
    };
    let text = with_error_line(alloc, writer.into_inner().taken, result)?;
    Ok(text)
}

// Returns whether the text is the first `len` bytes of `whole` and then the error line.
fn is_beginning_with_error_line(text: &[u8], whole: &[u8], len: usize) -> bool {
    match (text.split_at_checked(len), whole.get(..len)) {
        (Some((beginning, end)), Some(wanted)) => beginning == wanted && end == OUTPUT,
        _ => false,
    }
}

#[test]
fn failing_writers_are_reported(rt: HostRuntime) -> Result<(), Fail> {
    let block = shifting_block(rt.alloc())?;
    let image = image_with_pair(rt.alloc(), block.as_slice(), &[])?;
    for (is_made, most, fails_at, taken) in WRITERS {
        let plain = stream_failing_at_call(rt.alloc(), &[], most, 0, ErrorKind::Other);
        let whole = text_from_failing_writer(rt.alloc(), image.as_slice(), is_made, plain)?;
        assert!(rt; is_made || whole.as_slice() == LINES);
        for (kind, is_failure) in KINDS {
            let writer = stream_failing_at_call(rt.alloc(), &[], most, fails_at, kind);
            let text = text_from_failing_writer(rt.alloc(), image.as_slice(), is_made, writer)?;
            let is_reported = if is_failure {
                is_beginning_with_error_line(text.as_slice(), whole.as_slice(), taken)
            } else {
                text.as_slice() == whole.as_slice()
            };
            assert!(rt; is_reported, "{kind:?}, {is_made}, {most}, {fails_at}");
        }
    }
    Ok(())
}
