// The progress that tasks report.

use crate::images::{BELOW, ENTRIES};
use crate::sources::memory_source_of_items;
use crate::texts::create_of_source;
use lfs_device::{Error, Geometry};
use lfs_fixtures::image_with_commit;
use lfs_tool::{FilesAndBytes, FollowsProgress, ImageLayout, MemoryTarget, Stream, unpack};
use std::alloc::{AllocError, Global};
use std::test::Fail;

// Records the reported progress, the totals first.
#[derive(Drop)]
struct RecordedProgress {
    amounts: Vec<FilesAndBytes>,
    is_full: bool,
}

impl FollowsProgress for RecordedProgress {
    fn begin(&mut self, whole: FilesAndBytes) {
        self.add(whole);
    }

    fn add(&mut self, more: FilesAndBytes) {
        self.is_full = self.amounts.push(more).is_err();
    }
}

fn new_recorded_progress(alloc: Global) -> RecordedProgress {
    RecordedProgress {
        amounts: Vec::new(alloc),
        is_full: false,
    }
}

// Returns whether the recorded progress is as expected: the totals of files and bytes, and those of
// each entry.
fn is_recorded_progress(told: &RecordedProgress, wanted: &[(usize, usize)]) -> bool {
    let is_same = told.amounts.iter().zip(wanted).all(|(amount, (files, bytes))| amount.files
        == *files
        && amount.bytes == *bytes);
    is_same && told.amounts.len() == wanted.len() && !told.is_full
}

// Returns the progress of creating an image of two files and a folder.
fn progress_of_making_image(alloc: Global) -> Result<RecordedProgress, Error> {
    let mut source = memory_source_of_items(
        alloc,
        &[
            (b"/a", Some(b"hello")),
            (b"/d", None),
            (b"/d/x", Some(b"hi")),
        ],
    )?;
    let mut out = Stream::new(Vec::new(alloc));
    let mut told = new_recorded_progress(alloc);
    let geometry = Geometry::new(4096, 256, 16)?;
    let _ = create_of_source(alloc, &mut source, geometry, &mut out, &mut told);
    Ok(told)
}

// Returns the progress of unpacking an image.
fn progress_of_unpacking_image(alloc: Global) -> Result<RecordedProgress, AllocError> {
    let image = image_with_commit(alloc, ENTRIES, &[(2, BELOW)])?;
    let mut target = MemoryTarget {
        done: Vec::new(alloc),
    };
    let mut told = new_recorded_progress(alloc);
    let layout = ImageLayout::new(4096, 256);
    let _ = unpack(alloc, image, layout, &mut target, &mut told);
    Ok(told)
}

#[test]
fn progress_counts_are_reported(rt: HostRuntime) -> Result<(), Fail> {
    let made = progress_of_making_image(rt.alloc())?;
    assert!(rt; is_recorded_progress(&made, &[(2, 7), (1, 5), (0, 0), (1, 2)]));
    let unpacked = progress_of_unpacking_image(rt.alloc())?;
    assert!(rt; is_recorded_progress(&unpacked, &[(2, 5), (1, 5), (0, 0), (1, 0)]));
    Ok(())
}
