// The dirty range of an open file: the range of its bytes that may differ from the stored ones.

ghost use Rattle.std.specs.Prelude.{◌≡◌};
ghost use Rattle.lfs_volume.specs.DirtyRanges.{truncate_dirty_range, extend_dirty_range, resize_dirty_range};

/// The range `from..end` of an open file's bytes that may differ from the stored ones.
#[derive(Clone, Copy)]
pub struct DirtyRange {
    pub from: u32,
    pub end: u32,
}

// Returns the smallest dirty range that includes `dirty_range` and the bytes from `from` up to `end`.
pub(crate) fn extend_dirty_range(dirty_range: Option<DirtyRange>, from: u32, end: u32) -> DirtyRange
    ensures { result ≡ extend_dirty_range dirty_range from end }
{
    match dirty_range {
        Some(old) => DirtyRange {
            from: old.from.min(from),
            end: old.end.max(end),
        },
        None => DirtyRange { from, end },
    }
}

// Returns the dirty range after the contents are truncated to `size` bytes.
fn truncate_dirty_range(dirty_range: Option<DirtyRange>, size: u32) -> DirtyRange
    ensures { result ≡ truncate_dirty_range dirty_range size }
{
    match dirty_range {
        Some(old) => DirtyRange {
            from: old.from.min(size),
            end: old.end.min(size),
        },
        None => DirtyRange {
            from: size,
            end: size,
        },
    }
}

// Returns the dirty range after the contents are resized from `old` to `new` bytes.
pub(crate) fn resize_dirty_range(dirty_range: Option<DirtyRange>, old: u32, new: u32) -> DirtyRange
    ensures { result ≡ resize_dirty_range dirty_range old new }
{
    if old < new {
        extend_dirty_range(dirty_range, old, new)
    } else {
        truncate_dirty_range(dirty_range, new)
    }
}
