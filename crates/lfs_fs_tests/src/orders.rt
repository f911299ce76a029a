// Tests which order of names a remount detects.

use crate::answers::ExpectedReply::Done;
use crate::answers::Row;
use crate::row_runs::first_operation_with_wrong_reply;
use lfs_device::{Error, Geometry, RamDevice};
use lfs_fs::Op::{Mkdir, Remount, Remove};
use lfs_fs::{Session, format_ordered};
use lfs_model::NameOrder;
use std::alloc::Global;
use std::test::Fail;

// Returns a session on an empty image that puts shorter names first.
fn format_shorter_first(alloc: Global) -> Result<Session<RamDevice>, Error> {
    let device = RamDevice::blank(alloc, Geometry::new(1024, 128, 16)?)?;
    format_ordered(alloc, device, NameOrder::ShorterFirst).map_err(|(_, error)| error)
}

// Performs operations on a new image that puts shorter names first. Returns the session's order of
// names, or None if a reply isn't the expected one.
fn order_after_operations(alloc: Global, rows: &[Row<'_>]) -> Result<Option<NameOrder>, Error> {
    let mut session = format_shorter_first(alloc)?;
    let wrong = first_operation_with_wrong_reply(alloc, &mut session, rows)?;
    Ok(if wrong.is_none() {
        Some(session.order())
    } else {
        None
    })
}

#[test]
fn remount_finds_the_order_again(rt: HostRuntime) -> Result<(), Fail> {
    let alloc = rt.alloc();
    let longer = Ok(Some(NameOrder::LongerFirst));
    let shorter = Ok(Some(NameOrder::ShorterFirst));
    assert_eq!(rt; order_after_operations(alloc, &[]), shorter);
    // An image fits both orders if it has no names, or if none of its names begins with another
    // one.
    assert_eq!(rt; order_after_operations(alloc, &[(Remount, Done)]), longer);
    let one = [
        (Mkdir(b"/log"), Done),
        (Mkdir(b"/old"), Done),
        (Remount, Done),
    ];
    assert_eq!(rt; order_after_operations(alloc, &one), longer);
    // The image first has the shorter name before the longer one, and later after it.
    let both = [
        (Mkdir(b"/log"), Done),
        (Mkdir(b"/log.old"), Done),
        (Remount, Done),
    ];
    assert_eq!(rt; order_after_operations(alloc, &both), shorter);
    let none = [
        (Mkdir(b"/log"), Done),
        (Mkdir(b"/log.old"), Done),
        (Remove(b"/log"), Done),
        (Remount, Done),
        (Mkdir(b"/log"), Done),
        (Remount, Done),
    ];
    assert_eq!(rt; order_after_operations(alloc, &none), longer);
    Ok(())
}
