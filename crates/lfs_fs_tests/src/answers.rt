// The expected replies of operations.

use lfs_device::Error;
use lfs_fs::{Gstate, Item as Listed, Kind, Op, Reply};

/// An entry's name, with a file's size or with None for a directory.
pub type ExpectedItem<'a> = (&'a [u8], Option<u32>);

/// The expected reply of an operation.
#[derive(Clone, Copy)]
pub enum ExpectedReply<'a> {
    Done,
    Fd(u32),
    Bytes(&'a [u8]),
    Count(u32),
    Items(&'a [ExpectedItem<'a>]),
    Gstate(Gstate),
    Refused(Error),
}

/// An operation and its expected reply.
pub type Row<'a> = (Op<'a>, ExpectedReply<'a>);

fn are_expected_items(items: &[Listed], rows: &[ExpectedItem<'_>]) -> bool {
    if items.len() != rows.len() {
        return false;
    }
    for (item, row) in items.iter().zip(rows) {
        let size = match item.kind {
            Kind::File => Some(item.size),
            Kind::Dir => None,
        };
        if item.name.as_slice() != row.0 || size != row.1 {
            return false;
        }
    }
    true
}

/// Returns whether a reply is the expected one.
pub fn is_expected_reply(reply: &Reply, answer: ExpectedReply<'_>) -> bool {
    match answer {
        ExpectedReply::Done => matches!(reply, Reply::Done),
        ExpectedReply::Fd(fd) => matches!(reply, Reply::Fd(found) if *found == fd),
        ExpectedReply::Bytes(bytes) => {
            matches!(reply, Reply::Bytes(found) if found.as_slice() == bytes)
        }
        ExpectedReply::Count(count) => matches!(reply, Reply::Count(found) if *found == count),
        ExpectedReply::Items(rows) => {
            matches!(reply, Reply::Items(items) if are_expected_items(items.as_slice(), rows))
        }
        ExpectedReply::Gstate(gstate) => matches!(reply, Reply::Gstate(found) if *found == gstate),
        ExpectedReply::Refused(error) => matches!(reply, Reply::Refused(found) if *found == error),
    }
}
