// A script of operations, and the expected tree after each of them.

use crate::answers::ExpectedReply::{Bytes, Count, Done, Fd, Gstate as GstateIs, Items, Refused};
use crate::answers::{ExpectedReply, Row};
use crate::row_runs::first_operation_with_wrong_reply;
use lfs_device::{BlockDevice, Error};
use lfs_fs::Op::{
    Close, GetAttr, Gstate as AskGstate, List, Mkdir, Open, Read, Recover, Remove, Rename, Seek,
    SetAttr, UsedCount, Write,
};
use lfs_fs::{Gstate, OpenFlags, Session};
use std::alloc::Global;

/// The number of operations in the long script.
pub const LENGTH: usize = 14;

const READ: OpenFlags = OpenFlags::READ;

/// A tree, described by operations and their expected replies. The second field is the number of
/// used blocks, or None if any number is allowed.
pub type ExpectedTree<'a> = (&'a [Row<'a>], Option<u32>);

/// Operations and the trees that they lead to. `behind[n]` is the index of the tree after `n`
/// operations.
#[derive(Clone, Copy)]
pub struct Script<'a> {
    pub rows: &'a [Row<'a>],
    pub trees: &'a [ExpectedTree<'a>],
    pub behind: &'a [usize],
}

/// Returns operations that make a file of five blocks, write to it out of order, add an attribute,
/// move the file out of its directory, and remove the directory.
pub fn operations_of_long_script(new: OpenFlags) -> [Row<'static>; LENGTH] {
    [
        (Mkdir(b"/d"), Done),
        (Open(b"/d/f", new), Fd(0)),
        (Write(0, &[b'a'; 5000]), Count(5000)),
        (Seek(0, 10), Done),
        (Write(0, b"b"), Count(1)),
        (Close(0), Done),
        (SetAttr(b"/d/f", 0x41, b"x"), Done),
        (Rename(b"/d/f", b"/g"), Done),
        (Remove(b"/d"), Done),
        (List(b"/"), Items(&[(b"g", Some(5000))])),
        (Open(b"/g", READ), Fd(0)),
        (Read(0, 12), Bytes(b"aaaaaaaaaaba")),
        (Close(0), Done),
        (UsedCount, Count(7)),
    ]
}

const NO_ATTR: ExpectedReply<'static> = Refused(Error::NoAttr);

const ONLY_D: ExpectedReply<'static> = Items(&[(b"d", None)]);

const ONLY_F: ExpectedReply<'static> = Items(&[(b"f", Some(5000))]);

const TREES: &[ExpectedTree<'static>] = &[
    (&[(List(b"/"), Items(&[]))], Some(2)),
    (&[(List(b"/"), ONLY_D), (List(b"/d"), Items(&[]))], Some(4)),
    (
        &[
            (List(b"/"), ONLY_D),
            (List(b"/d"), Items(&[(b"f", Some(0))])),
        ],
        Some(4),
    ),
    (
        &[
            (List(b"/"), ONLY_D),
            (List(b"/d"), ONLY_F),
            (GetAttr(b"/d/f", 0x41), NO_ATTR),
            (Open(b"/d/f", READ), Fd(0)),
            (Read(0, 12), Bytes(b"aaaaaaaaaaba")),
            (Close(0), Done),
        ],
        Some(9),
    ),
    (
        &[
            (List(b"/"), ONLY_D),
            (List(b"/d"), ONLY_F),
            (GetAttr(b"/d/f", 0x41), Bytes(b"x")),
        ],
        Some(9),
    ),
    (
        &[
            (List(b"/"), Items(&[(b"d", None), (b"g", Some(5000))])),
            (List(b"/d"), Items(&[])),
            (GetAttr(b"/g", 0x41), Bytes(b"x")),
        ],
        Some(9),
    ),
    (
        &[
            (List(b"/"), Items(&[(b"g", Some(5000))])),
            (GetAttr(b"/g", 0x41), Bytes(b"x")),
            (Open(b"/g", READ), Fd(0)),
            (Seek(0, 9), Done),
            (Read(0, 3), Bytes(b"aba")),
            (Close(0), Done),
        ],
        Some(7),
    ),
];

// The index of the tree after each number of operations.
const BEHIND: &[usize] = &[0, 1, 2, 2, 2, 2, 3, 4, 5, 6, 6, 6, 6, 6, 6];

/// Returns the long script with these operations.
pub fn long_script<'a>(rows: &'a [Row<'a>]) -> Script<'a> {
    Script {
        rows,
        trees: TREES,
        behind: BEHIND,
    }
}

/// Performs operations one after another until a reply is unexpected or an error is returned.
/// Returns the number of expected replies, and the error.
pub fn perform_expected_operations<D: BlockDevice>(
    alloc: Global,
    session: &mut Session<D>,
    rows: &[Row<'_>],
) -> (usize, Option<Error>) {
    let mut done = 0usize;
    for row in rows {
        match first_operation_with_wrong_reply(alloc, session, &[*row]) {
            Ok(None) => done = done.saturating_add(1),
            Ok(Some(_)) => return (done, None),
            Err(error) => return (done, Some(error)),
        }
    }
    (done, None)
}

// Returns whether a session has this tree.
fn has_expected_tree<D: BlockDevice>(
    alloc: Global,
    session: &mut Session<D>,
    tree: Option<&ExpectedTree<'_>>,
) -> Result<bool, Error> {
    match tree {
        Some(tree) => Ok(first_operation_with_wrong_reply(alloc, session, tree.0)?.is_none()),
        None => Ok(false),
    }
}

const NO_GSTATE: ExpectedReply<'static> = GstateIs(Gstate {
    sync: false,
    moving: None,
});

// Returns whether nothing is left to recover, and exactly the blocks of the tree are used.
fn leaves_nothing_to_recover<D: BlockDevice>(
    alloc: Global,
    session: &mut Session<D>,
    tree: Option<&ExpectedTree<'_>>,
) -> Result<bool, Error> {
    let used = match tree {
        Some((_, used)) => *used,
        None => None,
    };
    let is_right = match used {
        Some(used) => first_operation_with_wrong_reply(
            alloc,
            session,
            &[(UsedCount, Count(used))],
        )?.is_none(),
        None => true,
    };
    Ok(
        is_right
            && first_operation_with_wrong_reply(
                alloc,
                session,
                &[(AskGstate, NO_GSTATE)],
            )?.is_none(),
    )
}

// Returns whether a session has this tree before and after a recovery, and the recovery leaves
// nothing to recover.
fn is_tree_kept_by_recovery<D: BlockDevice>(
    alloc: Global,
    session: &mut Session<D>,
    tree: Option<&ExpectedTree<'_>>,
) -> Result<bool, Error> {
    if !has_expected_tree(alloc, session, tree)? {
        return Ok(false);
    }
    let recovered = first_operation_with_wrong_reply(alloc, session, &[(Recover, Done)])?;
    Ok(
        recovered.is_none()
            && has_expected_tree(alloc, session, tree)?
            && leaves_nothing_to_recover(alloc, session, tree)?,
    )
}

// Returns the indexes of the trees after `done` operations, and after one more.
fn tree_indexes_before_and_after(script: &Script<'_>, done: usize) -> (usize, usize) {
    let before = script
        .behind
        .get(done)
        .copied()
        .unwrap_or(script.trees.len());
    let behind = script.behind.get(done.saturating_add(1)).copied();
    (before, behind.unwrap_or(before))
}

/// Returns the index of the tree that a session has after `done` operations, or after one more.
pub fn current_tree_index<D: BlockDevice>(
    alloc: Global,
    session: &mut Session<D>,
    script: &Script<'_>,
    done: usize,
) -> Result<usize, Error> {
    let (before, behind) = tree_indexes_before_and_after(script, done);
    let is_before = has_expected_tree(alloc, session, script.trees.get(before))?;
    Ok(if is_before { before } else { behind })
}

/// Returns whether a session has the tree from before or after the operation that ended the script.
/// The tree must also survive a recovery that leaves nothing to recover.
pub fn has_consistent_tree<D: BlockDevice>(
    alloc: Global,
    session: &mut Session<D>,
    script: &Script<'_>,
    done: usize,
) -> Result<bool, Error> {
    let (before, behind) = tree_indexes_before_and_after(script, done);
    Ok(
        is_tree_kept_by_recovery(alloc, session, script.trees.get(before))?
            || behind != before
                && is_tree_kept_by_recovery(alloc, session, script.trees.get(behind))?,
    )
}
