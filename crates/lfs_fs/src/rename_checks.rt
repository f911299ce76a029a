// The paths and the checks of a rename.

ghost use Rattle.std.specs.Prelude.{◌≡◌, ◌&&◌, IfErr, IfOk, false, is_some, not, true};
ghost use Rattle.lfs_model.specs.session.TreeEdits.{is_beneath, without_prefix, same_path};
ghost use Rattle.lfs_model.specs.session.Operations as ops;
ghost use Rattle.lfs_model.specs.session.Operations.{parse_path};
ghost use Rattle.lfs_model.specs.session.Refusals.{path_or_root, path_unusable};
ghost use Rattle.lfs_model.specs.session.Session.{refuse_if};
ghost use Rattle.lfs_lookup.specs.RefusalErrors.{is_refusal, error_refusal};
ghost use Rattle.lfs_tree.specs.RenameLookup.{AreRenameFindings};
ghost use Rattle.lfs_tree.specs.TreeState.{visible_tree};
ghost use Rattle.lfs_fs.specs.SessionView.{IsChecksResult, IsReady, refusal_by_checks, session_view};
ghost use Rattle.lfs_fs.specs.RenamePaths.{IsFileIndependentRefusal, IsPermittedRename, PassesRenameWithoutLookup, is_path_prefix};

use crate::check_order::{are_both_true, find_first_refusal, value_or_refusal};
use crate::checks::{exceeds_entry_limit, exceeds_name_max, lacks_free_blocks, parse_entry_path};
use crate::files::Files;
use crate::owned_path::same_path_bytes;
use lfs_device::{BlockDevice, Error};
use lfs_lookup::{Path, Refusal, refuse_if};
use lfs_tree::{RenameLookup, RenameTargets, Tree};
use std::alloc::Global;

// Returns whether `other` begins with `bytes`, and ends there or continues with a slash.
fn is_path_prefix(bytes: &[u8], other: &[u8]) -> bool
    ensures { result ≡ is_path_prefix bytes.now other.now }
{
    if !other.starts_with(bytes) {
        return false;
    }
    other.len() == bytes.len() || other[bytes.len()] == b'/'
}

// Returns whether the path `other` is the entry's path `bytes`, or is beneath it.
pub(crate) fn at_or_beneath(bytes: &[u8], other: &[u8]) -> bool
    requires entry { path_unusable (parse_path bytes.now) ≡ false }
    requires given { is_some (parse_path other.now) ≡ true }
    ensures { result ≡ is_some (without_prefix (path_or_root bytes.now) (path_or_root other.now)) }
{
    is_path_prefix(bytes, other)
}

// Returns whether the two paths are the same.
fn is_same_path(bytes: &[u8], other: &[u8]) -> bool
    requires given { is_some (parse_path bytes.now) ≡ true }
    requires other { is_some (parse_path other.now) ≡ true }
    ensures { result ≡ same_path (path_or_root bytes.now) (path_or_root other.now) }
{
    same_path_bytes(other, bytes)
}

// Returns whether the path `other` is beneath the entry's path `bytes`.
fn is_strictly_beneath(bytes: &[u8], other: &[u8]) -> bool
    requires entry { path_unusable (parse_path bytes.now) ≡ false }
    requires given { is_some (parse_path other.now) ≡ true }
    ensures { result ≡ is_beneath (path_or_root bytes.now) (path_or_root other.now) }
{
    at_or_beneath(bytes, other) && !is_same_path(bytes, other)
}

// Returns the refusal `error` if the entry at the new path can't be replaced. Never refuses a
// rename to the same path.
fn replaced_entry_refusal(is_same: bool, is_bad: bool, error: Error) -> Option<Refusal>
    requires { is_refusal error ≡ true }
    ensures { result ≡ refuse_if (not is_same && is_bad) (error_refusal error) }
{
    refuse_if(are_both_true(!is_same, is_bad), error)
}

/// A rename that no check refuses.
#[derive(Drop)]
pub struct PermittedRename<'a> {
    pub from: Path<'a>,
    pub to: Path<'a>,
    /// Whether the two paths are the same.
    pub is_same: bool,
    /// The results of the look-ups, or None if the image must be recovered first.
    pub targets: Option<RenameTargets>,
}

/// The two paths of a rename that passes all checks before the look-ups.
#[derive(Drop)]
pub struct RenamePaths<'a> {
    // The bytes of the old path and of the new one.
    old: &'a [u8],
    new: &'a [u8],
    from: Path<'a>,
    to: Path<'a>,
    // Whether the two paths are the same.
    is_same: bool,
}

// Returns the two paths of a rename, or the refusal of the first check that needs no look-up.
fn check_rename_paths<'a, D: BlockDevice>(
    tree: &Tree<D>,
    old: &'a [u8],
    new: &'a [u8],
) -> Result<RenamePaths<'a>, Error>
    ensures passes { IfOk result (PassesRenameWithoutLookup tree.now old.now new.now) }
    ensures refused { IfErr result (IsFileIndependentRefusal tree.now (ops.Rename old.now new.now)) }
{
    if tree.has_failed() {
        return Err(Error::Failed);
    }
    if !tree.is_writable() {
        return Err(Error::ReadOnly);
    }
    let Some(from) = parse_entry_path(old) else {
        return Err(Error::Invalid);
    };
    let Some(to) = parse_entry_path(new) else {
        return Err(Error::Invalid);
    };
    if is_strictly_beneath(old, new) {
        return Err(Error::Invalid);
    }
    let is_same = is_same_path(old, new);
    Ok(RenamePaths {
        old,
        new,
        from,
        to,
        is_same,
    })
}

// Returns the refusal of a rename, if any. The checks concern the entries at the two paths, the
// open files and the free blocks.
fn find_rename_refusal<D: BlockDevice>(
    tree: &Tree<D>,
    files: &Files,
    paths: &RenamePaths<'_>,
    found: &RenameLookup,
) -> Option<Refusal>
    requires ready { IsReady tree.now files.now }
    requires passes { PassesRenameWithoutLookup tree.now paths.now.old.now paths.now.new.now paths.now }
    requires found { AreRenameFindings (visible_tree tree.now) paths.now.from paths.now.to found.now }
    ensures { result ≡ refusal_by_checks (session_view tree.now files.now) (ops.Rename paths.now.old.now paths.now.new.now) }
{
    let is_same = paths.is_same;
    let entry = found.entry.node;
    let replaces = found.target.finding.node;
    let name_len = paths.to.name_len();
    let puts_directory = are_both_true(entry.is_directory(), replaces.is_file());
    let puts_file = are_both_true(entry.is_file(), replaces.is_directory());
    let overfills = exceeds_entry_limit(tree, name_len, found.attributes_size);
    let checks = [
        found.entry.fault,
        found.target.finding.fault,
        refuse_if(exceeds_name_max(tree, name_len), Error::NameTooLong),
        refuse_if(entry.is_nothing(), Error::NoEnt),
        replaced_entry_refusal(is_same, puts_directory, Error::NotDir),
        replaced_entry_refusal(is_same, puts_file, Error::IsDir),
        replaced_entry_refusal(is_same, found.target.has_entries, Error::NotEmpty),
        refuse_if(files.prevents_rename_of(paths.old, paths.new), Error::Busy),
        replaced_entry_refusal(is_same, overfills, Error::EntryFull),
        refuse_if(lacks_free_blocks(tree, files, 2), Error::NoSpace),
    ];
    find_first_refusal(&checks)
}

/// Checks a rename, and returns the results of looking up its two paths.
pub fn check_rename<'a, D: BlockDevice>(
    alloc: Global,
    tree: &mut Tree<D>,
    files: &Files,
    old: &'a [u8],
    new: &'a [u8],
) -> Result<PermittedRename<'a>, Error>
    requires { tree.old.failed ≡ false → IsReady tree.old files.now }
    ensures { IsChecksResult (session_view tree.old files.now) (ops.Rename old.now new.now) (IsPermittedRename tree.new old.now new.now) result tree.new }
{
    let paths = check_rename_paths(tree, old, new)?;
    let found = tree.look_up_rename(alloc, &paths.from, &paths.to)?;
    let refusal = find_rename_refusal(tree, files, &paths, &found);
    let RenamePaths {
        from,
        to,
        is_same,
        ..
    } = paths;
    let renaming = PermittedRename {
        from,
        to,
        is_same,
        targets: found.targets,
    };
    value_or_refusal(&[refusal], renaming)
}
