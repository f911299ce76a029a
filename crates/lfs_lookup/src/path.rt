// Paths, which have a slash before each name.

ghost use Rattle.std.specs.Prelude.{ℕ, List, true, ◌≡◌, ◌<◌, ◌≤◌, ◌^◌, ◌==◌, IfOk, length, map, is_some};
ghost use Rattle.std.specs.List.{list_all, slice_split};
ghost use Rattle.lfs_model.specs.session.TreeEdits.{last_name};
ghost use Rattle.lfs_model.specs.format.Names.{is_component, slash_byte};
ghost use Rattle.lfs_model.specs.session.Operations.{parse_path};
ghost use Rattle.lfs_model.specs.session.Refusals.{path_or_root, is_root_path};
ghost use Rattle.lfs_lookup.specs.NameLengths.{length_after_slash};

use lfs_tag::is_valid_component;
use std::alloc::{AllocError, Global};
use std::marker::Model;

// Returns whether the bytes are valid names separated by slashes.
fn has_valid_names(bytes: &[u8]) -> bool
    ensures { result ≡ list_all is_component (slice_split (λ c. c == slash_byte) bytes.now) }
{
    bytes
        .split(|byte| *byte == b'/')
        .all(|name| is_valid_component(name))
}

fn is_path(bytes: &[u8]) -> bool
    ensures { result ≡ is_some (parse_path bytes.now) }
{
    match bytes {
        [] => false,
        [first, rest @ ..] => *first == b'/' && (rest.is_empty() || has_valid_names(rest)),
    }
}

// Returns the parts between the slashes.
fn split_at_slashes<'a>(alloc: Global, bytes: &'a [u8]) -> Result<Vec<&'a [u8]>, AllocError>
    ensures { IfOk result (λ parts. map (λ part. part.now) parts.items ≡ slice_split (λ c. c == slash_byte) bytes.now) }
{
    bytes.split(|byte| *byte == b'/').collect(alloc)
}

// Returns the number of bytes after the last slash.
fn last_name_length(bytes: &[u8]) -> usize
    ensures len { result ≡ length_after_slash 0 bytes.now }
    ensures bound { result ≤ length bytes.now }
{
    let mut len = 0;
    for byte in bytes {
        len = if *byte == b'/' { 0 } else { len + 1 };
    }
    len
}

/// The bytes of a well-formed path. Contracts describe a path as the list of its names.
#[derive(Drop)]
pub struct Path<'a> {
    bytes: &'a [u8],
}

impl<'a> Model for Path<'a> {
    ghost use Rattle.std.specs.Prelude.{◌≡◌, true, is_some};
    ghost use Rattle.lfs_model.specs.session.Operations.{parse_path};
    ghost use Rattle.lfs_model.specs.session.Refusals.{path_or_root};
    ghost use Rattle.lfs_model.specs.tree.Tree.{Path};

    ghost Value = { Path };

    ghost view = { λ p. path_or_root p.bytes.now };

    ghost invariant = { λ p. is_some (parse_path p.bytes.now) ≡ true };
}

impl<'a> Path<'a> {
    /// Parses a path. Returns None if the path isn't well formed.
    pub fn parse(bytes: &'a [u8]) -> Option<Path<'a>>
        ensures { result ≡ parse_path bytes.now }
    {
        if is_path(bytes) {
            Some(Path { bytes })
        } else {
            None
        }
    }

    /// Returns the names in the path, in order. The root's path has no names.
    ///
    /// Errors: `AllocError` if memory for the names can't be allocated.
    pub fn names(&self, alloc: Global) -> Result<Vec<&'a [u8]>, AllocError>
        ensures { IfOk result (λ names. map (λ name. name.now) names.items ≡ self.now) }
    {
        match self.bytes {
            [] | [_] => Ok(Vec::new(alloc)),
            [_, rest @ ..] => split_at_slashes(alloc, rest),
        }
    }

    /// Returns whether the path is the root's.
    pub fn is_root(&self) -> bool
        ensures { result ≡ is_root_path self.now }
    {
        matches!(self.bytes, [] | [_])
    }

    /// Proves that each name in the path is a valid component. Does nothing at run time.
    pub fn lemma_valid_names(&self)
        ensures { list_all is_component self.now ≡ true }
    {
        let _len = self.bytes.len();
    }

    /// Proves that the path is the result of parsing some bytes. Does nothing at run time.
    pub fn lemma_path_bytes(&self)
        ensures { (bytes : List ℕ) × (path_or_root bytes ≡ self.now) }
    {
        let _len = self.bytes.len();
    }

    /// Returns the length in bytes of the path's last name, or 0 for the root's path.
    pub fn name_len(&self) -> usize
        ensures len { result ≡ length (last_name self.now) }
        ensures bound { result < 2 ^ 63 }
    {
        last_name_length(self.bytes)
    }
}
