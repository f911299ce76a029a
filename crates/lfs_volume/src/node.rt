// A node: an open file. Its contents are in memory after the first read or write.

ghost use Rattle.std.specs.Prelude.{◌≡◌, ◌+◌, ◌<◌, ◌≤◌, ◌^◌, ◌==◌, [], length, List, ℕ, IfOk, IfSome, IsSome, None, Some, OnErr, OnOk, is_some, unwrap_or, vec_capacity, true};
ghost use Rattle.std.specs.Option.{option_map};
ghost use Rattle.lfs_volume.specs.Volume.{loaded_node, opened_node, resized_node, synced_node, unlinked_node, written_node};
ghost use Rattle.lfs_model.specs.format.Names.{same_name};
ghost use Rattle.lfs_volume.specs.Calls.{has_path};

use crate::bytes::{resize_bytes, write_bytes};
use crate::dirty_range::{DirtyRange, extend_dirty_range, resize_dirty_range};
use std::alloc::{AllocError, Global};
use std::marker::Model;

// The maximum number of bytes of memory that are kept for the next file that is loaded.
const SPARE_MAX: usize = 1 << 22;

/// An open file.
#[derive(Drop)]
pub struct Node {
    // The path of the file, or None after the file was removed or replaced.
    path: Option<Vec<u8>>,
    // The size of the file in bytes, including changes that aren't synced.
    size: u32,
    // The contents, or None if nothing has been read or written yet.
    contents: Option<Vec<u8>>,
    // The range in which the contents may differ from the stored ones, or None if they are the
    // same.
    dirty_range: Option<DirtyRange>,
}

impl Model for Node {
    ghost use Rattle.std.specs.Option.{option_map};
    ghost use Rattle.lfs_volume.specs.Volume.{NodeView};
    ghost use Rattle.lfs_volume.specs.Nodes.{HasNodeInvariant};

    ghost Value = { NodeView };

    ghost view = { λ n. record { path = option_map (λ v. v.items) n.path; size = n.size; contents = option_map (λ v. v.items) n.contents; dirty_range = n.dirty_range } };

    ghost invariant = { λ n. HasNodeInvariant n.size (option_map (λ v. v.items) n.contents) n.dirty_range };
}

impl Node {
    // Returns the node of a file that was just opened.
    pub(crate) fn opened(path: Vec<u8>, size: u32) -> Node
        ensures { result ≡ opened_node path.items size }
    {
        Node {
            path: Some(path),
            size,
            contents: None,
            dirty_range: None,
        }
    }

    // Returns the path, or None if the file was removed or replaced.
    pub(crate) fn path(&self) -> Option<&[u8]>
        ensures { option_map (λ p. p.now) result ≡ self.now.path }
    {
        match &self.path {
            Some(path) => Some(path.as_slice()),
            None => None,
        }
    }

    // Returns the size of the file in bytes.
    pub(crate) fn size(&self) -> u32
        ensures { result ≡ self.now.size }
    {
        self.size
    }

    // Returns the contents if they are in memory.
    pub(crate) fn contents(&self) -> Option<&[u8]>
        ensures is { option_map (λ p. p.now) result ≡ self.now.contents }
        ensures size { IfSome result (λ p. length p.now ≡ self.now.size) }
        ensures small { self.now.size < 2 ^ 32 }
    {
        let _size = self.size;
        match &self.contents {
            Some(contents) => Some(contents.as_slice()),
            None => None,
        }
    }

    // Returns whether the contents are in memory.
    pub(crate) fn is_loaded(&self) -> bool
        ensures { result ≡ is_some self.now.contents }
    {
        self.contents.is_some()
    }

    // Returns the range in which the contents may differ from the stored ones.
    pub(crate) fn dirty_range(&self) -> Option<DirtyRange>
        ensures is { result ≡ self.now.dirty_range }
        ensures within { IfSome result (λ h. (h.from ≤ h.end) × (h.end ≤ self.now.size)) }
        ensures loaded { IfSome result (λ _. IsSome self.now.contents) }
    {
        self.dirty_range
    }

    // Returns whether the node's path is `path`.
    pub(crate) fn has_path(&self, path: &[u8]) -> bool
        ensures { result ≡ has_path path.now (Some self.now) }
    {
        match &self.path {
            Some(own) => is_same_path(own.as_slice(), path),
            None => false,
        }
    }

    // Stores the contents of the file in the node. Their length must be the node's size.
    pub(crate) fn set_contents(&mut self, contents: Vec<u8>)
        requires { length contents.items ≡ self.old.size }
        ensures { self.new ≡ loaded_node contents.items self.old }
    {
        self.contents = Some(contents);
    }

    // Writes bytes to the contents at the offset `at`. Fills a gap before the bytes with zeros.
    pub(crate) fn write(&mut self, at: u32, bytes: &[u8]) -> Result<(), AllocError>
        requires { at + length bytes.now < 2 ^ 31 }
        ensures ok { OnOk result (IsSome self.old.contents → self.new ≡ written_node at bytes.now (unwrap_or self.old.contents []) self.old) }
        ensures err { OnErr result (self.new ≡ self.old) }
        ensures full { OnErr result (self.old.size < at + length bytes.now) }
    {
        let Some(contents) = &mut self.contents else {
            return Ok(());
        };
        if bytes.is_empty() {
            return Ok(());
        }
        write_bytes(contents, at as usize, bytes)?;
        let end = at + bytes.len() as u32;
        self.dirty_range = Some(extend_dirty_range(self.dirty_range, at.min(self.size), end));
        self.size = self.size.max(end);
        Ok(())
    }

    // Resizes the contents to `size` bytes: truncates them, or extends them with zeros.
    pub(crate) fn resize(&mut self, size: u32) -> Result<(), AllocError>
        ensures ok { OnOk result (IsSome self.old.contents → self.new ≡ resized_node size (unwrap_or self.old.contents []) self.old) }
        ensures err { OnErr result (self.new ≡ self.old) }
        ensures full { OnErr result (self.old.size < size) }
    {
        let Some(contents) = &mut self.contents else {
            return Ok(());
        };
        if size == self.size {
            return Ok(());
        }
        resize_bytes(contents, size as usize)?;
        self.dirty_range = Some(resize_dirty_range(self.dirty_range, self.size, size));
        self.size = size;
        Ok(())
    }

    // Makes the contents empty, whether they are in memory or not.
    pub(crate) fn clear(&mut self, alloc: Global)
        ensures { self.new ≡ resized_node 0 [] self.old }
    {
        if self.size > 0 {
            self.contents = Some(Vec::new(alloc));
            self.dirty_range = Some(resize_dirty_range(self.dirty_range, self.size, 0));
            self.size = 0;
        }
    }

    // Marks the contents as stored.
    pub(crate) fn mark_synced(&mut self)
        ensures { self.new ≡ synced_node self.old }
    {
        self.dirty_range = None;
    }

    // Removes the node's path, but keeps the contents.
    pub(crate) fn unlink(&mut self)
        ensures { self.new ≡ unlinked_node self.old }
    {
        self.path = None;
        self.dirty_range = None;
    }

    // Drops the node. Moves the memory of its contents to `spare` if it is larger than the memory
    // in `spare`, but at most `SPARE_MAX` bytes.
    pub(crate) fn recycle_contents(self, spare: &mut Vec<u8>)
        ensures { vec_capacity spare.old ≤ vec_capacity spare.new }
    {
        let Node {
            path: _,
            size: _,
            contents,
            dirty_range: _,
        } = self;
        if let Some(contents) = contents {
            if contents.capacity() > spare.capacity() && contents.capacity() <= SPARE_MAX {
                *spare = contents;
            }
        }
    }

    // Sets the node's path.
    pub(crate) fn set_path(&mut self, path: Vec<u8>)
        ensures { self.new ≡ record self.old { path = Some path.items } }
    {
        self.path = Some(path);
    }
}

// Returns whether two paths consist of the same bytes.
pub(crate) fn is_same_path(path: &[u8], other: &[u8]) -> bool
    ensures { result ≡ same_name path.now other.now }
{
    path == other
}
