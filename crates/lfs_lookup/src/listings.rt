// Listings of the directory at a path, with the name, kind and size of each entry.

ghost use Rattle.std.specs.Prelude.{◌≡◌, ◌≤◌, ◌+◌, ◌++◌, ◌∷◌, [], IfOk, map, sum_by};
ghost use Rattle.lfs_model.specs.crash.Frame.{directory_pair_count, ancestor_paths};
ghost use Rattle.lfs_model.specs.session.History.{read_count};
ghost use Rattle.lfs_model.specs.session.Effects.{listed_entries_at};
ghost use Rattle.lfs_model.specs.tree.Shown.{disk_tree};
ghost use Rattle.lfs_lookup.specs.CachedPairs.{AreDirectoriesCached};
ghost use Rattle.lfs_lookup.specs.Finds.{IsFoundNode, listed_item_view};
ghost use Rattle.lfs_lookup.specs.Items.{item_view, items_view, owned_view};
ghost use Rattle.lfs_lookup.specs.ListAt.{AreNamedStructsInLimits, StructFitsTag, IsNamedStructInLimits, name_and_size, listed_struct_size};
ghost use Rattle.lfs_lookup.specs.LookupReading.{ReadsOrReports};
ghost use Rattle.lfs_lookup.specs.Searchable.{CanSearchFromRoot};

use crate::by_path::{found_directory_index, look_up_path, node_of_lookup};
use crate::directory::items_if_directory;
use crate::found_entries::Listing;
use crate::items::{NameAndOwnedStruct, OwnedStruct, sort_shorter_first};
use crate::kinds::{ListItem, Stat};
use crate::path::Path;
use arrayvec::ArrayVec;
use lfs_device::{BlockDevice, Error};
use lfs_thread::Thread;
use std::alloc::{AllocError, Global};

// Returns the size of a file in bytes. Returns None for a directory.
fn listed_size(structure: &OwnedStruct) -> Option<u32>
    requires { StructFitsTag (owned_view structure.now) }
    ensures { result ≡ listed_struct_size (owned_view structure.now) }
{
    match structure {
        OwnedStruct::Inline(bytes) => Some(bytes.len() as u32),
        OwnedStruct::Ctz { size, .. } => Some(*size),
        OwnedStruct::Branch(_) => None,
    }
}

// Converts an entry to its name, kind and size.
fn to_list_item(item: NameAndOwnedStruct) -> ListItem
    requires { IsNamedStructInLimits (item_view item) }
    ensures { listed_item_view result ≡ name_and_size (item_view item) }
{
    let stat = Stat::from_size(listed_size(&item.structure));
    match ArrayVec::try_from(item.name.as_slice()) {
        Ok(name) => ListItem {
            name,
            kind: stat.kind,
            size: stat.size,
        },
        Err(_) => unreachable!(),
    }
}

// Converts entries to their names, kinds and sizes.
fn to_list_items(alloc: Global, items: Vec<NameAndOwnedStruct>) -> Result<Vec<ListItem>, AllocError>
    requires { AreNamedStructsInLimits (items_view items.items) }
    ensures { IfOk result (λ listed. map listed_item_view listed.items ≡ map name_and_size (items_view items.items)) }
{
    let mut listed = Vec::new(alloc);
    for item in items {
        listed.push(to_list_item(item))?;
    }
    Ok(listed)
}

/// Looks up a path, and returns the entries of the directory at the path, or no entries if the path
/// doesn't lead to a directory. The entries are sorted by name; a name that is a prefix of another
/// comes first. Makes at most one read for each metadata pair of the directory and of its
/// ancestors, and no read if all of these pairs are cached.
///
/// `root` is the index of the root directory's first pair.
///
/// Errors: `Io` if a read fails. `NoMemory` if memory can't be allocated.
pub fn list_directory<D: BlockDevice>(
    alloc: Global,
    thread: &mut Thread<D>,
    root: usize,
    path: &Path<'_>,
) -> Result<Listing, Error>
    requires { CanSearchFromRoot thread.old root }
    ensures found { IfOk result (λ listing. IsFoundNode (disk_tree thread.old.kept.disk thread.old.kept.pairs) path.now listing.finding) }
    ensures items { IfOk result (λ listing. map listed_item_view listing.items.items ≡ listed_entries_at (disk_tree thread.old.kept.disk thread.old.kept.pairs) path.now) }
    ensures few { read_count thread.new.kept.history ≤ read_count thread.old.kept.history + sum_by (directory_pair_count thread.old.kept.pairs) (ancestor_paths path.now ++ path.now ∷ []) }
    ensures kept { AreDirectoriesCached thread.old (ancestor_paths path.now ++ path.now ∷ []) → read_count thread.new.kept.history ≡ read_count thread.old.kept.history }
    ensures reading { ReadsOrReports thread.old thread.new result }
{
    let shown = look_up_path(alloc, thread, root, path)?;
    let mut items = items_if_directory(alloc, thread, found_directory_index(root, shown))?;
    sort_shorter_first(&mut items);
    // The proof needs that blocks consist of bytes to show that inline contents are short. The
    // proof also needs the device's block size to show that a list has the size that its entry
    // states.
    let _device = thread.device();
    let listed = to_list_items(alloc, items)?;
    Ok(Listing {
        finding: node_of_lookup(shown),
        items: listed,
    })
}
