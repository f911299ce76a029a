// The entries of a directory, collected while a mount reads the directory's pairs.

ghost use Rattle.std.specs.Prelude.{◌≡◌, ◌⊎◌, map, OnOk, IfErr, IsErrOf, Some, None};
ghost use Rattle.lfs_model.specs.declared.order.NameOrder.{NameOrder};
ghost use Rattle.lfs_tag.specs.ContentView.{slot_view};
ghost use Rattle.lfs_mount.specs.DirectoryEntries.{comes_after_name, empty_scan, scan_with_entry};
ghost use Rattle.lfs_mount.specs.EntryView.{entry_view};
ghost use Rattle.lfs_mount.specs.Orders.{includes_order};
ghost use Rattle.lfs_mount.specs.Scanned.{scan_after_slots};

use crate::entry::{NamedStruct, slot_named_struct};
use crate::orders::NameOrderSet;
use crate::reachability::Directory;
use lfs_device::Error;
use lfs_model::NameOrder;
use lfs_tag::{Slot, Struct, name_cmp};
use lfs_thread::PairAddressList;
use std::alloc::Global;

// Returns whether `name` comes after the name `last` in the given order of names. Returns true if
// `last` is empty, which means that no name precedes `name`.
fn comes_after_name(order: NameOrder, last: &[u8], name: &[u8]) -> bool
    ensures { result ≡ comes_after_name order last.now name.now }
{
    last.is_empty() || name_cmp(order, last, name).is_lt()
}

// Returns the orders of names in which `name` comes after the name `last`.
fn ascending_name_orders(last: &[u8], name: &[u8]) -> NameOrderSet
    ensures { (order : NameOrder) → includes_order order result ≡ comes_after_name order last.now name.now }
{
    NameOrderSet {
        longer_first: comes_after_name(NameOrder::LongerFirst, last, name),
        shorter_first: comes_after_name(NameOrder::ShorterFirst, last, name),
    }
}

// A directory of which some entries were read.
#[derive(Drop)]
pub(crate) struct ScannedDirectory {
    // The name of the last entry that was read, or no bytes if none was read.
    last: Vec<u8>,
    directory: Directory,
}

impl ScannedDirectory {
    ghost use Rattle.lfs_mount.specs.KnownView.{scan_view};
    ghost use Rattle.lfs_mount.specs.DirectoryView.{vertex_view};

    // Creates a directory of which no entry was read.
    pub fn begin_directory_scan(alloc: Global) -> ScannedDirectory
        ensures { (order : NameOrder) → scan_view order result ≡ empty_scan }
    {
        ScannedDirectory {
            last: Vec::new(alloc),
            directory: Directory {
                rises_in: NameOrderSet::both(),
                leads: true,
                branches: Vec::new(alloc),
            },
        }
    }

    fn set_last_name(&mut self, name: &[u8]) -> Result<(), Error>
        ensures last { OnOk result (self.new.last.items ≡ name.now) }
        ensures directory { OnOk result (self.new.directory ≡ self.old.directory) }
        ensures error { IfErr result (λ e. e ≡ Error.NoMemory) }
    {
        self.last.clear();
        self.last.extend_from_slice(name)?;
        Ok(())
    }

    // Adds an entry to the directory.
    fn add_directory_entry(
        &mut self,
        places: &PairAddressList,
        entry: &NamedStruct<'_>,
    ) -> Result<(), Error>
        ensures ok { OnOk result ((order : NameOrder) → scan_view order self.new ≡ scan_with_entry order places.now (scan_view order self.old) (entry_view entry.now)) }
        ensures error { IfErr result (λ e. e ≡ Error.NoMemory) }
    {
        let rises = ascending_name_orders(&self.last, entry.name);
        self.directory.rises_in = self.directory.rises_in.intersect(rises);
        self.set_last_name(entry.name)?;
        if let Struct::Branch(pair) = entry.target {
            match places.find(pair) {
                Some(place) => self.directory.branches.push(place)?,
                None => self.directory.leads = false,
            }
        }
        Ok(())
    }

    // Returns the directory that was read, and begins the next one.
    pub fn take_scanned_directory(&mut self, alloc: Global) -> Directory
        ensures directory { (order : NameOrder) → vertex_view order result ≡ (scan_view order self.old).1 }
        ensures nothing { (order : NameOrder) → scan_view order self.new ≡ empty_scan }
    {
        std::mem::replace(self, ScannedDirectory::begin_directory_scan(alloc)).directory
    }

    // Adds the entries in the given slots of a pair.
    //
    // Errors: `Corrupt` only if one of the slots has no valid entry. `NoMemory` if memory can't be
    // allocated.
    pub fn scan_directory_slots(
        &mut self,
        places: &PairAddressList,
        slots: &[Slot<'_>],
    ) -> Result<(), Error>
        ensures ok { OnOk result ((order : NameOrder) → scan_after_slots order places.now (scan_view order self.old) (map slot_view slots.now) ≡ Some (scan_view order self.new)) }
        ensures corrupt { IsErrOf result Error.Corrupt → (order : NameOrder) → scan_after_slots order places.now (scan_view order self.old) (map slot_view slots.now) ≡ None }
        ensures errors { IfErr result (λ e. (e ≡ Error.Corrupt) ⊎ (e ≡ Error.NoMemory)) }
    {
        for slot in slots {
            let Some(entry) = slot_named_struct(slot) else {
                return Err(Error::Corrupt);
            };
            self.add_directory_entry(places, &entry)?;
        }
        Ok(())
    }
}
