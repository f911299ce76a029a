// Open directories, each a list of entries with a position.

ghost use Rattle.std.specs.Prelude.{◌≡◌, ◌<◌, ◌^◌, IfErr, IfOk};
ghost use Rattle.lfs_volume.specs.Calls.{free_entry_index, with_entry};
ghost use Rattle.lfs_volume.specs.Volume.{entry_at};
ghost use Rattle.littlefs_c.specs.Directories.{ClosesDirectory, StoresOpenDirectory, RelistsDirectory, ReadsDirectory, RewindsDirectory, SeeksDirectory, ReadsNextEntry, ReturnsDirectoryPosition, opened_directory};

use crate::entry_infos::{EntryInfo, show_entry};
use crate::noted::ImageDevice;
use lfs_volume::{Error, Item, Volume};
use std::alloc::Global;
use std::marker::Model;

/// An open directory: its path, its entries when they were listed, and its position, the index of
/// the next entry to read.
#[derive(Drop)]
pub struct Directory {
    path: Vec<u8>,
    items: Vec<Item>,
    position: usize,
}

impl Model for Directory {
    ghost use Rattle.std.specs.Prelude.{◌≤◌, length};
    ghost use Rattle.littlefs_c.specs.DirectoryView.{DirectoryView};

    ghost Value = { DirectoryView };

    ghost view = { λ d. record { path = d.path.items; items = d.items.items; position = d.position } };

    ghost invariant = { λ d. d.position ≤ length d.items.items };
}

// Returns the lowest free number.
fn free_number(directories: &[Option<Directory>]) -> usize
    ensures { result ≡ free_entry_index directories.now }
{
    let mut number = 0;
    for entry in directories {
        if entry.is_none() {
            return number;
        }
        number += 1;
    }
    number
}

// Returns an open directory with these entries, at position 0. Errors: `NoMemory` if memory can't
// be allocated.
fn new_directory(alloc: Global, path: &[u8], items: Vec<Item>) -> Result<Directory, Error>
    ensures is { IfOk result (λ d. d ≡ opened_directory path.now items.items) }
    ensures none { IfErr result (λ e. e ≡ Error.NoMemory) }
{
    match Vec::from_slice(alloc, path) {
        Ok(path) => Ok(Directory {
            path,
            items,
            position: 0,
        }),
        Err(_) => Err(Error::NoMemory),
    }
}

// Stores a directory under a free number, and extends the table by one if `number` is its length.
// Errors: `NoMemory` if memory can't be allocated; the table doesn't change then.
fn put_directory(
    directories: &mut Vec<Option<Directory>>,
    number: usize,
    directory: Directory,
) -> Result<(), Error>
    ensures put { IfOk result (λ _. directories.new.items ≡ with_entry directories.old.items number (Some directory)) }
    ensures none { IfErr result (λ e. (e ≡ Error.NoMemory) × (directories.new.items ≡ directories.old.items)) }
{
    if number < directories.len() {
        directories[number] = Some(directory);
        return Ok(());
    }
    match directories.push(Some(directory)) {
        Ok(()) => Ok(()),
        Err(_) => Err(Error::NoMemory),
    }
}

// Stores a listing as an open directory, and returns its number, the lowest that is free. Errors:
// the error in `answer`. `NoMemory` if memory can't be allocated.
pub(crate) fn store_open_directory(
    alloc: Global,
    directories: &mut Vec<Option<Directory>>,
    path: &[u8],
    answer: Result<Vec<Item>, Error>,
) -> Result<u32, Error>
    ensures { StoresOpenDirectory path.now answer result directories.old.items directories.new.items }
{
    let items = answer?;
    let directory = new_directory(alloc, path, items)?;
    let number = free_number(directories);
    if number > u32::MAX as usize {
        return Err(Error::NoMemory);
    }
    put_directory(directories, number, directory)?;
    Ok(number as u32)
}

// Copies the entry at a directory's position to `shown` and `name`, and advances the position.
// Returns false at the end of the list.
fn read_next_entry(directory: &mut Directory, shown: &mut EntryInfo, name: &mut [u8]) -> bool
    ensures { ReadsNextEntry directory.old result directory.new shown.old shown.new name.old name.new }
{
    let position = directory.position;
    if position >= directory.items.len() {
        return false;
    }
    show_entry(&directory.items[position], shown, name);
    directory.position = position + 1;
    true
}

// Reads the next entry of the open directory with this number, as `read_next_entry` does. Errors:
// `BadFile` if no directory is open under the number.
pub(crate) fn read_directory(
    directories: &mut Vec<Option<Directory>>,
    number: u32,
    shown: &mut EntryInfo,
    name: &mut [u8],
) -> Result<bool, Error>
    ensures { ReadsDirectory number result directories.old.items directories.new.items shown.old shown.new name.old name.new }
{
    let index = number as usize;
    if index >= directories.len() {
        return Err(Error::BadFile);
    }
    match &mut directories[index] {
        Some(directory) => Ok(read_next_entry(directory, shown, name)),
        None => Err(Error::BadFile),
    }
}

// Sets the position of the open directory with this number. Errors: `BadFile` if no directory is
// open under the number. `Invalid` if `position` is greater than the number of entries.
pub(crate) fn seek_directory(
    directories: &mut Vec<Option<Directory>>,
    number: u32,
    position: u32,
) -> Result<(), Error>
    ensures { SeeksDirectory number position result directories.old.items directories.new.items }
{
    let index = number as usize;
    if index >= directories.len() {
        return Err(Error::BadFile);
    }
    match &mut directories[index] {
        Some(directory) => {
            if position as usize > directory.items.len() {
                return Err(Error::Invalid);
            }
            directory.position = position as usize;
            Ok(())
        }
        None => Err(Error::BadFile),
    }
}

// Returns the position of the open directory with this number. Errors: `BadFile` if no directory is
// open under the number.
pub(crate) fn directory_position(
    directories: &[Option<Directory>],
    number: u32,
) -> Result<usize, Error>
    ensures is { ReturnsDirectoryPosition number directories.now result }
    ensures small { IfOk result (λ n. n < 2 ^ 63) }
{
    let index = number as usize;
    if index >= directories.len() {
        return Err(Error::BadFile);
    }
    match &directories[index] {
        Some(directory) => {
            // Bounds the position for the proof: a list has fewer than 2^63 entries.
            let _count = directory.items.len();
            Ok(directory.position)
        }
        None => Err(Error::BadFile),
    }
}

// Lists a directory again, and sets its position to 0. Errors: those of `Volume::list`.
fn relist_directory(
    alloc: Global,
    volume: &mut Volume<ImageDevice>,
    directory: &mut Directory,
) -> Result<(), Error>
    ensures { RelistsDirectory volume.old directory.old result volume.new directory.new }
{
    let items = volume.list(alloc, &directory.path)?;
    directory.position = 0;
    directory.items = items;
    Ok(())
}

// Lists the open directory with this number again, and sets its position to 0. Errors: `BadFile` if
// no directory is open under the number. Otherwise those of `Volume::list`.
pub(crate) fn rewind_directory(
    alloc: Global,
    volume: &mut Volume<ImageDevice>,
    directories: &mut Vec<Option<Directory>>,
    number: u32,
) -> Result<(), Error>
    ensures { RewindsDirectory number result volume.old directories.old.items volume.new directories.new.items }
{
    let index = number as usize;
    if index >= directories.len() {
        return Err(Error::BadFile);
    }
    match &mut directories[index] {
        Some(directory) => relist_directory(alloc, volume, directory),
        None => Err(Error::BadFile),
    }
}

// Closes the directory with this number. Errors: `BadFile` if no directory is open under the
// number.
pub(crate) fn close_directory(
    directories: &mut Vec<Option<Directory>>,
    number: u32,
) -> Result<(), Error>
    ensures { ClosesDirectory number result directories.old.items directories.new.items }
{
    let index = number as usize;
    if index >= directories.len() || directories[index].is_none() {
        return Err(Error::BadFile);
    }
    directories[index] = None;
    Ok(())
}
