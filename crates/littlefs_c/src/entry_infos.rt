// Directory entries in the form that C reads.

ghost use Rattle.std.specs.Prelude.{◌≡◌};
ghost use Rattle.littlefs_values.specs.Buffers.{buffer_if_fitting};
ghost use Rattle.littlefs_c.specs.Directories.{kind_number, entry_info};

use lfs_volume::{Item, Kind};
use littlefs_values::copy_if_fitting;

/// A directory entry in the form that C reads. `kind` is 1 for a file and 2 for a directory. `size`
/// is a file's size, and `name_len` the length of the name, both in bytes.
#[repr(C)]
#[derive(Drop)]
pub struct EntryInfo {
    pub kind: u32,
    pub size: u32,
    pub name_len: u32,
}

fn kind_number(kind: Kind) -> u32
    ensures { result ≡ kind_number kind }
{
    match kind {
        Kind::File => 1,
        Kind::Dir => 2,
    }
}

// Writes an entry to `shown`, and copies its name to a buffer if the name fits.
pub(crate) fn show_entry(item: &Item, shown: &mut EntryInfo, name: &mut [u8])
    ensures shown { shown.new ≡ entry_info item.now }
    ensures named { name.new ≡ buffer_if_fitting item.now.name.items name.old }
{
    let len = copy_if_fitting(item.name.as_slice(), name);
    *shown = EntryInfo {
        kind: kind_number(item.kind),
        size: item.size,
        name_len: len as u32,
    };
}
