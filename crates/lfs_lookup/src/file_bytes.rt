// Reads of all bytes of a file.

ghost use Rattle.std.specs.Prelude.{◌≡◌, IfOk, false, length};
ghost use Rattle.lfs_model.specs.tree.View.{IsWellFormedList};
ghost use Rattle.lfs_lookup.specs.FileBytes.{struct_file_bytes};
ghost use Rattle.lfs_lookup.specs.Items.{owned_view};
ghost use Rattle.lfs_lookup.specs.LookupReading.{ReadsOrReports};

use crate::items::OwnedStruct;
use lfs_device::{BlockDevice, Error};
use lfs_thread::Thread;
use std::alloc::{AllocError, Global};

// Returns `len` zeros.
pub(crate) fn zeros(alloc: Global, len: usize) -> Result<Vec<u8>, AllocError>
    ensures { IfOk result (λ bytes. length bytes.items ≡ len) }
{
    let mut bytes = Vec::new(alloc);
    bytes.resize(len, 0)?;
    Ok(bytes)
}

/// Returns all bytes of the file with the given struct, or no bytes for the struct of a directory.
///
/// Errors: `Io` if a read fails. `NoMemory` if memory for the bytes can't be allocated.
pub fn read_struct_bytes<D: BlockDevice>(
    alloc: Global,
    thread: &mut Thread<D>,
    structure: &OwnedStruct,
) -> Result<Vec<u8>, Error>
    requires works { thread.old.failed ≡ false }
    requires list { IsWellFormedList thread.old.kept.disk (owned_view structure.now) }
    ensures bytes { IfOk result (λ bytes. bytes.items ≡ struct_file_bytes thread.old.kept.disk (owned_view structure.now)) }
    ensures reading { ReadsOrReports thread.old thread.new result }
{
    match structure {
        OwnedStruct::Inline(bytes) => Ok(Vec::from_slice(alloc, bytes)?),
        OwnedStruct::Ctz { head, size } => {
            let mut bytes = zeros(alloc, *size as usize)?;
            thread.read_list(*head, *size, 0, &mut bytes)?;
            Ok(bytes)
        }
        OwnedStruct::Branch(_) => Ok(Vec::new(alloc)),
    }
}
