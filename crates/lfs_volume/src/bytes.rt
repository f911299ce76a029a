// Resizes, overwrites and copies bytes in memory.

ghost use Rattle.std.specs.Prelude.{◌≡◌, ◌+◌, ◌<◌, ◌≤◌, ◌^◌, ◌++◌, drop, length, take, IfErr, IfOk, OnErr, OnOk};
ghost use Rattle.lfs_model.specs.format.Blocks.{overwritten_at};
ghost use Rattle.lfs_model.specs.session.Writers.{written_contents, zero_padded};

use lfs_device::Error;
use std::alloc::{AllocError, Global};

// Resizes the contents to `size` bytes: truncates them, or extends them with zeros. Leaves the
// contents unchanged after an error.
pub(crate) fn resize_bytes(contents: &mut Vec<u8>, size: usize) -> Result<(), AllocError>
    ensures ok { OnOk result (contents.new.items ≡ take size (zero_padded size contents.old.items)) }
    ensures err { OnErr result (contents.new.items ≡ contents.old.items) }
    ensures full { OnErr result (length contents.old.items < size) }
{
    contents.resize(size, 0)
}

// Overwrites the bytes of `all` from the offset `at`.
fn overwrite(all: &mut Vec<u8>, at: usize, bytes: &[u8])
    requires { at + length bytes.now ≤ length all.old.items }
    ensures { all.new.items ≡ overwritten_at all.old.items at bytes.now }
{
    all[at..at + bytes.len()].copy_from_slice(bytes);
}

// Writes bytes to the contents at the offset `at`. Fills a gap before the bytes with zeros. Leaves
// the contents unchanged after an error.
pub(crate) fn write_bytes(contents: &mut Vec<u8>, at: usize, bytes: &[u8]) -> Result<(), AllocError>
    requires { at + length bytes.now < 2 ^ 63 }
    ensures ok { OnOk result (contents.new.items ≡ written_contents contents.old.items at bytes.now) }
    ensures err { OnErr result (contents.new.items ≡ contents.old.items) }
    ensures full { OnErr result (length contents.old.items < at + length bytes.now) }
{
    let end = at + bytes.len();
    if contents.len() < end {
        resize_bytes(contents, end)?;
    }
    overwrite(contents, at, bytes);
    Ok(())
}

// Returns at most `count` bytes of the contents from the offset `at`.
pub(crate) fn bytes_from(contents: &[u8], at: usize, count: usize) -> &[u8]
    ensures { result.now ≡ take count (drop at contents.now) }
{
    let rest = bytes_after(contents, at);
    &rest[..count.min(rest.len())]
}

// Returns the bytes of the contents from the offset `at`, or no bytes if the contents end before
// it.
pub(crate) fn bytes_after(contents: &[u8], at: usize) -> &[u8]
    ensures { result.now ≡ drop at contents.now }
{
    &contents[at.min(contents.len())..]
}

// Copies bytes to the beginning of a buffer, and leaves the rest of the buffer unchanged.
pub(crate) fn copy_into(buf: &mut [u8], bytes: &[u8])
    requires { length bytes.now ≤ length buf.old }
    ensures { buf.new ≡ bytes.now ++ drop (length bytes.now) buf.old }
{
    buf[..bytes.len()].copy_from_slice(bytes);
}

// Returns a copy of the bytes. Returns `NoMemory` if memory for the copy can't be allocated.
pub(crate) fn copied(alloc: Global, bytes: &[u8]) -> Result<Vec<u8>, Error>
    ensures are { IfOk result (λ v. v.items ≡ bytes.now) }
    ensures none { IfErr result (λ e. e ≡ Error.NoMemory) }
{
    match copy_of(alloc, bytes) {
        Ok(copy) => Ok(copy),
        Err(_) => Err(Error::NoMemory),
    }
}

// Returns a copy of the bytes.
pub(crate) fn copy_of(alloc: Global, bytes: &[u8]) -> Result<Vec<u8>, AllocError>
    ensures { IfOk result (λ v. v.items ≡ bytes.now) }
{
    Vec::from_slice(alloc, bytes)
}
