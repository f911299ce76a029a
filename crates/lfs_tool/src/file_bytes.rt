// Reading the bytes of a file.

ghost use Rattle.std.specs.Prelude.{◌≡◌, IfOk, IfSome, take};

use std::alloc::Global;
use std::io;
use std::io::Read;

// The smallest number of bytes that the first read requests. Some files report a length of 0 and
// return their bytes only to the first read.
const LEAST: usize = 512;

// Returns the first `most` bytes of a file, or all if it has fewer. `len` is the file's length when
// it was listed. If that is still right and less than 8192, the second read finds the end.
pub(crate) fn read_at_most<R: Read + Drop>(
    alloc: Global,
    file: R,
    len: usize,
    most: u64,
) -> io::Result<Vec<u8>>
    ensures { IfOk result (λ v. IfSome (R.remaining file) (λ bytes. v.items ≡ take most bytes)) }
{
    let room = len.saturating_add(1).max(LEAST);
    let mut bytes = Vec::with_capacity(alloc, room)?;
    let mut rest = file.take(most);
    rest.read_to_end(&mut bytes)?;
    Ok(bytes)
}
