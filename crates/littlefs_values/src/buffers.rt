// Copies results to a buffer of C.

ghost use Rattle.std.specs.Prelude.{◌≡◌, ◌<◌, ◌^◌, drop, length, take};
ghost use Rattle.lfs_model.specs.format.Blocks.{overwritten_at};
ghost use Rattle.littlefs_values.specs.Buffers.{buffer_if_fitting, filled_buffer};
ghost use Rattle.littlefs_values.specs.Codes.{result_code};

use crate::codes::usize_code;
use lfs_device::Error;

/// Copies bytes to the beginning of a buffer if all of them fit, and returns the number of bytes.
pub fn copy_if_fitting(bytes: &[u8], buffer: &mut [u8]) -> usize
    ensures room { result ≡ length bytes.now }
    ensures small { result < 2 ^ 63 }
    ensures buffer { buffer.new ≡ buffer_if_fitting bytes.now buffer.old }
{
    if bytes.len() <= buffer.len() {
        buffer[..bytes.len()].copy_from_slice(bytes);
    }
    bytes.len()
}

/// Copies bytes, starting at `offset`, to the beginning of a buffer until the buffer is full or the
/// bytes end. Returns the number of bytes copied.
pub fn copy_from_offset(bytes: &[u8], offset: usize, buffer: &mut [u8]) -> usize
    ensures count { result ≡ length (take (length buffer.old) (drop offset bytes.now)) }
    ensures small { result < 2 ^ 63 }
    ensures copied { buffer.new ≡ overwritten_at buffer.old 0 (take (length buffer.old) (drop offset bytes.now)) }
{
    let rest = &bytes[offset.min(bytes.len())..];
    let count = rest.len().min(buffer.len());
    buffer[..count].copy_from_slice(&rest[..count]);
    count
}

/// Copies the bytes of an `Ok` to the beginning of a buffer if all of them fit, and returns their
/// number. Returns the negated error number for an `Err`.
pub fn fill_with_bytes(answer: Result<Vec<u8>, Error>, buffer: &mut [u8]) -> i64
    ensures code { result ≡ result_code (λ v. length v.items) answer }
    ensures buffer { buffer.new ≡ filled_buffer answer buffer.old }
{
    match answer {
        Ok(bytes) => usize_code(Ok(copy_if_fitting(&bytes, buffer))),
        Err(error) => usize_code(Err(error)),
    }
}
