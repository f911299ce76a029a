// Converts results to numbers for C: 0 or more, or the negated number of an error.

ghost use Rattle.std.specs.Prelude.{◌≡◌, ◌<◌, ◌^◌, pos, ◌-ℤ◌, IfOk};
ghost use Rattle.lfs_device.specs.Error.{error_number};
ghost use Rattle.littlefs_values.specs.Codes.{bool_number, result_code, stat_number};

use lfs_device::Error;
use lfs_lookup::{Kind, Stat};

/// The negated number of `EBADFD`, which a call returns if its handle has no volume or session.
pub const CLOSED: i64 = -77;

/// Returns the negated number of the error.
pub fn error_code(error: Error) -> i64
    ensures { result ≡ pos 0 -ℤ pos (error_number error) }
{
    -i64::from(error.number())
}

/// Returns 0 for an `Ok`, or the negated error number.
pub fn unit_code(answer: Result<(), Error>) -> i64
    ensures { result ≡ result_code (λ _. 0) answer }
{
    match answer {
        Ok(()) => 0,
        Err(error) => error_code(error),
    }
}

/// Returns the number in an `Ok`, or the negated error number.
pub fn count_code(answer: Result<u32, Error>) -> i64
    ensures { result ≡ result_code (λ n. n) answer }
{
    match answer {
        Ok(count) => i64::from(count),
        Err(error) => error_code(error),
    }
}

/// Returns a file's size in bytes, 2^32 for a directory, or the negated error number.
pub fn size_code(answer: Result<Stat, Error>) -> i64
    ensures { result ≡ result_code stat_number answer }
{
    match answer {
        Ok(stat) => match stat.kind {
            Kind::File => i64::from(stat.size),
            Kind::Dir => 4_294_967_296,
        },
        Err(error) => error_code(error),
    }
}

/// Returns 1 for true, 0 for false, or the negated error number.
pub fn bool_code(answer: Result<bool, Error>) -> i64
    ensures { result ≡ result_code bool_number answer }
{
    match answer {
        Ok(true) => 1,
        Ok(false) => 0,
        Err(error) => error_code(error),
    }
}

/// Returns the number in an `Ok`, which must be below 2^63, or the negated error number.
pub fn usize_code(answer: Result<usize, Error>) -> i64
    requires { IfOk answer (λ n. n < 2 ^ 63) }
    ensures { result ≡ result_code (λ n. n) answer }
{
    match answer {
        Ok(room) => room as i64,
        Err(error) => error_code(error),
    }
}
