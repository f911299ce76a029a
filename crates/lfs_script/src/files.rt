// Reads and writes files that contain the bytes of devices.

use std::rt::Files;
use std::{fs, str};

/// Returns the bytes of a file, or None if the file can't be read.
pub fn read_file<R: Files + AllocGlobal>(rt: &R, path: &[u8]) -> Option<Vec<u8>> {
    match str::from_utf8(path) {
        Ok(path) => fs::read(rt, path).ok(),
        Err(_) => None,
    }
}

/// Writes bytes to a file, and returns whether this succeeded.
pub fn write_file<R: Files>(rt: &R, path: &[u8], bytes: &[u8]) -> bool {
    match str::from_utf8(path) {
        Ok(path) => fs::write(rt, path, bytes).is_ok(),
        Err(_) => false,
    }
}
