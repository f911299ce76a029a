// Parses the words after a command's name. A missing word is treated as an empty one.

ghost use Rattle.std.specs.Prelude.{◌≤◌};

use crate::lines::LineError;
use crate::refusal::LineRefusal;
use crate::words::unescape_word;
use bitflags::Flags;
use lfs_fs::OpenFlags;
use std::alloc::Global;
use std::str;

// Returns the word at an index, or an empty word if there is none.
pub(crate) fn word_at<'a>(words: &[&'a [u8]], place: usize) -> &'a [u8] {
    match words.get(place) {
        Some(word) => word,
        None => b"",
    }
}

// Parses a number below 2^32 without a sign in the given base.
pub(crate) fn read_number(word: &[u8], base: u32) -> Option<u32>
    requires low { 2 ≤ base }
    requires high { base ≤ 36 }
{
    if word.starts_with(b"+") {
        return None;
    }
    match str::from_utf8(word) {
        Ok(text) => u32::from_str_radix(text, base).ok(),
        Err(_) => None,
    }
}

// Returns the refusal of the word at an index, which isn't of the kind that the command needs
// there.
fn wrong_word_error(place: usize, kind: &'static str) -> LineError {
    LineError::Refused(LineRefusal::Word(place, kind))
}

// Parses the word at an index as a decimal number.
pub(crate) fn number_at(words: &[&[u8]], place: usize) -> Result<u32, LineError> {
    match read_number(word_at(words, place), 10) {
        Some(number) => Ok(number),
        None => Err(wrong_word_error(place, "no decimal number up to 4294967295")),
    }
}

// Parses the word at an index as flags in hexadecimal.
pub(crate) fn flags_at(words: &[&[u8]], place: usize) -> Result<OpenFlags, LineError> {
    match read_number(word_at(words, place), 16) {
        Some(bits) => Ok(OpenFlags::from_bits_retain(bits)),
        None => Err(wrong_word_error(place, "no hexadecimal number up to ffffffff")),
    }
}

// Parses the word at an index as a byte in hexadecimal.
pub(crate) fn byte_at(words: &[&[u8]], place: usize) -> Result<u8, LineError> {
    match read_number(word_at(words, place), 16) {
        Some(number) if number < 256 => Ok(number as u8),
        _ => Err(wrong_word_error(place, "no hexadecimal number up to ff")),
    }
}

// Unescapes the word at an index.
pub(crate) fn bytes_at(alloc: Global, words: &[&[u8]], place: usize) -> Result<Vec<u8>, LineError> {
    match unescape_word(alloc, word_at(words, place))? {
        Some(bytes) => Ok(bytes),
        None => Err(wrong_word_error(place, "not spelled as bytes are (--help says how)")),
    }
}
