// Escapes bytes as words, and unescapes words.

ghost use Rattle.std.specs.Prelude.{◌<◌};

use crate::arguments::read_number;
use std::alloc::{AllocError, Global};

// The part of an escape sequence that has been read.
#[derive(Clone, Copy)]
enum EscapeState {
    Text,
    Backslash,
    Mark,
    // The sequence up to its first hexadecimal digit, which has this value.
    Digit(u8),
}

// The result of reading one more byte of a word.
#[derive(Clone, Copy)]
enum EscapeStep {
    To(EscapeState),
    Byte(u8),
    Never,
}

// Returns whether a byte needs no escape in a word.
fn is_unescaped_byte(byte: u8) -> bool {
    (0x21..=0x7e).contains(&byte) && byte != b'\\'
}

fn hex_value(digit: u8) -> Option<u8> {
    match digit {
        b'0'..=b'9' => Some(digit - b'0'),
        b'a'..=b'f' => Some(digit - b'a' + 10),
        b'A'..=b'F' => Some(digit - b'A' + 10),
        _ => None,
    }
}

// Returns the result of reading one more byte after a part of an escape sequence.
fn next_escape_step(part: EscapeState, byte: u8) -> EscapeStep {
    match part {
        EscapeState::Text if byte == b'\\' => EscapeStep::To(EscapeState::Backslash),
        EscapeState::Text if is_unescaped_byte(byte) => EscapeStep::Byte(byte),
        EscapeState::Backslash if byte == b'x' => EscapeStep::To(EscapeState::Mark),
        EscapeState::Mark => match hex_value(byte) {
            Some(high) => EscapeStep::To(EscapeState::Digit(high)),
            None => EscapeStep::Never,
        },
        EscapeState::Digit(high) => match hex_value(byte) {
            Some(low) => EscapeStep::Byte(high << 4 | low),
            None => EscapeStep::Never,
        },
        _ => EscapeStep::Never,
    }
}

// Unescapes a text in which some bytes are written as `\xNN`. Returns None if the text isn't well
// formed.
fn read_escaped_text(alloc: Global, word: &[u8]) -> Result<Option<Vec<u8>>, AllocError> {
    let mut bytes = Vec::new(alloc);
    let mut part = EscapeState::Text;
    for byte in word {
        match next_escape_step(part, *byte) {
            EscapeStep::To(next) => part = next,
            EscapeStep::Byte(value) => {
                bytes.push(value)?;
                part = EscapeState::Text;
            }
            EscapeStep::Never => return Ok(None),
        }
    }
    match part {
        EscapeState::Text => Ok(Some(bytes)),
        _ => Ok(None),
    }
}

// Returns how often a word repeats its text, and the text. The number saturates.
fn split_repeat_count(word: &[u8]) -> Option<(u64, &[u8])> {
    let mut count = 1u64;
    let mut rest = word;
    for _ in 0..word.len() {
        let Some(behind) = rest.strip_prefix(b"*".as_slice()) else {
            break;
        };
        let end = behind.iter().position(|byte| *byte == b':')?;
        count = count.saturating_mul(u64::from(read_number(behind.get(..end)?, 10)?));
        rest = behind.get(end..)?.strip_prefix(b":".as_slice())?;
    }
    Some((count, rest))
}

/// Unescapes a word. Returns None if the word isn't well formed.
///
/// In a word, `\xNN` stands for any byte, and each byte from 0x21 to 0x7e except `\` stands for
/// itself. `\e` stands for the empty text, and `*COUNT:WORD` repeats the bytes of a word COUNT
/// times.
pub(crate) fn unescape_word(alloc: Global, word: &[u8]) -> Result<Option<Vec<u8>>, AllocError> {
    let Some((count, rest)) = split_repeat_count(word) else {
        return Ok(None);
    };
    if rest == b"\\e".as_slice() {
        return Ok(Some(Vec::new(alloc)));
    }
    match read_escaped_text(alloc, rest)? {
        Some(bytes) if count != 1 => Ok(Some(bytes.repeat(alloc, count as usize)?)),
        found => Ok(found),
    }
}

fn hex_digit(value: u8) -> u8
    requires { value < 16 }
{
    if value < 10 {
        b'0' + value
    } else {
        b'a' + (value - 10)
    }
}

/// Appends the word that `unescape_word` unescapes to the given bytes.
pub(crate) fn push_escaped_word(text: &mut Vec<u8>, bytes: &[u8]) -> Result<(), AllocError> {
    if bytes.is_empty() {
        text.extend_from_slice(b"\\e")?;
    }
    for byte in bytes {
        if is_unescaped_byte(*byte) && *byte != b'*' {
            text.push(*byte)?;
        } else {
            let escaped = [b'\\', b'x', hex_digit(byte / 16), hex_digit(byte % 16)];
            text.extend_from_slice(&escaped)?;
        }
    }
    Ok(())
}
