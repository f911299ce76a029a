// Parsing the numbers of a command line.

ghost use Rattle.std.specs.Prelude.{◌≡◌, ◌≤◌, ◌<◌, ◌^◌, ◌*◌, ◌+◌, ◌==◌, IfSome, Some, length, position};
ghost use Rattle.lfs_tool.specs.Numbers.{unit_fraction_bytes, bytes_of_unit, decimal_number, append_digits, number_by_point, number_in_text, number_of_digits, fractional_number, u32_or_none};

// Returns the value of one or more digits, or None if it exceeds 32 bits or a byte isn't a digit.
fn number_of_digits(digits: &[u8], radix: u32) -> Option<u32>
    requires two { 2 ≤ radix }
    requires sixteen { radix ≤ 16 }
    ensures { result ≡ u32_or_none (number_of_digits radix digits.now) }
{
    if digits.is_empty() {
        return None;
    }
    let mut number: u64 = 0;
    for byte in digits {
        let Some(digit) = (*byte as char).to_digit(radix) else {
            return None;
        };
        number = number * radix as u64 + digit as u64;
        if number > 0xFFFF_FFFF {
            return None;
        }
    }
    Some(number as u32)
}

// Returns the value of a decimal number. A `+` may precede any number, and a `-` may precede 0.
fn decimal_number(text: &[u8]) -> Option<u32>
    ensures { result ≡ u32_or_none (decimal_number text.now) }
{
    if text.is_empty() {
        return None;
    }
    if text[0] == b'+' {
        return number_of_digits(&text[1..], 10);
    }
    if text[0] == b'-' {
        return match number_of_digits(&text[1..], 10) {
            Some(0) => Some(0),
            _ => None,
        };
    }
    number_of_digits(text, 10)
}

// Returns the size in bytes of the unit with this letter.
fn bytes_of_unit(letter: u8) -> Option<u32>
    ensures { result ≡ bytes_of_unit letter }
{
    match letter {
        b'k' | b'K' => Some(1024),
        b'm' | b'M' => Some(1_048_576),
        _ => None,
    }
}

// Returns the number of bytes that the digits after a decimal point stand for. They are read from
// the last to the first.
fn bytes_of_fraction(digits: &[u8], unit: u32) -> Option<u32>
    requires { unit ≤ 1048576 }
    ensures { result ≡ unit_fraction_bytes unit (10 ^ length digits.now) (append_digits 10 0 digits.now) }
{
    let mut bytes: u32 = 0;
    let mut at = digits.len();
    while at > 0 {
        at -= 1;
        let Some(digit) = (digits[at] as char).to_digit(10) else {
            return None;
        };
        let tenths = digit * unit + bytes;
        if tenths % 10 != 0 {
            return None;
        }
        bytes = tenths / 10;
    }
    Some(bytes)
}

// Returns the number of bytes in `count` units and `more` bytes, or None if it exceeds 32 bits.
fn bytes_of_units(count: u32, unit: u32, more: u32) -> Option<u32>
    ensures { result ≡ u32_or_none (Some (count * unit + more)) }
{
    let bytes = count as u64 * unit as u64 + more as u64;
    if bytes <= 0xFFFF_FFFF {
        Some(bytes as u32)
    } else {
        None
    }
}

// Returns the number of bytes that a decimal fraction stands for, given the digits before and after
// its point.
fn fractional_number(whole: &[u8], fraction: &[u8], unit: u32) -> Option<u32>
    requires some { 0 < unit }
    requires most { unit ≤ 1048576 }
    ensures { result ≡ u32_or_none (fractional_number unit whole.now fraction.now) }
{
    if fraction.is_empty() {
        return None;
    }
    let Some(count) = number_of_digits(whole, 10) else {
        return None;
    };
    let Some(more) = bytes_of_fraction(fraction, unit) else {
        return None;
    };
    bytes_of_units(count, unit, more)
}

// Returns the index of the first decimal point.
fn first_point(text: &[u8]) -> Option<usize>
    ensures first { result ≡ position (λ c. c == 46) text.now }
    ensures within { IfSome result (λ point. point < length text.now) }
{
    text.iter().position(|byte| *byte == b'.')
}

// Returns the number of bytes that the text before a unit's letter stands for.
fn number_of_units(text: &[u8], unit: u32) -> Option<u32>
    requires some { 0 < unit }
    requires most { unit ≤ 1048576 }
    ensures { result ≡ u32_or_none (number_by_point unit text.now (position (λ c. c == 46) text.now)) }
{
    match first_point(text) {
        Some(point) => fractional_number(&text[..point], &text[point + 1..], unit),
        None => match number_of_digits(text, 10) {
            Some(count) => bytes_of_units(count, unit, 0),
            None => None,
        },
    }
}

// Returns the value of a text such as 4096, 0x1000, 4k or 1.5M, or None if it isn't a number or
// exceeds 32 bits.
#[tactic(auto, unfolding(crate::specs::Numbers::number_in_text))]
pub(crate) fn number_in_text(text: &str) -> Option<u32>
    ensures { result ≡ u32_or_none (number_in_text text.now) }
{
    let bytes = text.as_bytes();
    if bytes.len() >= 2 && bytes[0] == b'0' && (bytes[1] == b'x' || bytes[1] == b'X') {
        return number_of_digits(&bytes[2..], 16);
    }
    if bytes.is_empty() {
        return None;
    }
    let last = bytes.len() - 1;
    match bytes_of_unit(bytes[last]) {
        Some(unit) => number_of_units(&bytes[..last], unit),
        None => decimal_number(bytes),
    }
}
