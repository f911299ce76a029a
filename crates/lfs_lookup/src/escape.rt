// Escapes for the bytes of paths in listings.

ghost use Rattle.std.specs.Prelude.{◌≡◌, ◌++◌, ◌<◌, OnOk};
ghost use Rattle.lfs_model.specs.layers.Listing.{escaped_byte, escaped_text, hex_digit};

use std::alloc::AllocError;

fn hex_digit_of(value: u8) -> u8
    requires { value < 16 }
    ensures { result ≡ hex_digit value }
{
    if value < 10 {
        b'0' + value
    } else {
        b'a' + (value - 10)
    }
}

fn push_escaped_byte(text: &mut Vec<u8>, byte: u8) -> Result<(), AllocError>
    ensures { OnOk result (text.new.items ≡ text.old.items ++ escaped_byte byte) }
{
    if (0x20..=0x7e).contains(&byte) && byte != b'\\' {
        text.push(byte)?;
    } else {
        let shown = [
            b'\\',
            b'x',
            hex_digit_of(byte / 16),
            hex_digit_of(byte % 16),
        ];
        text.extend_from_slice(&shown)?;
    }
    Ok(())
}

/// Appends a path in the form in which a listing prints it. Writes `\`, and each byte outside 0x20
/// to 0x7e, as `\x` and two hexadecimal digits.
pub fn push_escaped_path(text: &mut Vec<u8>, path: &[u8]) -> Result<(), AllocError>
    ensures { OnOk result (text.new.items ≡ text.old.items ++ escaped_text path.now) }
{
    for byte in path {
        push_escaped_byte(text, *byte)?;
    }
    Ok(())
}
