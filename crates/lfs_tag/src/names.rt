// Names of files and directories.

ghost use Rattle.std.specs.Prelude.{◌≡◌, ◌==◌, ◌||◌, not};
ghost use Rattle.std.specs.List.{list_all};
ghost use Rattle.lfs_model.specs.format.Names.{is_component, is_valid_name, cmp_longer_first, name_cmp, same_name, slash_byte};

use lfs_model::NameOrder;
use std::cmp::Ordering;

/// Returns whether the bytes can be one component of a path. A component isn't empty, contains
/// neither a zero byte nor a slash, and is neither `.` nor `..`.
pub fn is_valid_component(name: &[u8]) -> bool
    ensures { result ≡ is_component name.now }
{
    !name.is_empty()
        && has_allowed_bytes(name)
        && !are_names_equal(name, b".")
        && !are_names_equal(name, b"..")
}

/// Returns whether the bytes can be the name of a file or a directory. A name is a path component
/// of at most 255 bytes.
pub fn is_name(name: &[u8]) -> bool
    ensures { result ≡ is_valid_name name.now }
{
    is_valid_component(name) && name.len() <= 255
}

fn are_names_equal(name: &[u8], other: &[u8]) -> bool
    ensures { result ≡ same_name name.now other.now }
{
    name == other
}

// Returns whether the name contains neither a zero byte nor a slash.
fn has_allowed_bytes(name: &[u8]) -> bool
    ensures { result ≡ list_all (λ b. not (b == 0 || b == slash_byte)) name.now }
{
    name.iter().all(|byte| !(*byte == 0 || *byte == b'/'))
}

/// Compares two names byte by byte. If one name is a prefix of the other, `order` decides which of
/// them comes first.
pub fn name_cmp(order: NameOrder, name: &[u8], other: &[u8]) -> Ordering
    ensures { result ≡ name_cmp order name.now other.now }
{
    match order {
        NameOrder::ShorterFirst => name.cmp(other),
        NameOrder::LongerFirst => compare_longer_first(name, other),
    }
}

fn compare_longer_first(name: &[u8], other: &[u8]) -> Ordering
    ensures { result ≡ cmp_longer_first name.now other.now }
{
    let shared = name.len().min(other.len());
    name[..shared]
        .cmp(&other[..shared])
        .then(other.len().cmp(&name.len()))
}
