// The two orders of the names in a directory.

/// The order of the names in a directory. Names are compared byte by byte, and the two orders
/// differ only if one name is a prefix of the other.
#[derive(Clone, Copy, Debug, PartialEq, Eq)]
pub enum NameOrder {
    /// A name comes before all longer names that begin with it, as in a dictionary.
    ShorterFirst,
    /// A name comes after all longer names that begin with it, as in littlefs's own code.
    LongerFirst,
}
