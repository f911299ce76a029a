// Rules for reading a folder: which names are left out, and how symbolic links are treated.

/// The treatment of symbolic links.
#[derive(Clone, Copy, Debug, PartialEq, Eq)]
pub enum Links {
    /// Symbolic links cause `FileError::Fault`.
    Refuse,
    /// Symbolic links are followed.
    Follow,
    /// Symbolic links are left out.
    Skip,
}

/// The rules for reading a folder.
#[derive(Clone, Copy, Debug, PartialEq, Eq)]
pub struct FolderRules<'a> {
    /// The patterns of the names to leave out. In a pattern, `*` matches any bytes of a name, and
    /// `?` matches one character. A pattern that contains `/` is compared with the path below the
    /// folder, and any other pattern with each name.
    pub exclude: &'a [&'a str],
    pub links: Links,
}

// Returns the offset of the character after the one at this byte.
fn next_character_start(name: &[u8], at: usize) -> usize {
    let mut end = at.saturating_add(1);
    for _ in 0..3 {
        match name.get(end) {
            Some(byte) if (0x80..=0xbf).contains(byte) => end = end.saturating_add(1),
            _ => return end,
        }
    }
    end
}

// Returns whether a pattern matches a whole name or path.
fn fits(pattern: &[u8], name: &[u8]) -> bool {
    let (mut at, mut from) = (0usize, 0usize);
    // The offset after the pattern's last `*`, and the offset in the name where that star's match
    // ends.
    let mut star: Option<(usize, usize)> = None;
    for _ in 0..u64::MAX {
        match (pattern.get(at), name.get(from)) {
            (None, None) => return true,
            (Some(b'*'), _) => {
                at = at.saturating_add(1);
                star = Some((at, from));
            }
            (Some(b'?'), Some(byte)) if *byte != b'/' => {
                at = at.saturating_add(1);
                from = next_character_start(name, from);
            }
            (Some(wanted), Some(byte)) if wanted == byte => {
                at = at.saturating_add(1);
                from = from.saturating_add(1);
            }
            _ => match (star, name.get(from)) {
                (Some((behind, end)), Some(_)) if name.get(end) != Some(&b'/') => {
                    at = behind;
                    from = end.saturating_add(1);
                    star = Some((behind, from));
                }
                _ => return false,
            },
        }
    }
    false
}

// Returns a path or a pattern without its leading `/`, if it has one.
fn without_leading_slash<'a>(path: &'a [u8]) -> &'a [u8] {
    match path {
        [b'/', rest @ ..] => rest,
        _ => path,
    }
}

impl<'a> FolderRules<'a> {
    /// Returns rules that leave nothing out and refuse symbolic links.
    pub fn new() -> FolderRules<'a> {
        FolderRules {
            exclude: &[],
            links: Links::Refuse,
        }
    }

    // Returns whether a name is left out. `path` is the path of the name below the folder.
    pub(crate) fn is_excluded(self, path: &[u8], name: &[u8]) -> bool {
        for pattern in self.exclude {
            let pattern = pattern.as_bytes();
            let with = if pattern.contains(&b'/') { path } else { name };
            if fits(without_leading_slash(pattern), without_leading_slash(with)) {
                return true;
            }
        }
        false
    }
}
