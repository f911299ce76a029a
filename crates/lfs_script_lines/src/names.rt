// The names and the usage of commands.

/// The name of a command, which is the first word of its line.
#[derive(Clone, Copy)]
pub(crate) enum CommandName {
    Fresh,
    Image,
    Profile,
    BlankChecks,
    Unmount,
    Mount,
    Format,
    Put,
    Bytes,
    Save,
    Calls,
    Compare,
    CompareWith,
    Open,
    Read,
    Write,
    Seek,
    Truncate,
    Sync,
    Close,
    Mkdir,
    Remove,
    Rename,
    List,
    Stat,
    GetAttr,
    SetAttr,
    RemoveAttr,
    Gstate,
    IsUsed,
    UsedCount,
    Recover,
    Remount,
}

const NAMES: [CommandName; 33] = [
    CommandName::Fresh,
    CommandName::Image,
    CommandName::Profile,
    CommandName::BlankChecks,
    CommandName::Unmount,
    CommandName::Mount,
    CommandName::Format,
    CommandName::Put,
    CommandName::Bytes,
    CommandName::Save,
    CommandName::Calls,
    CommandName::Compare,
    CommandName::CompareWith,
    CommandName::Open,
    CommandName::Read,
    CommandName::Write,
    CommandName::Seek,
    CommandName::Truncate,
    CommandName::Sync,
    CommandName::Close,
    CommandName::Mkdir,
    CommandName::Remove,
    CommandName::Rename,
    CommandName::List,
    CommandName::Stat,
    CommandName::GetAttr,
    CommandName::SetAttr,
    CommandName::RemoveAttr,
    CommandName::Gstate,
    CommandName::IsUsed,
    CommandName::UsedCount,
    CommandName::Recover,
    CommandName::Remount,
];

impl CommandName {
    /// Returns the usage of a command: its name and its arguments.
    pub(crate) fn usage(self) -> &'static str {
        match self {
            CommandName::Fresh => "fresh B P N [longer-first | shorter-first] [fill XX | keep]",
            CommandName::Image => "image B P FILE [fill XX | keep]",
            CommandName::Profile => {
                "profile [also-2.1] [name-max N] [file-max N] [attr-max N] [inline-max N] [pair-cycles N]"
            }
            CommandName::BlankChecks => "blank-checks",
            CommandName::Unmount => "unmount",
            CommandName::Mount => "mount [KIND N [stop] [torn K | kept K | whole]]",
            CommandName::Format => "format [KIND N [stop] [torn K | kept K | whole]]",
            CommandName::Put => "put BLOCK OFFSET BYTES [fill XX | keep]",
            CommandName::Bytes => "bytes BLOCK OFFSET N",
            CommandName::Save => "save FILE",
            CommandName::Calls => "calls",
            CommandName::Compare => "compare [TYPE | entries]",
            CommandName::CompareWith => "compare-with FILE",
            CommandName::Open => "open PATH FLAGS",
            CommandName::Read => "read FD N",
            CommandName::Write => "write FD BYTES",
            CommandName::Seek => "seek FD POSITION",
            CommandName::Truncate => "truncate FD SIZE",
            CommandName::Sync => "sync FD",
            CommandName::Close => "close FD",
            CommandName::Mkdir => "mkdir PATH",
            CommandName::Remove => "remove PATH",
            CommandName::Rename => "rename OLD NEW",
            CommandName::List => "list PATH",
            CommandName::Stat => "stat PATH",
            CommandName::GetAttr => "get-attr PATH TYPE",
            CommandName::SetAttr => "set-attr PATH TYPE BYTES",
            CommandName::RemoveAttr => "remove-attr PATH TYPE",
            CommandName::Gstate => "gstate",
            CommandName::IsUsed => "is-used BLOCK",
            CommandName::UsedCount => "used-count",
            CommandName::Recover => "recover",
            CommandName::Remount => "remount",
        }
    }

    /// Returns the minimum and maximum number of words after a command's name.
    pub(crate) fn argument_counts(self) -> (usize, usize) {
        match self {
            CommandName::Fresh => (3, 6),
            CommandName::Image | CommandName::Put => (3, 5),
            CommandName::Profile => (0, 11),
            CommandName::BlankChecks
            | CommandName::Unmount
            | CommandName::Calls
            | CommandName::Gstate
            | CommandName::UsedCount
            | CommandName::Recover
            | CommandName::Remount => (0, 0),
            CommandName::Mount | CommandName::Format => (0, 5),
            CommandName::Bytes | CommandName::SetAttr => (3, 3),
            CommandName::Save
            | CommandName::CompareWith
            | CommandName::Sync
            | CommandName::Close
            | CommandName::Mkdir
            | CommandName::Remove
            | CommandName::List
            | CommandName::Stat
            | CommandName::IsUsed => (1, 1),
            CommandName::Compare => (0, 1),
            _ => (2, 2),
        }
    }
}

// Returns whether the command with this usage has the name `word`.
fn is_named(usage: &str, word: &[u8]) -> bool {
    match usage.as_bytes().strip_prefix(word) {
        Some(rest) => rest.is_empty() || rest.starts_with(b" "),
        None => false,
    }
}

/// Returns the command with the name `word`, if there is one.
pub(crate) fn command_of_word(word: &[u8]) -> Option<CommandName> {
    for name in NAMES {
        if is_named(name.usage(), word) {
            return Some(name);
        }
    }
    None
}
