// Tests which lines of a script are commands, and why other lines are refused.

use lfs_script_lines::{LineError, read_line};
use std::alloc::{AllocError, Global};
use std::test::Fail;

const LINES: [(&str, &str); 81] = [
    ("", "nothing"),
    ("# list /", "nothing"),
    (" # list /", "nothing"),
    // Words are separated by one space. Spaces around the words and the end of the line are
    // ignored.
    ("list /", "a command"),
    (" list /", "a command"),
    ("list  /", "two spaces stand side by side"),
    ("list / ", "a command"),
    ("list\t/", "no command has this name (--help lists them)"),
    ("list /\r", "a command"),
    ("   ", "nothing"),
    ("\r\n", "nothing"),
    ("  #  \r\n", "nothing"),
    ("list /\n", "a command"),
    ("list /\r\n", "a command"),
    ("  list /  \r\n", "a command"),
    // A CR is part of a word unless a newline directly follows it.
    (
        "list /\r\r\n",
        "word 2 is not spelled as bytes are (--help says how)",
    ),
    ("list / \r \n", "too many words: list PATH"),
    ("list\r /", "no command has this name (--help lists them)"),
    (
        "list /\n\n",
        "word 2 is not spelled as bytes are (--help says how)",
    ),
    // Each command has a name and a fixed number of words after it.
    ("List /", "no command has this name (--help lists them)"),
    ("list", "too few words: list PATH"),
    ("list / /", "too many words: list PATH"),
    ("save", "too few words: save FILE"),
    ("calls 1", "too many words: calls"),
    ("rename /a", "too few words: rename OLD NEW"),
    ("set-attr /a 41", "too few words: set-attr PATH TYPE BYTES"),
    (
        "set-attr /a 41 x y",
        "too many words: set-attr PATH TYPE BYTES",
    ),
    // Numbers are decimal, below 2^32 and without a sign.
    ("read 0 4294967295", "a command"),
    (
        "read 0 4294967296",
        "word 3 is no decimal number up to 4294967295",
    ),
    ("read 0 1a", "word 3 is no decimal number up to 4294967295"),
    ("read 0 +1", "word 3 is no decimal number up to 4294967295"),
    ("read 0 -1", "word 3 is no decimal number up to 4294967295"),
    // Flags and the types of attributes are hexadecimal.
    ("open /a 40a", "a command"),
    (
        "open /a 0x102",
        "word 3 is no hexadecimal number up to ffffffff",
    ),
    ("get-attr /a ff", "a command"),
    (
        "get-attr /a 100",
        "word 3 is no hexadecimal number up to ff",
    ),
    // Words that stand for bytes, with the number of repetitions.
    ("stat /\\x00\\xff", "a command"),
    (
        "stat /\\x0",
        "word 2 is not spelled as bytes are (--help says how)",
    ),
    (
        "stat /\\x0g",
        "word 2 is not spelled as bytes are (--help says how)",
    ),
    (
        "stat /\\n",
        "word 2 is not spelled as bytes are (--help says how)",
    ),
    (
        "stat /\\",
        "word 2 is not spelled as bytes are (--help says how)",
    ),
    (
        "stat /é",
        "word 2 is not spelled as bytes are (--help says how)",
    ),
    (
        "stat /\x7f",
        "word 2 is not spelled as bytes are (--help says how)",
    ),
    (
        "stat /\\e",
        "word 2 is not spelled as bytes are (--help says how)",
    ),
    (
        "stat *:/a",
        "word 2 is not spelled as bytes are (--help says how)",
    ),
    (
        "stat *2/a",
        "word 2 is not spelled as bytes are (--help says how)",
    ),
    (
        "stat *x:/a",
        "word 2 is not spelled as bytes are (--help says how)",
    ),
    // The parts of two sessions that a script can compare.
    ("compare", "a command"),
    ("compare entries", "a command"),
    ("compare ff", "a command"),
    ("compare 100", "word 2 is no hexadecimal number up to ff"),
    (
        "compare entries ff",
        "too many words: compare [TYPE | entries]",
    ),
    ("compare-with", "too few words: compare-with FILE"),
    ("compare-with a.img", "a command"),
    // The bytes that an erase leaves.
    (
        "fresh 4096 256",
        "too few words: fresh B P N [longer-first | shorter-first] [fill XX | keep]",
    ),
    (
        "fresh 4096 256 16 fill",
        "from word 5 on there are no options of the command",
    ),
    (
        "fresh 4096 256 16 fill 100",
        "word 6 is no hexadecimal number up to ff",
    ),
    (
        "fresh 4096 256 16 keep 00",
        "from word 5 on there are no options of the command",
    ),
    // The order of two names if one begins with the other.
    ("fresh 4096 256 16 shorter-first", "a command"),
    ("fresh 4096 256 16 longer-first keep", "a command"),
    (
        "fresh 4096 256 16 keep longer-first",
        "from word 5 on there are no options of the command",
    ),
    (
        "fresh 4096 256 16 first",
        "from word 5 on there are no options of the command",
    ),
    (
        "image 4096 256",
        "too few words: image B P FILE [fill XX | keep]",
    ),
    (
        "image 4096 256 \\",
        "word 4 is not spelled as bytes are (--help says how)",
    ),
    (
        "fresh 4096 256 16 longer-first fill 1g",
        "word 7 is no hexadecimal number up to ff",
    ),
    // The call of a mounted device that fails, and what the call leaves.
    ("mount program 1 torn 20", "a command"),
    (
        "mount any",
        "from word 2 on there are no options of the command",
    ),
    (
        "mount write 1",
        "from word 2 on there are no options of the command",
    ),
    (
        "mount any 1 whole stop",
        "from word 4 on there are no options of the command",
    ),
    (
        "mount program 1 torn",
        "from word 4 on there are no options of the command",
    ),
    (
        "mount program 1 torn 20 whole",
        "from word 4 on there are no options of the command",
    ),
    (
        "mount any x",
        "word 3 is no decimal number up to 4294967295",
    ),
    ("mount any 1 stop torn 1", "a command"),
    (
        "mount any 1 stop torn 1 2",
        "too many words: mount [KIND N [stop] [torn K | kept K | whole]]",
    ),
    // Bytes that a script puts on the current device.
    ("put 0 0 \\x00", "a command"),
    ("put 0 0 a keep", "a command"),
    (
        "put 0 0",
        "too few words: put BLOCK OFFSET BYTES [fill XX | keep]",
    ),
    ("bytes 0 0 1", "a command"),
    (
        "bytes 0 0 x",
        "word 4 is no decimal number up to 4294967295",
    ),
    ("format erase 2", "a command"),
    (
        "format erase",
        "from word 2 on there are no options of the command",
    ),
];

// Returns "a command", "nothing", or the reason why the line is refused.
fn line_verdict(alloc: Global, line: &str) -> Result<String, AllocError> {
    match read_line(alloc, line.as_bytes()) {
        Ok(Some(_)) => format!(in alloc; "a command"),
        Ok(None) => format!(in alloc; "nothing"),
        Err(LineError::Refused(reason)) => format!(in alloc; "{}", reason),
        Err(LineError::NoMemory) => Err(AllocError),
    }
}

#[test]
fn script_lines_are_parsed(rt: HostRuntime) -> Result<(), Fail> {
    for (line, verdict) in LINES {
        assert_eq!(rt; line_verdict(rt.alloc(), line)?.as_str(), verdict, "{line}");
    }
    Ok(())
}
