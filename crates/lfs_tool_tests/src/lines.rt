// Command lines, and the output for those that are refused.

use crate::runs::program_words;
use crate::texts::report_of;
use lfs_device::{AcceptedVersions, Error, Profile};
use lfs_model::NameOrder;
use lfs_tool::{Fault, Line, LineError, Mode, ToolError, read_line};
use std::alloc::{AllocError, Global};
use std::test::Fail;

// The profile if no option changes it.
const PROFILE: Profile = Profile {
    versions: AcceptedVersions::OnlyTwoZero,
    name_max: 255,
    file_max: 2_147_483_647,
    attr_max: 1022,
    inline_max: 1022,
    pair_cycles: 0,
    search_seed: 0,
};

// The command line of a listing without options.
const DEFAULT: Line<'static> = Line {
    mode: Mode::List,
    block_size: 4096,
    is_auto: false,
    has_own_limits: false,
    offset: 0,
    page: 256,
    size: 65536,
    order: NameOrder::LongerFirst,
    explain: false,
    profile: PROFILE,
    image: "i",
};

// The words of command lines, and the expected result of parsing them.
const LINES: [(&str, Line<'static>); 13] = [
    // options that let the image's own superblock decide
    (
        "--auto -l --offset 1M i",
        Line {
            is_auto: true,
            has_own_limits: true,
            offset: 1_048_576,
            ..DEFAULT
        },
    ),
    (
        "--put f /a --auto -p128 --inline-max=64 --pair-cycles=3 i",
        Line {
            mode: Mode::Put("f", "/a"),
            is_auto: true,
            has_own_limits: true,
            page: 128,
            profile: Profile {
                inline_max: 64,
                pair_cycles: 3,
                ..PROFILE
            },
            ..DEFAULT
        },
    ),
    (
        "--mkdir=/d --pair-cycles 101 i",
        Line {
            mode: Mode::Mkdir("/d"),
            profile: Profile {
                pair_cycles: 101,
                ..PROFILE
            },
            ..DEFAULT
        },
    ),
    (
        "--list disk.img",
        Line {
            image: "disk.img",
            ..DEFAULT
        },
    ),
    (
        "--unpack dir -",
        Line {
            mode: Mode::Unpack("dir"),
            image: "-",
            ..DEFAULT
        },
    ),
    (
        "--check -b1024 disk.img",
        Line {
            mode: Mode::Check,
            block_size: 1024,
            image: "disk.img",
            ..DEFAULT
        },
    ),
    // `-` for a standard stream, which isn't an option
    (
        "-c dir - -s 8192",
        Line {
            mode: Mode::Create("dir"),
            size: 8192,
            image: "-",
            ..DEFAULT
        },
    ),
    (
        "-l disk.img",
        Line {
            image: "disk.img",
            ..DEFAULT
        },
    ),
    (
        "-cdir -b=512 -p +16 -s 1024 --order shorter-first i",
        Line {
            mode: Mode::Create("dir"),
            block_size: 512,
            page: 16,
            size: 1024,
            order: NameOrder::ShorterFirst,
            ..DEFAULT
        },
    ),
    (
        "i -u out -s 4294967295 --order=longer-first",
        Line {
            mode: Mode::Unpack("out"),
            size: 4_294_967_295,
            ..DEFAULT
        },
    ),
    (
        "--create dir --block 1024 --page=128 --size 262144 i",
        Line {
            mode: Mode::Create("dir"),
            block_size: 1024,
            page: 128,
            size: 262_144,
            ..DEFAULT
        },
    ),
    (
        "--explain -l i",
        Line {
            explain: true,
            ..DEFAULT
        },
    ),
    (
        "-bauto --offset 2M -l i",
        Line {
            is_auto: true,
            offset: 2_097_152,
            ..DEFAULT
        },
    ),
];

// Command lines with limits, boards and versions.
const PROFILES: [(&str, Line<'static>); 8] = [
    (
        "-l --also-2.1 i",
        Line {
            profile: Profile {
                versions: AcceptedVersions::AlsoTwoOne,
                ..PROFILE
            },
            ..DEFAULT
        },
    ),
    // the smallest and the largest value of each limit
    (
        "-cd --name-max=1 --file-max=1 --attr-max=1 --inline-max=1 i",
        Line {
            mode: Mode::Create("d"),
            profile: Profile {
                name_max: 1,
                file_max: 1,
                attr_max: 1,
                inline_max: 1,
                ..PROFILE
            },
            ..DEFAULT
        },
    ),
    (
        "-cd --name-max 255 --file-max 2147483647 --attr-max 1022 --inline-max 512 i",
        Line {
            mode: Mode::Create("d"),
            profile: Profile {
                inline_max: 512,
                ..PROFILE
            },
            ..DEFAULT
        },
    ),
    // numbers in all forms
    (
        "-cd -b=4K -p 0X80 -s 0x160000 --name-max=0x1F --file-max 1.5M --attr-max=0.5k --inline-max +256 i",
        Line {
            mode: Mode::Create("d"),
            page: 128,
            size: 1_441_792,
            profile: Profile {
                name_max: 31,
                file_max: 1_572_864,
                attr_max: 512,
                inline_max: 256,
                ..PROFILE
            },
            ..DEFAULT
        },
    ),
    // each board, and options that override it
    (
        "-cd --board esp8266 i",
        Line {
            mode: Mode::Create("d"),
            block_size: 8192,
            profile: Profile {
                versions: AcceptedVersions::AlsoTwoOne,
                name_max: 32,
                inline_max: 64,
                ..PROFILE
            },
            ..DEFAULT
        },
    ),
    (
        "--check --board=esp32 -b1024 i",
        Line {
            mode: Mode::Check,
            block_size: 1024,
            profile: Profile {
                versions: AcceptedVersions::AlsoTwoOne,
                name_max: 64,
                inline_max: 512,
                ..PROFILE
            },
            ..DEFAULT
        },
    ),
    (
        "-cd i --name-max 40 --board rp2040",
        Line {
            mode: Mode::Create("d"),
            profile: Profile {
                versions: AcceptedVersions::AlsoTwoOne,
                name_max: 40,
                inline_max: 256,
                ..PROFILE
            },
            ..DEFAULT
        },
    ),
    (
        "-cd --board micropython -b 8192 i",
        Line {
            mode: Mode::Create("d"),
            block_size: 8192,
            profile: Profile {
                versions: AcceptedVersions::AlsoTwoOne,
                inline_max: 128,
                ..PROFILE
            },
            ..DEFAULT
        },
    ),
];

// Returns whether the words of a text are parsed as the expected command line.
fn is_read_as(rt: &HostRuntime, text: &str, wanted: Line<'static>) -> Result<bool, Fail> {
    let words = program_words(rt.alloc(), text)?;
    let line = read_line(rt.alloc(), words.as_slice())?;
    Ok(line == wanted)
}

#[test]
fn command_lines_are_read(rt: HostRuntime) -> Result<(), Fail> {
    for (text, wanted) in LINES {
        assert!(rt; is_read_as(&rt, text, wanted)?, "{text}");
    }
    for (text, wanted) in PROFILES {
        assert!(rt; is_read_as(&rt, text, wanted)?, "{text}");
    }
    Ok(())
}

const MODES: &str = "error: give exactly one of -c, -u, -l\n";

const ORDER: &str = "error: --order is longer-first or shorter-first\n";

const BOARD: &str = "error: --board is esp8266, esp32, rp2040 or micropython\n";

const NAME_MAX: &str = "error: --name-max is from 1 to 255\n";

const FILE_MAX: &str = "error: --file-max is from 1 to 2147483647\n";

const ATTR_MAX: &str = "error: --attr-max is from 1 to 1022\n";

const INLINE_MAX: &str = "error: --inline-max is from 1 to 1022, and at most an eighth of -b\n";

const BAD_PAGE: &str = "\
error: invalid value '0x' for '--page <N>': a number is 4096, 0x1000, 4k or 1.5M, and at most 4294967295

Usage: mklittlefs (-c DIR | -u DIR | -l | --check | --cat PATH | --put FILE PATH | --remove PATH | --mkdir PATH) [OPTIONS] IMAGE

For more information, try '--help'.
";

const BAD_PAGE_IN_UNITS: &str = "\
error: invalid value '1.3k' for '--page <N>': a number is 4096, 0x1000, 4k or 1.5M, and at most 4294967295

Usage: mklittlefs (-c DIR | -u DIR | -l | --check | --cat PATH | --put FILE PATH | --remove PATH | --mkdir PATH) [OPTIONS] IMAGE

For more information, try '--help'.
";

const BAD_NAME_MAX: &str = "\
error: invalid value '0x100000000' for '--name-max <N>': a number is 4096, 0x1000, 4k or 1.5M, and at most 4294967295

Usage: mklittlefs (-c DIR | -u DIR | -l | --check | --cat PATH | --put FILE PATH | --remove PATH | --mkdir PATH) [OPTIONS] IMAGE

For more information, try '--help'.
";

const VERSION: &str = "mklittlefs 1.0.0 (littlefs on-disk version 2.0)\n";

// The options in the help. Those of `-h` come first.
const SHORT_HELP: [&str; 20] = [
    "Usage: mklittlefs (-c DIR | -u DIR | -l |",
    "-c, --create <DIR> ",
    "-u, --unpack <DIR> ",
    "-l, --list ",
    "    --check ",
    "    --cat <PATH> ",
    "    --put <FILE> <PATH> ",
    "    --remove <PATH> ",
    "    --mkdir <PATH> ",
    "    --auto ",
    "    --board <NAME> ",
    "-b, --block <N> ",
    "-p, --page <N> ",
    "-s, --size <N> ",
    "    --also-2.1 ",
    "    --json ",
    "    --explain ",
    "mklittlefs --auto -l flash.bin ",
    "mklittlefs --auto -u copy flash.bin ",
    "--help prints all options and their rules.\n",
];

const LONG_HELP: [&str; 22] = [
    "Usage: mklittlefs (-c DIR | -u DIR | -l |",
    "--create <DIR>\n",
    "--put <FILE> <PATH>\n",
    "--auto\n",
    "--spare <N>\n",
    "--offset <N>\n",
    "--order <ORDER>\n",
    "[default: longer-first]\n",
    "--name-max <N>\n",
    "--file-max <N>\n",
    "--attr-max <N>\n",
    "--inline-max <N>\n",
    "--pair-cycles <N>\n",
    "--exclude <PATTERN>\n",
    "--follow-links\n",
    "--skip-links\n",
    "--times\n",
    "upper or lower case",
    "MKLITTLEFS_EXPLAIN=1",
    "esp8266      -b 8192 --name-max 32 --inline-max 64 ",
    "esp32        -b 4096 --name-max 64 --inline-max 512 ",
    "from memory\n",
];

// Invalid command lines, which end with status 2. If the text on `err` isn't the parser's own, it
// is given.
const PART: &str = "error: -b auto and --offset are for -l, -u, --check and --cat\n";

const SIZE: &str = "error: --size auto is for -c\n";

const SPARE: &str = "error: --spare is for -c with --size auto\n";

const TIMES: &str = "error: --times is for -c and -u\n";

const STREAMS: &str = "error: --put takes - as FILE or as IMAGE, not as both\n";

const CYCLES: &str = "error: --pair-cycles is for --put, --remove and --mkdir\n";

const AUTO: &str = "error: --auto is for all modes but -c\n";

const DECIDED: &str =
    "error: --auto replaces -b, --board, --also-2.1, --name-max, --file-max and --attr-max\n";

const REFUSED: [(&str, Option<&str>); 58] = [
    // `--auto` together with an option that it replaces
    ("--auto -cd i", Some(AUTO)),
    ("--auto -cd -b512 i", Some(AUTO)),
    ("--auto -l -b4096 i", Some(DECIDED)),
    ("--auto -l -bauto i", Some(DECIDED)),
    ("--auto --check --board=esp32 i", Some(DECIDED)),
    ("--auto -ud --also-2.1 i", Some(DECIDED)),
    ("--auto --cat=/a --name-max=9 i", Some(DECIDED)),
    ("--auto --remove=/a --file-max=9 i", Some(DECIDED)),
    ("--auto --mkdir=/a --attr-max=9 i", Some(DECIDED)),
    ("--auto --mkdir=/a --offset=9 i", Some(PART)),
    // options for other modes
    ("-l -sauto i", Some(SIZE)),
    ("-cd --spare=1 i", Some(SPARE)),
    ("-l --spare=1 i", Some(SPARE)),
    ("-cd -sauto --spare=x i", None),
    ("--cat /a --times i", Some(TIMES)),
    ("--check --times i", Some(TIMES)),
    ("-l --times i", Some(TIMES)),
    ("-cd --pair-cycles 101 i", Some(CYCLES)),
    ("--cat /a --pair-cycles=0 i", Some(CYCLES)),
    ("--remove=/a --pair-cycles=x i", None),
    ("--put - /a --pair-cycles 1 -", Some(STREAMS)),
    ("--put - /a -", Some(STREAMS)),
    // part of a file in a mode that writes an image
    ("-cd -b auto i", Some(PART)),
    ("-cd --offset=1 i", Some(PART)),
    ("-l -pauto i", None),
    // no mode, or several
    ("i", Some(MODES)),
    ("-p 256 i -b0", Some(MODES)),
    ("-l -c d i", Some(MODES)),
    ("-l -u d i", Some(MODES)),
    ("-l --check i", Some(MODES)),
    ("--check -cd i", Some(MODES)),
    // an unknown order of names
    ("-l --order first i", Some(ORDER)),
    ("-c d --order  i", Some(ORDER)),
    // an unknown board, and limits that break their rules, of which the first is reported
    ("-l --board ESP32 i", Some(BOARD)),
    ("-l --board= --name-max=0 i", Some(BOARD)),
    ("-l --order=x --board=x i", Some(ORDER)),
    ("-cd --name-max 0 i", Some(NAME_MAX)),
    ("-cd --name-max=256 --file-max=0 i", Some(NAME_MAX)),
    ("-cd --file-max 0 i", Some(FILE_MAX)),
    ("-cd --file-max 2147483648 i", Some(FILE_MAX)),
    ("-cd --attr-max 0 i", Some(ATTR_MAX)),
    ("--check --attr-max 1023 i", Some(ATTR_MAX)),
    ("-cd --inline-max 0 i", Some(INLINE_MAX)),
    ("-cd --inline-max 513 i", Some(INLINE_MAX)),
    ("-cd -b65536 --inline-max 1023 i", Some(INLINE_MAX)),
    // words that the parser refuses
    ("-cd --name-max 4294967296 i", None),
    ("-cd --board", None),
    ("-l", None),
    ("-l i j", None),
    ("-l i -c", None),
    ("-l -b 4294967296 i", None),
    ("-x", None),
    // values that aren't numbers or are too large
    ("-l -p 0x i", Some(BAD_PAGE)),
    ("-cd -p=1.3k -s4k4 i", Some(BAD_PAGE_IN_UNITS)),
    ("--name-max 0x100000000 i", Some(BAD_NAME_MAX)),
    ("-l -s 4096M i", None),
    ("-l -b  i", None),
    ("-l -b 1.5 i", None),
];

// Returns whether a fault is reported with the expected status and text. The text must also be the
// one that the fault displays.
fn is_fault_reported_as(
    alloc: Global,
    fault: &Fault,
    status: u8,
    out: &str,
    err: Option<&str>,
) -> Result<bool, AllocError> {
    let report = report_of(alloc, fault);
    let told = report.err.as_slice();
    let text = format!(in alloc; "{fault}")?;
    let is_err = match err {
        Some(err) => {
            let own = if err.is_empty() { out } else { err };
            told == err.as_bytes() && text.trim_end() == own.trim_end()
        }
        None => !told.is_empty() && told != MODES.as_bytes(),
    };
    Ok(report.status == status && report.out.as_slice() == out.as_bytes() && is_err)
}

#[test]
fn faults_of_lines_are_shown(rt: HostRuntime) -> Result<(), Fail> {
    for (text, err) in REFUSED {
        let words = program_words(rt.alloc(), text)?;
        let is_reported = match read_line(rt.alloc(), words.as_slice()) {
            Ok(_) => false,
            Err(error) => is_fault_reported_as(rt.alloc(), &Fault::Line(error), 2, "", err)?,
        };
        assert!(rt; is_reported, "{text}");
    }
    Ok(())
}

#[test]
fn versions_are_shown(rt: HostRuntime) -> Result<(), Fail> {
    for text in ["--version", "-V"] {
        let words = program_words(rt.alloc(), text)?;
        let is_reported = match read_line(rt.alloc(), words.as_slice()) {
            Ok(_) => false,
            Err(error) => {
                is_fault_reported_as(rt.alloc(), &Fault::Line(error), 0, VERSION, Some(""))?
            }
        };
        assert!(rt; is_reported, "{text}");
    }
    Ok(())
}

// Returns whether the words print a help that contains `texts` but not `other`, in at most `most`
// lines.
fn is_help(
    alloc: Global,
    text: &str,
    texts: &[&str],
    other: &str,
    most: usize,
) -> Result<bool, AllocError> {
    let words = program_words(alloc, text)?;
    let Err(error) = read_line(alloc, words.as_slice()) else {
        return Ok(false);
    };
    let report = report_of(alloc, &Fault::Line(error));
    let Ok(out) = str::from_utf8(report.out.as_slice()) else {
        return Ok(false);
    };
    for text in texts {
        if !out.contains(*text) {
            return Ok(false);
        }
    }
    let is_short = out.lines().count() <= most && !out.contains(other);
    Ok(report.status == 0 && report.err.is_empty() && is_short)
}

#[test]
fn helps_are_shown(rt: HostRuntime) -> Result<(), Fail> {
    let alloc = rt.alloc();
    assert!(rt; is_help(alloc, "-l -h", &SHORT_HELP, "--name-max", 34)?);
    assert!(rt; is_help(alloc, "--help", &LONG_HELP, "as 4k", 250)?);
    Ok(())
}

// Errors of the tool, with their status and line.
const ERRORS: [(ToolError, u8, &str); 4] = [
    (ToolError::Fs(Error::NoEnt), 1, "error: NoEnt (2)\n"),
    (ToolError::Fs(Error::Failed), 1, "error: Failed (200)\n"),
    (ToolError::Input, 3, "error: input\n"),
    (ToolError::Output, 3, "error: output\n"),
];

const NOT_UTF8: &str = "error: the command line is not UTF-8\n";

#[test]
fn errors_are_shown(rt: HostRuntime) -> Result<(), Fail> {
    let not_utf8 = Fault::Line(LineError::NotUtf8);
    assert!(rt; is_fault_reported_as(rt.alloc(), &not_utf8, 2, "", Some(NOT_UTF8))?);
    for (error, status, line) in ERRORS {
        let is_reported = is_fault_reported_as(
            rt.alloc(),
            &Fault::Tool(error),
            status,
            "",
            Some(line),
        )?;
        assert!(rt; is_reported, "{line}");
    }
    Ok(())
}
