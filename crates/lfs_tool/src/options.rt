// The options and arguments of mklittlefs, and their parser.

ghost use Rattle.std.specs.Prelude.{◌≡◌, IfOk, false, map};
ghost use Rattle.clap.specs.Words.{FailsBy, app_of, fault_of, found_of, kind_of, rows_of, rule_of};
ghost use Rattle.lfs_tool.specs.Command.{command_without_options, mklittlefs, rule_of_row, with_rules};
ghost use Rattle.lfs_tool.specs.Matches.{HasImage, faults, rows};

use crate::help::{ABOUT, EXAMPLES, RULES, USAGE, VERSION};
use crate::values::first_bad_number;
use clap::error::ErrorKind;
use clap::{Arg, ArgAction, ArgMatches, Command, Error};
use std::alloc::{AllocError, Global};
use std::convert::AsStr;

// The values that an option accepts, with their names in the help.
#[derive(Clone, Copy)]
enum Value {
    Nothing,
    One(&'static str),
    Each(&'static [&'static str]),
    // One value for each use of the option, which may be given several times.
    Several(&'static str),
    // A value, and the default that applies if the option isn't given.
    Default(&'static str, &'static str),
    // A required positional argument.
    Needed(&'static str),
}

// An option: its long name, its letter, its value and its help text.
#[derive(Clone, Copy)]
struct OptionRow {
    name: &'static str,
    letter: Option<char>,
    value: Value,
    help: &'static str,
}

// Makes a table of options. Each line has a name, a letter, a value and a help text.
macro_rules! rows {
    ($($name:literal, $letter:expr, $value:expr, $help:literal;)+) => {
        [$(OptionRow { name: $name, letter: $letter, value: $value, help: $help }),+]
    };
}

// The options and arguments that `-h` shows: the modes, the most used options, and the image.
const COMMON: [OptionRow; 17] = rows![
    "image", None, Value::Needed("IMAGE"), "The file with the image, or - for standard input or output";
    "create", Some('c'), Value::One("DIR"), "Create IMAGE from the folder DIR";
    "unpack", Some('u'), Value::One("DIR"), "Unpack IMAGE into the folder DIR";
    "list", Some('l'), Value::Nothing, "List the files and folders in IMAGE";
    "check", None, Value::Nothing, "Say what is in IMAGE, or what is wrong with it";
    "cat", None, Value::One("PATH"), "Write the bytes of the file at PATH in IMAGE to standard output";
    "put", None, Value::Each(&["FILE", "PATH"]), "Put the bytes of FILE at PATH in IMAGE";
    "remove", None, Value::One("PATH"), "Remove the file or the empty folder at PATH in IMAGE";
    "mkdir", None, Value::One("PATH"), "Make a folder at PATH in IMAGE";
    "auto", None, Value::Nothing, "Use the block size, version and limits of IMAGE itself, without -c";
    "board", None, Value::One("NAME"), "Use this board's block size and limits, unless given explicitly";
    "block", Some('b'), Value::One("N"), "Size of a block in bytes, or auto [default: 4096]";
    "page", Some('p'), Value::One("N"), "Size of a page in bytes [default: 256]";
    "size", Some('s'), Value::One("N"), "Size of the image in bytes, or auto, with -c [default: 65536]";
    "also-2.1", None, Value::Nothing, "Accept images of version 2.1 too, in all modes but -c";
    "json", None, Value::Nothing, "Print JSON, with -l and --check";
    "explain", None, Value::Nothing, "Explain each error, as on a terminal";
];

// The other options, which only `--help` shows.
const FURTHER: [OptionRow; 12] = rows![
    "spare", None, Value::One("N"), "Spare blocks to add, with -c -s auto [default: 0]";
    "offset", None, Value::One("N"), "Bytes before the image, with -l, -u, --check and --cat [default: 0]";
    "order", None, Value::Default("ORDER", "longer-first"), "Order of names in the image that -c makes";
    "name-max", None, Value::One("N"), "Longest name in bytes, for -c, --check and changes [default: 255]";
    "file-max", None, Value::One("N"), "Longest file in bytes, for the same [default: 2147483647]";
    "attr-max", None, Value::One("N"), "Longest attribute in bytes, for the same [default: 1022]";
    "inline-max", None, Value::One("N"), "Longest inline file in bytes, for the same [default: an eighth of -b]";
    "pair-cycles", None, Value::One("N"), "Compactions until a metadata pair moves, or 0 [default: 0]";
    "exclude", None, Value::Several("PATTERN"), "Leave out the names that match PATTERN, with -c";
    "follow-links", None, Value::Nothing, "Read what symbolic links lead to, with -c";
    "skip-links", None, Value::Nothing, "Leave out symbolic links, with -c";
    "times", None, Value::Nothing, "Store or set the times of files and folders, with -c and -u";
];

// Returns the parser's argument for a row of the table.
fn arg_of_row<'a>(alloc: Global, row: &OptionRow, is_common: bool) -> Arg<'a>
    ensures rule { rule_of result ≡ rule_of_row row.now }
    ensures local { result.global ≡ false }
{
    let mut arg = Arg::new(alloc, row.name)
        .help(row.help)
        .hide_short_help(!is_common);
    if let Value::Needed(value) = row.value {
        return arg.action(ArgAction::Set).value_name(value).required(true);
    }
    if let Some(letter) = row.letter {
        arg = arg.short(letter);
    }
    let arg = arg.long(row.name);
    match row.value {
        Value::Nothing | Value::Needed(_) => arg.action(ArgAction::SetTrue),
        Value::One(value) => arg.action(ArgAction::Set).value_name(value),
        Value::Each(values) => arg.action(ArgAction::Set).value_names(values),
        Value::Several(value) => arg.action(ArgAction::Append).value_name(value),
        Value::Default(value, default) => arg
            .action(ArgAction::Set)
            .value_name(value)
            .default_value(default),
    }
}

// Returns a command to which the options of a table are added.
#[tactic(auto, using(crate::proofs::Table::row_added, crate::proofs::Table::rows_done))]
fn with_options<'a>(
    alloc: Global,
    start: Command<'a>,
    table: &[OptionRow],
    is_common: bool,
) -> Result<Command<'a>, AllocError>
    ensures { IfOk result (λ c. app_of c ≡ with_rules (app_of start.entry) (map rule_of_row table.now)) }
{
    let mut command = start;
    for row in table {
        command = command.arg(arg_of_row(alloc, row, is_common))?;
    }
    Ok(command)
}

// Returns the command with its help texts but without its arguments.
fn command_without_options<'a>(alloc: Global) -> Command<'a>
    ensures { app_of result ≡ command_without_options }
{
    Command::new(alloc, "mklittlefs")
        .version(VERSION)
        .about(ABOUT)
        .override_usage(USAGE)
        .after_help(EXAMPLES)
        .after_long_help(RULES)
}

// Returns the command of mklittlefs.
#[tactic(auto, unfolding(crate::specs::Command::mklittlefs))]
fn mklittlefs_command<'a>(alloc: Global) -> Result<Command<'a>, AllocError>
    ensures { IfOk result (λ c. app_of c ≡ mklittlefs) }
{
    let command = with_options(alloc, command_without_options(alloc), &COMMON, true)?;
    let command = with_options(alloc, command, &FURTHER, false)?;
    Ok(command)
}

// Returns the error for a value that isn't a number. The error's text states the option and the
// value.
fn number_error(alloc: Global, option: &str, text: &str) -> Result<Error, AllocError>
    ensures { IfOk result (λ e. kind_of e ≡ ErrorKind.ValueValidation) }
{
    let message = format!(in alloc;
        "invalid value '{text}' for '--{option} <N>': a number is 4096, 0x1000, 4k or 1.5M, and at most 4294967295"
    )?;
    let mut command = command_without_options(alloc);
    command.error(ErrorKind::ValueValidation, message.as_str())
}

// Returns the matches that clap finds in the words of a command line.
fn clap_matches<'a, S: AsStr>(alloc: Global, words: &'a [S]) -> Result<ArgMatches<'a>, Error>
    ensures kinds { FailsBy (fault_of mklittlefs (map S.text words.entry.now)) result }
    ensures matches { IfOk result (λ m. rows_of (found_of m) ≡ rows (map S.text words.entry.now)) }
    ensures image { IfOk result (λ m. HasImage (found_of m)) }
{
    mklittlefs_command(alloc)?.try_get_matches_from(words)
}

/// Returns the matches that clap finds in the words of a command line. Fails if clap refuses the
/// words, or if the value of a numeric option isn't a number.
pub(crate) fn parse_words<'a, S: AsStr>(
    alloc: Global,
    words: &'a [S],
) -> Result<ArgMatches<'a>, Error>
    ensures kinds { FailsBy (faults (map S.text words.entry.now)) result }
    ensures matches { IfOk result (λ m. rows_of (found_of m) ≡ rows (map S.text words.entry.now)) }
    ensures image { IfOk result (λ m. HasImage (found_of m)) }
{
    let matches = match clap_matches(alloc, words) {
        Ok(matches) => matches,
        Err(error) => return Err(error),
    };
    if let Some((option, text)) = first_bad_number(&matches) {
        return Err(number_error(alloc, option, text)?);
    }
    Ok(matches)
}
