ghost use Rattle.std.specs.Prelude.{◌≡◌, List, IfErr, IfOk, Some, false, map};
ghost use Rattle.clap.specs.Words.{Text, found_of, rows_of};
ghost use Rattle.lfs_tool.specs.Choices.{AreChoicesOf};
ghost use Rattle.lfs_tool.specs.Matches.{HasImage, IsLineError, IsLineOf, IsRequestOf, ParserAccepts, has_auto_blocks, has_misused_range, broken_limit, board_in_rows, order_in_rows, order_named, rows};

use crate::board::Board;
use crate::extras::{Misuse, RunOptions, first_option_misuse, parse_run_options};
use crate::limits::{Limit, first_broken_limit, profile_given_or};
use crate::modes::mode_of_matches;
use crate::options::parse_words;
use crate::values::{argument_text, flag_value, is_auto, number_given_or};
use clap::ArgMatches;
use lfs_model::{NameOrder, Profile};
use std::alloc::Global;
use std::convert::AsStr;
use thiserror::Error;

/// The task of the program, which its mode option selects.
#[derive(Clone, Copy, Debug, PartialEq)]
pub enum Mode<'a> {
    /// Creates the image from this folder.
    Create(&'a str),
    /// Unpacks the image into this folder.
    Unpack(&'a str),
    /// Lists the image.
    List,
    /// Checks the image.
    Check,
    /// Writes the bytes of the file at this path in the image to standard output.
    Cat(&'a str),
    /// Puts the bytes of the first path's file at the second path, which is a path in the image.
    Put(&'a str, &'a str),
    /// Removes the file or the empty directory at this path in the image.
    Remove(&'a str),
    /// Makes a directory at this path in the image.
    Mkdir(&'a str),
}

/// A parsed command line, whose numbers are as given. The sizes aren't checked yet.
#[derive(Clone, Copy, Debug, PartialEq)]
pub struct Line<'a> {
    pub mode: Mode<'a>,
    /// The block size in bytes.
    pub block_size: u32,
    /// Whether the superblock decides the block size and the number of blocks, as with `-b auto`
    /// and `--auto`.
    pub is_auto: bool,
    /// Whether the superblock also decides the versions and the limits, as with `--auto`.
    pub has_own_limits: bool,
    /// The offset of the image in its file, in bytes.
    pub offset: u32,
    /// The page size in bytes. A page is the unit of a program, like littlefs's `prog_size`.
    pub page: u32,
    /// The size in bytes of the image that `Mode::Create` makes.
    pub size: u32,
    /// The order of names in the image that `Mode::Create` makes.
    pub order: NameOrder,
    /// Whether an error is followed by lines that explain it, as with `--explain`.
    pub explain: bool,
    /// The accepted versions and the limits of the image.
    pub profile: Profile,
    /// The path of the image.
    pub image: &'a str,
}

/// A parsed command line: its `Line`, and the options that aren't part of it.
#[derive(Debug, Drop)]
pub struct Request<'a> {
    pub line: Line<'a>,
    pub extras: RunOptions<'a>,
}

// The mode, and the options whose value is one of several names.
#[derive(Clone, Copy)]
struct Choices<'a> {
    mode: Mode<'a>,
    order: NameOrder,
    board: Board,
}

/// The reason why a command line is refused.
#[derive(Debug, Drop, Error)]
pub enum LineError {
    /// The parser returned an error, the value of a numeric option isn't a number, help was
    /// requested, or memory couldn't be allocated.
    #[error(transparent)]
    Parser(clap::Error),
    /// The command line doesn't contain exactly one mode.
    #[error("error: give exactly one of -c, -u, -l")]
    Modes,
    /// The value of `--order` is neither `longer-first` nor `shorter-first`.
    #[error("error: --order is longer-first or shorter-first")]
    Order,
    /// The value of `--board` isn't one of the four known names.
    #[error("error: --board is esp8266, esp32, rp2040 or micropython")]
    Board,
    /// A limit is 0 or too large.
    #[error("error: {}", .0.rule())]
    Limit(Limit),
    /// An option has no meaning in this command line, or conflicts with another option.
    #[error("error: {}", .0.rule())]
    Misuse(Misuse),
    /// `-b auto` or `--offset` is given in a mode that writes an image.
    #[error("error: -b auto and --offset are for -l, -u, --check and --cat")]
    Part,
    /// A word isn't UTF-8. `read_line` never returns this error, since its words are text.
    #[error("error: the command line is not UTF-8")]
    NotUtf8,
}

// Returns the order of names with this name, or None if there is none.
fn order_of_text(text: &str) -> Option<NameOrder>
    ensures { result ≡ order_named text.now }
{
    if text == "longer-first" {
        Some(NameOrder::LongerFirst)
    } else if text == "shorter-first" {
        Some(NameOrder::ShorterFirst)
    } else {
        None
    }
}

// Returns the order of names that is given, or else the default. Returns None if the given name is
// unknown.
fn order_of_matches(matches: &ArgMatches<'_>) -> Option<NameOrder>
    ensures { result ≡ order_in_rows (rows_of (found_of matches.now)) }
{
    match argument_text(matches, "order") {
        Some(text) => order_of_text(text),
        None => None,
    }
}

// Returns the board that is given, or else `Unnamed`. Returns None if the given name is unknown.
fn board_of_matches(matches: &ArgMatches<'_>) -> Option<Board>
    ensures { result ≡ board_in_rows (rows_of (found_of matches.now)) }
{
    match argument_text(matches, "board") {
        Some(text) => Board::of_name(text),
        None => Some(Board::Unnamed),
    }
}

// Returns the mode, the order of names and the board that are given, or an error for the first one
// that is wrong.
fn choices_of_matches<'a>(matches: &ArgMatches<'a>) -> Result<Choices<'a>, LineError>
    ensures ok { IfOk result (AreChoicesOf (rows_of (found_of matches.now))) }
    ensures err { (words : List Text) → ParserAccepts words → rows_of (found_of matches.now) ≡ rows words → IfErr result (IsLineError words) }
{
    let Some(mode) = mode_of_matches(matches) else {
        return Err(LineError::Modes);
    };
    let Some(order) = order_of_matches(matches) else {
        return Err(LineError::Order);
    };
    match board_of_matches(matches) {
        Some(board) => Ok(Choices { mode, order, board }),
        None => Err(LineError::Board),
    }
}

// Returns whether `-b auto` or a nonzero `--offset` is given in a mode that writes an image.
fn has_misused_range(line: &Line<'_>) -> bool
    ensures { result ≡ has_misused_range line.now }
{
    match line.mode {
        Mode::Create(_) | Mode::Put(..) | Mode::Remove(_) | Mode::Mkdir(_) => {
            line.offset != 0 || (line.is_auto && !line.has_own_limits)
        }
        _ => false,
    }
}

// Returns whether the superblock decides the block size and the number of blocks.
fn has_auto_blocks(matches: &ArgMatches<'_>) -> bool
    ensures { result ≡ has_auto_blocks (rows_of (found_of matches.now)) }
{
    is_auto(matches, "block") || flag_value(matches, "auto")
}

// Returns the parsed command line, or the first limit that breaks its rule.
fn line_of_matches<'a>(matches: &ArgMatches<'a>, choices: Choices<'a>) -> Result<Line<'a>, Limit>
    requires image { HasImage (found_of matches.now) }
    requires choices { AreChoicesOf (rows_of (found_of matches.now)) choices }
    ensures ok { IfOk result (IsLineOf (rows_of (found_of matches.now))) }
    ensures err { IfErr result (λ limit. broken_limit (rows_of (found_of matches.now)) ≡ Some limit) }
{
    let board = choices.board;
    let block_size = number_given_or(matches, "block", board.block_size());
    if let Some(limit) = first_broken_limit(matches, block_size) {
        return Err(limit);
    }
    Ok(Line {
        mode: choices.mode,
        block_size,
        is_auto: has_auto_blocks(matches),
        has_own_limits: flag_value(matches, "auto"),
        offset: number_given_or(matches, "offset", 0),
        page: number_given_or(matches, "page", 256),
        size: number_given_or(matches, "size", 65536),
        order: choices.order,
        explain: flag_value(matches, "explain"),
        profile: profile_given_or(matches, board.profile()),
        image: argument_text(matches, "image").unwrap(),
    })
}

/// Parses the words of a command line, of which the first is the program's name. `--help` and
/// docs/TOOL.md list the options.
///
/// The defaults are blocks of 4096 bytes, pages of 256 bytes, an image of 65536 bytes, longer names
/// first, and the limits of the format. A board replaces the defaults for the block size, the
/// limits and the versions. The order of names and the limits are checked in every mode.
///
/// # Errors
/// The first of these errors that applies is returned:
/// - `LineError::Parser` if the parser refuses the words, if the value of a numeric option isn't a
///   number, or if the words ask for help or for the version. `LineError::Parser` is also returned
///   if memory can't be allocated.
/// - `LineError::Modes` if the command line doesn't contain exactly one mode.
/// - `LineError::Order` or `LineError::Board` if the name of an order or of a board is unknown.
/// - `LineError::Limit` if a limit is 0 or too large.
/// - `LineError::Part` if `-b auto` or an offset is given in a mode that writes an image.
/// - `LineError::Misuse` if another option has no meaning in this command line, or conflicts with
///   another option.
pub fn read_request<'a, S: AsStr>(alloc: Global, words: &'a [S]) -> Result<Request<'a>, LineError>
    ensures ok { IfOk result (λ request. ParserAccepts (map S.text words.entry.now)
        × IsRequestOf (rows (map S.text words.entry.now)) request) }
    ensures err { IfErr result (IsLineError (map S.text words.entry.now)) }
{
    let matches = match parse_words(alloc, words) {
        Ok(matches) => matches,
        Err(error) => return Err(LineError::Parser(error)),
    };
    let choices = match choices_of_matches(&matches) {
        Ok(choices) => choices,
        Err(error) => return Err(error),
    };
    let line = match line_of_matches(&matches, choices) {
        Ok(line) => line,
        Err(limit) => return Err(LineError::Limit(limit)),
    };
    if has_misused_range(&line) {
        return Err(LineError::Part);
    }
    if let Some(misuse) = first_option_misuse(&matches) {
        return Err(LineError::Misuse(misuse));
    }
    match parse_run_options(alloc, &matches) {
        Ok(extras) => Ok(Request { line, extras }),
        Err(error) => Err(LineError::Parser(clap::Error::from(error))),
    }
}

/// Parses the words of a command line as `read_request` does, and returns only its `Line`.
///
/// # Errors
/// Those of `read_request`.
pub fn read_line<'a, S: AsStr>(alloc: Global, words: &'a [S]) -> Result<Line<'a>, LineError>
    ensures ok { IfOk result (λ line. ParserAccepts (map S.text words.entry.now)
        × IsLineOf (rows (map S.text words.entry.now)) line × (has_misused_range line ≡ false)) }
    ensures err { IfErr result (IsLineError (map S.text words.entry.now)) }
{
    match read_request(alloc, words) {
        Ok(request) => Ok(request.line),
        Err(error) => Err(error),
    }
}
