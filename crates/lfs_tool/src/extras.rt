// The options of a command line that aren't part of `Line`.

ghost use Rattle.std.specs.Prelude.{◌≡◌, IfOk};
ghost use Rattle.clap.specs.Words.{found_of, rows_of};
ghost use Rattle.lfs_tool.specs.RunOptions.{AreRunOptionsOf, AreExcludePatternsOf, changes_image, has_auto_conflict, is_given, is_standard_stream, auto_misuse, first_option_misuse, run_option_misuse, misuse_rule};

use crate::values::{argument_text, flag_value, is_auto, number_given_or};
use clap::ArgMatches;
use std::alloc::{AllocError, Global};

/// The options of a command line that aren't part of `Line`.
#[derive(Debug, Drop)]
pub struct RunOptions<'a> {
    /// Whether `Mode::Create` makes the smallest image that the folder fits in.
    pub is_size_auto: bool,
    /// The number of spare blocks to add to the smallest image.
    pub spare: u32,
    /// The patterns of the names that `Mode::Create` leaves out.
    pub exclude: Vec<&'a str>,
    /// Whether `Mode::Create` follows symbolic links.
    pub follow_links: bool,
    /// Whether `Mode::Create` leaves out symbolic links.
    pub skip_links: bool,
    /// Whether `Mode::Create` stores the times of files and folders, or `Mode::Unpack` restores
    /// them.
    pub times: bool,
    /// Whether `Mode::List` and `Mode::Check` print JSON.
    pub json: bool,
}

/// A misuse of an option: the option has no meaning in its command line, or conflicts with another
/// option.
#[derive(Clone, Copy, Debug, PartialEq, Eq, Drop)]
pub enum Misuse {
    /// An option for reading a folder is given without `-c`.
    Folder,
    /// Both `--follow-links` and `--skip-links` are given.
    Links,
    /// `--json` is given without `-l` or `--check`.
    Json,
    /// `--size auto` is given without `-c`.
    Size,
    /// `--spare` is given without `--size auto`.
    Spare,
    /// `--times` is given without `-c` or `-u`.
    Times,
    /// `--pair-cycles` is given without `--put`, `--remove` or `--mkdir`.
    Cycles,
    /// The file for `--put` and the image are both standard input.
    Streams,
    /// `--auto` is given with `-c`.
    Auto,
    /// `--auto` is given with an option whose value it reads from the superblock.
    Decided,
}

impl Misuse {
    /// Returns the text of the rule that the misuse breaks, as the error line states it.
    pub fn rule(self) -> &'static str
        ensures { result.now ≡ misuse_rule self }
    {
        match self {
            Misuse::Folder => "--exclude, --follow-links and --skip-links are for -c",
            Misuse::Links => "give one of --follow-links and --skip-links",
            Misuse::Json => "--json is for -l and --check",
            Misuse::Size => "--size auto is for -c",
            Misuse::Spare => "--spare is for -c with --size auto",
            Misuse::Times => "--times is for -c and -u",
            Misuse::Cycles => "--pair-cycles is for --put, --remove and --mkdir",
            Misuse::Streams => "--put takes - as FILE or as IMAGE, not as both",
            Misuse::Auto => "--auto is for all modes but -c",
            Misuse::Decided => {
                "--auto replaces -b, --board, --also-2.1, --name-max, --file-max and --attr-max"
            }
        }
    }
}

// Returns whether an option that has a value is given.
fn is_given(matches: &ArgMatches<'_>, id: &str) -> bool
    ensures { result ≡ is_given id.now (rows_of (found_of matches.now)) }
{
    argument_text(matches, id).is_some()
}

// Returns whether the value of an option or an argument is `-`, which means a standard stream.
fn is_standard_stream(matches: &ArgMatches<'_>, id: &str) -> bool
    ensures { result ≡ is_standard_stream id.now (rows_of (found_of matches.now)) }
{
    match argument_text(matches, id) {
        Some(text) => text == "-",
        None => false,
    }
}

// Returns whether the mode changes an image in place.
fn changes_image(matches: &ArgMatches<'_>) -> bool
    ensures { result ≡ changes_image (rows_of (found_of matches.now)) }
{
    is_given(matches, "put") || is_given(matches, "remove") || is_given(matches, "mkdir")
}

// Returns the first misuse of the options for sizes, times, pair cycles and files.
fn run_option_misuse(matches: &ArgMatches<'_>) -> Option<Misuse>
    ensures { result ≡ run_option_misuse (rows_of (found_of matches.now)) }
{
    let creates = is_given(matches, "create");
    let is_size_auto = is_auto(matches, "size");
    if !creates && is_size_auto {
        return Some(Misuse::Size);
    }
    if is_given(matches, "spare") && !is_size_auto {
        return Some(Misuse::Spare);
    }
    if flag_value(matches, "times") && !(creates || is_given(matches, "unpack")) {
        return Some(Misuse::Times);
    }
    if is_given(matches, "pair-cycles") && !changes_image(matches) {
        return Some(Misuse::Cycles);
    }
    if is_standard_stream(matches, "put") && is_standard_stream(matches, "image") {
        return Some(Misuse::Streams);
    }
    auto_misuse(matches)
}

// Returns whether an option is given whose value `--auto` reads from the superblock.
fn has_auto_conflict(matches: &ArgMatches<'_>) -> bool
    ensures { result ≡ has_auto_conflict (rows_of (found_of matches.now)) }
{
    let gives_sizes = is_given(matches, "block") || is_given(matches, "board");
    let gives_names = is_given(matches, "name-max") || is_given(matches, "file-max");
    let gives_others = is_given(matches, "attr-max") || flag_value(matches, "also-2.1");
    gives_sizes || gives_names || gives_others
}

// Returns the misuse of `--auto`, or None if there is none.
fn auto_misuse(matches: &ArgMatches<'_>) -> Option<Misuse>
    ensures { result ≡ auto_misuse (rows_of (found_of matches.now)) }
{
    if !flag_value(matches, "auto") {
        return None;
    }
    if is_given(matches, "create") {
        return Some(Misuse::Auto);
    }
    if has_auto_conflict(matches) {
        return Some(Misuse::Decided);
    }
    None
}

/// Returns the first misuse of an option, or None if there is none.
pub(crate) fn first_option_misuse(matches: &ArgMatches<'_>) -> Option<Misuse>
    ensures { result ≡ first_option_misuse (rows_of (found_of matches.now)) }
{
    let follow = flag_value(matches, "follow-links");
    let skip = flag_value(matches, "skip-links");
    let creates = is_given(matches, "create");
    if !creates && (is_given(matches, "exclude") || follow || skip) {
        return Some(Misuse::Folder);
    }
    if follow && skip {
        return Some(Misuse::Links);
    }
    let shows = flag_value(matches, "list") || flag_value(matches, "check");
    if flag_value(matches, "json") && !shows {
        return Some(Misuse::Json);
    }
    run_option_misuse(matches)
}

// Returns the patterns of the names to leave out.
fn patterns_of_matches<'a>(
    alloc: Global,
    matches: &ArgMatches<'a>,
) -> Result<Vec<&'a str>, AllocError>
    ensures { IfOk result (AreExcludePatternsOf (rows_of (found_of matches.now))) }
{
    match matches.get_strs("exclude") {
        Some(patterns) => Ok(Vec::from_slice(alloc, patterns)?),
        None => Ok(Vec::new(alloc)),
    }
}

/// Returns the options of a command line that aren't part of `Line`.
///
/// Errors: `AllocError` if memory can't be allocated.
pub(crate) fn parse_run_options<'a>(
    alloc: Global,
    matches: &ArgMatches<'a>,
) -> Result<RunOptions<'a>, AllocError>
    ensures { IfOk result (AreRunOptionsOf (rows_of (found_of matches.now))) }
{
    let exclude = patterns_of_matches(alloc, matches)?;
    Ok(RunOptions {
        is_size_auto: is_auto(matches, "size"),
        spare: number_given_or(matches, "spare", 0),
        exclude,
        follow_links: flag_value(matches, "follow-links"),
        skip_links: flag_value(matches, "skip-links"),
        times: flag_value(matches, "times"),
        json: flag_value(matches, "json"),
    })
}
