// The mode of a command line.

ghost use Rattle.std.specs.Prelude.{◌≡◌, MatchOption, Some, map, option_map};
ghost use Rattle.clap.specs.Words.{found_of, rows_of};
ghost use Rattle.lfs_tool.specs.Matches.{AreGivenModes, HasOneMode, IsModeOf, folder_mode_flags, given_two_texts, exactly_two_texts, path_mode_flags};

use crate::line::Mode;
use crate::values::{argument_text, flag_value};
use clap::ArgMatches;

// The modes that are given: none, one or several.
#[derive(Clone, Copy)]
enum GivenModes<'a> {
    None,
    One(Mode<'a>),
    Several,
}

// Returns which of the modes for a whole image are given.
fn given_folder_modes<'a>(matches: &ArgMatches<'a>) -> GivenModes<'a>
    ensures { AreGivenModes (folder_mode_flags (rows_of (found_of matches.now))) (rows_of (found_of matches.now)) result }
{
    let create = argument_text(matches, "create");
    let unpack = argument_text(matches, "unpack");
    let list = flag_value(matches, "list");
    let check = flag_value(matches, "check");
    match (create, unpack, list, check) {
        (None, None, false, false) => GivenModes::None,
        (Some(dir), None, false, false) => GivenModes::One(Mode::Create(dir)),
        (None, Some(dir), false, false) => GivenModes::One(Mode::Unpack(dir)),
        (None, None, true, false) => GivenModes::One(Mode::List),
        (None, None, false, true) => GivenModes::One(Mode::Check),
        _ => GivenModes::Several,
    }
}

// Returns the two texts of a slice, or None if it doesn't have exactly two.
fn two_texts<'a>(texts: &[&'a str]) -> Option<(&'a str, &'a str)>
    ensures { option_map (λ two. (two.0.now, two.1.now)) result ≡ exactly_two_texts (Some (map (λ t. t.now) texts.now)) }
{
    if texts.len() == 2 {
        Some((texts[0], texts[1]))
    } else {
        None
    }
}

// Returns the two values of an option, or None if it isn't given.
fn pair_of_texts<'a>(matches: &ArgMatches<'a>, id: &str) -> Option<(&'a str, &'a str)>
    ensures { option_map (λ two. (two.0.now, two.1.now)) result ≡ given_two_texts id.now (rows_of (found_of matches.now)) }
{
    match matches.get_strs(id) {
        Some(texts) => two_texts(texts),
        None => None,
    }
}

// Returns which of the modes for a path in an image are given.
fn given_path_modes<'a>(matches: &ArgMatches<'a>) -> GivenModes<'a>
    ensures { AreGivenModes (path_mode_flags (rows_of (found_of matches.now))) (rows_of (found_of matches.now)) result }
{
    let cat = argument_text(matches, "cat");
    let put = pair_of_texts(matches, "put");
    let remove = argument_text(matches, "remove");
    let mkdir = argument_text(matches, "mkdir");
    match (cat, put, remove, mkdir) {
        (None, None, None, None) => GivenModes::None,
        (Some(path), None, None, None) => GivenModes::One(Mode::Cat(path)),
        (None, Some((file, path)), None, None) => GivenModes::One(Mode::Put(file, path)),
        (None, None, Some(path), None) => GivenModes::One(Mode::Remove(path)),
        (None, None, None, Some(path)) => GivenModes::One(Mode::Mkdir(path)),
        _ => GivenModes::Several,
    }
}

// Returns the mode, or None if not exactly one mode is given.
pub(crate) fn mode_of_matches<'a>(matches: &ArgMatches<'a>) -> Option<Mode<'a>>
    ensures { MatchOption result (¬ HasOneMode (rows_of (found_of matches.now)))
        (λ mode. HasOneMode (rows_of (found_of matches.now)) × IsModeOf (rows_of (found_of matches.now)) mode) }
{
    let (folder, path) = (given_folder_modes(matches), given_path_modes(matches));
    match (folder, path) {
        (GivenModes::One(mode), GivenModes::None) => Some(mode),
        (GivenModes::None, GivenModes::One(mode)) => Some(mode),
        _ => None,
    }
}
