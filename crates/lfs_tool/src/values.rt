// The values of the options in a command line.

ghost use Rattle.std.specs.Prelude.{◌≡◌, map, option_map};
ghost use Rattle.clap.specs.Words.{first_of, found_of, rows_of};
ghost use Rattle.lfs_tool.specs.Values.{bad_option_number, bad_option_size, first_bad_number, first_bad_text, flag_in_rows, is_option_auto, number_or, number_in_rows};

use crate::numbers::number_in_text;
use clap::ArgMatches;

// Returns the value of an option or an argument, or None if it isn't given.
pub(crate) fn argument_text<'a>(matches: &ArgMatches<'a>, id: &str) -> Option<&'a str>
    ensures { option_map (λ s. s.now) result ≡ first_of id.now (rows_of (found_of matches.now)) }
{
    matches.get_str(id)
}

// Returns whether a flag is given.
pub(crate) fn flag_value(matches: &ArgMatches<'_>, id: &str) -> bool
    ensures { result ≡ flag_in_rows id.now (rows_of (found_of matches.now)) }
{
    matches.get_one::<bool>(id).unwrap_or(false)
}

// Returns the number that an option is given, or None if the option isn't given.
pub(crate) fn given_number(matches: &ArgMatches<'_>, id: &str) -> Option<u32>
    ensures { result ≡ number_in_rows id.now (rows_of (found_of matches.now)) }
{
    match argument_text(matches, id) {
        Some(text) => number_in_text(text),
        None => None,
    }
}

// Returns the number that an option is given, or `other` if the option isn't given.
pub(crate) fn number_given_or(matches: &ArgMatches<'_>, id: &str, other: u32) -> u32
    ensures { result ≡ number_or other id.now (rows_of (found_of matches.now)) }
{
    given_number(matches, id).unwrap_or(other)
}

// Returns the value of a numeric option if it isn't a number, and otherwise None.
fn bad_number<'a>(matches: &ArgMatches<'a>, id: &str) -> Option<&'a str>
    ensures { option_map (λ s. s.now) result ≡ bad_option_number id.now (rows_of (found_of matches.now)) }
{
    match argument_text(matches, id) {
        Some(text) => match number_in_text(text) {
            Some(_) => None,
            None => Some(text),
        },
        None => None,
    }
}

// Returns whether the value of an option is `auto`.
pub(crate) fn is_auto(matches: &ArgMatches<'_>, id: &str) -> bool
    ensures { result ≡ is_option_auto id.now (rows_of (found_of matches.now)) }
{
    match argument_text(matches, id) {
        Some(text) => text == "auto",
        None => false,
    }
}

// Returns the value of an option if it is neither a number nor `auto`, and otherwise None.
fn bad_size<'a>(matches: &ArgMatches<'a>, id: &str) -> Option<&'a str>
    ensures { option_map (λ s. s.now) result ≡ bad_option_size id.now (rows_of (found_of matches.now)) }
{
    if is_auto(matches, id) {
        return None;
    }
    bad_number(matches, id)
}

// Returns the first of these options whose value isn't a number, with that value.
#[tactic(auto, using(crate::proofs::Table::bad_found, crate::proofs::Table::good_passed, crate::proofs::Table::none_bad))]
fn first_invalid_number<'a>(
    matches: &ArgMatches<'a>,
    ids: &[&'static str],
) -> Option<(&'static str, &'a str)>
    ensures { option_map (λ bad. bad.1.now) result ≡ first_bad_number (map (λ id. id.now) ids.now) (rows_of (found_of matches.now)) }
{
    for id in ids {
        if let Some(text) = bad_number(matches, id) {
            return Some((id, text));
        }
    }
    None
}

// The numeric options except for the three sizes.
const NUMBERS: [&str; 7] = [
    "offset",
    "name-max",
    "file-max",
    "attr-max",
    "inline-max",
    "pair-cycles",
    "spare",
];

/// Returns the first numeric option whose value isn't a number, together with its value.
pub(crate) fn first_bad_number<'a>(matches: &ArgMatches<'a>) -> Option<(&'static str, &'a str)>
    ensures { option_map (λ bad. bad.1.now) result ≡ first_bad_text (rows_of (found_of matches.now)) }
{
    if let Some(text) = bad_size(matches, "block") {
        return Some(("block", text));
    }
    if let Some(text) = bad_number(matches, "page") {
        return Some(("page", text));
    }
    if let Some(text) = bad_size(matches, "size") {
        return Some(("size", text));
    }
    first_invalid_number(matches, &NUMBERS)
}
