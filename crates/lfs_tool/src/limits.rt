// The limits and versions of a command line.

ghost use Rattle.std.specs.Prelude.{◌≡◌};
ghost use Rattle.clap.specs.Words.{found_of, rows_of};
ghost use Rattle.lfs_tool.specs.Limits.{first_broken_limit, is_limit_within, limit_rule};
ghost use Rattle.lfs_tool.specs.Matches.{profile_given_or, versions_given_or};

use crate::values::{flag_value, given_number, number_given_or};
use clap::ArgMatches;
use lfs_model::{AcceptedVersions, Profile};

/// A limit that an option sets.
#[derive(Clone, Copy, Debug, PartialEq, Eq, Drop)]
pub enum Limit {
    /// The length of the longest name.
    Name,
    /// The length of the longest file.
    File,
    /// The length of the longest attribute.
    Attr,
    /// The length of the longest inline file.
    Inline,
}

impl Limit {
    /// Returns the text of the rule for the limit.
    pub fn rule(self) -> &'static str
        ensures { result.now ≡ limit_rule self }
    {
        match self {
            Limit::Name => "--name-max is from 1 to 255",
            Limit::File => "--file-max is from 1 to 2147483647",
            Limit::Attr => "--attr-max is from 1 to 1022",
            Limit::Inline => "--inline-max is from 1 to 1022, and at most an eighth of -b",
        }
    }
}

// Returns whether a limit is from 1 to `most`. A limit that isn't given also passes.
fn is_within(limit: Option<u32>, most: u32) -> bool
    ensures { result ≡ is_limit_within most limit }
{
    match limit {
        Some(limit) => 1 <= limit && limit <= most,
        None => true,
    }
}

// Returns the first limit that breaks its rule, for blocks of `block_size` bytes. Returns None if
// no limit breaks its rule.
pub(crate) fn first_broken_limit(matches: &ArgMatches<'_>, block_size: u32) -> Option<Limit>
    ensures { result ≡ first_broken_limit block_size (rows_of (found_of matches.now)) }
{
    if !is_within(given_number(matches, "name-max"), 255) {
        return Some(Limit::Name);
    }
    if !is_within(given_number(matches, "file-max"), 2_147_483_647) {
        return Some(Limit::File);
    }
    if !is_within(given_number(matches, "attr-max"), 1022) {
        return Some(Limit::Attr);
    }
    if !is_within(
        given_number(matches, "inline-max"),
        (block_size / 8).min(1022),
    ) {
        return Some(Limit::Inline);
    }
    None
}

// Returns the accepted versions: 2.0 and 2.1 if `--also-2.1` is given, and `other` if it isn't.
fn versions_given_or(matches: &ArgMatches<'_>, other: AcceptedVersions) -> AcceptedVersions
    ensures { result ≡ versions_given_or other (rows_of (found_of matches.now)) }
{
    if flag_value(matches, "also-2.1") {
        AcceptedVersions::AlsoTwoOne
    } else {
        other
    }
}

// Returns the profile `other` with the limits and versions that the options set.
pub(crate) fn profile_given_or(matches: &ArgMatches<'_>, other: Profile) -> Profile
    ensures { result ≡ profile_given_or other (rows_of (found_of matches.now)) }
{
    Profile {
        versions: versions_given_or(matches, other.versions),
        name_max: number_given_or(matches, "name-max", other.name_max),
        file_max: number_given_or(matches, "file-max", other.file_max),
        attr_max: number_given_or(matches, "attr-max", other.attr_max),
        inline_max: number_given_or(matches, "inline-max", other.inline_max),
        pair_cycles: number_given_or(matches, "pair-cycles", other.pair_cycles),
        search_seed: other.search_seed,
    }
}
