// Parses the options after a command's name.

use crate::arguments::{byte_at, number_at, word_at};
use crate::command::ComparisonScope;
use crate::lines::LineError;
use crate::refusal::LineRefusal;
use lfs_device::{CountedCalls, Erased, FaultExtent, PlannedFault};
use lfs_model::{AcceptedVersions, NameOrder, Profile};

fn unknown_options_error(place: usize) -> LineError {
    LineError::Refused(LineRefusal::Options(place))
}

fn is_keyword(word: &[u8], keyword: &[u8]) -> bool {
    word == keyword
}

// Parses which parts of two sessions are compared.
pub(crate) fn scope_of_words(words: &[&[u8]]) -> Result<ComparisonScope, LineError> {
    if words.len() < 2 {
        Ok(ComparisonScope::Whole)
    } else if is_keyword(word_at(words, 1), b"entries") {
        Ok(ComparisonScope::Entries)
    } else {
        Ok(ComparisonScope::Kind(byte_at(words, 1)?))
    }
}

// Parses what a block contains after an erase, starting at the word at an index.
pub(crate) fn erased_at(words: &[&[u8]], place: usize) -> Result<Erased, LineError> {
    let word = word_at(words, place);
    match words.len().saturating_sub(place) {
        0 => Ok(Erased::Fill(0xff)),
        1 if is_keyword(word, b"keep") => Ok(Erased::Keep),
        2 if is_keyword(word, b"fill") => Ok(Erased::Fill(byte_at(
            words,
            place.saturating_add(1),
        )?)),
        _ => Err(unknown_options_error(place)),
    }
}

// Parses the order of names and what a block contains after an erase, starting at word 4. If the
// order is missing, uses `LongerFirst`.
pub(crate) fn order_and_erased(words: &[&[u8]]) -> Result<(NameOrder, Erased), LineError> {
    let word = word_at(words, 4);
    let is_shorter_first = is_keyword(word, b"shorter-first");
    let order = if is_shorter_first {
        NameOrder::ShorterFirst
    } else {
        NameOrder::LongerFirst
    };
    let place = if is_shorter_first || is_keyword(word, b"longer-first") {
        5
    } else {
        4
    };
    let erased = erased_at(words, place)?;
    Ok((order, erased))
}

// Parses what a failing call does to the device, starting at the word at an index.
fn fault_extent_at(words: &[&[u8]], place: usize) -> Result<FaultExtent, LineError> {
    let word = word_at(words, place);
    match words.len().saturating_sub(place) {
        0 => Ok(FaultExtent::Nothing),
        1 if is_keyword(word, b"whole") => Ok(FaultExtent::Whole),
        2 if is_keyword(word, b"torn") => Ok(FaultExtent::FirstBytes(number_at(
            words,
            place.saturating_add(1),
        )?)),
        2 if is_keyword(word, b"kept") => Ok(FaultExtent::AllButFirst(number_at(
            words,
            place.saturating_add(1),
        )?)),
        _ => Err(unknown_options_error(place)),
    }
}

// Parses a kind of device calls. Returns None for any other word.
fn kind_of_word(word: &[u8]) -> Option<CountedCalls> {
    if is_keyword(word, b"any") {
        Some(CountedCalls::Any)
    } else if is_keyword(word, b"read") {
        Some(CountedCalls::Read)
    } else if is_keyword(word, b"program") {
        Some(CountedCalls::Program)
    } else if is_keyword(word, b"erase") {
        Some(CountedCalls::Erase)
    } else {
        None
    }
}

// Parses which device call fails, if at least two words follow the command's name.
fn parse_fault(words: &[&[u8]]) -> Result<PlannedFault, LineError> {
    let Some(which) = kind_of_word(word_at(words, 1)) else {
        return Err(unknown_options_error(1));
    };
    let nth = number_at(words, 2)?;
    let stops = is_keyword(word_at(words, 3), b"stop");
    let extent = fault_extent_at(words, if stops { 4 } else { 3 })?;
    Ok(PlannedFault {
        which,
        nth: u64::from(nth),
        stops,
        extent,
        bad_block: None,
    })
}

// Parses which device call fails, if any.
pub(crate) fn fault_of_words(words: &[&[u8]]) -> Result<PlannedFault, LineError> {
    match words.len() {
        0 | 1 => Ok(PlannedFault {
            which: CountedCalls::Any,
            nth: 0,
            stops: false,
            extent: FaultExtent::Nothing,
            bad_block: None,
        }),
        2 => Err(unknown_options_error(1)),
        _ => parse_fault(words),
    }
}

// Returns the profile with one changed limit. Returns None if `name` isn't the name of a limit.
fn set_profile_limit(profile: Profile, name: &[u8], number: u32) -> Option<Profile> {
    let mut profile = profile;
    if is_keyword(name, b"name-max") {
        profile.name_max = number;
    } else if is_keyword(name, b"file-max") {
        profile.file_max = number;
    } else if is_keyword(name, b"attr-max") {
        profile.attr_max = number;
    } else if is_keyword(name, b"inline-max") {
        profile.inline_max = number;
    } else if is_keyword(name, b"pair-cycles") {
        profile.pair_cycles = number;
    } else {
        return None;
    }
    Some(profile)
}

// Parses a profile from the words after the command's name.
pub(crate) fn profile_of_words(words: &[&[u8]]) -> Result<Profile, LineError> {
    let mut profile = Profile::new();
    let mut is_number = false;
    for place in 1..words.len() {
        let word = word_at(words, place);
        if is_number {
            is_number = false;
        } else if is_keyword(word, b"also-2.1") {
            profile.versions = AcceptedVersions::AlsoTwoOne;
        } else {
            let behind = place.saturating_add(1);
            if behind == words.len() || set_profile_limit(profile, word, 0).is_none() {
                return Err(unknown_options_error(place));
            }
            let number = number_at(words, behind)?;
            profile = set_profile_limit(profile, word, number).unwrap_or(profile);
            is_number = true;
        }
    }
    Ok(profile)
}
