// Why lines are refused.

use std::fmt;

/// The reason why a line isn't a command. Words are counted from 0, which is the command's name.
#[derive(Clone, Copy)]
pub enum LineRefusal {
    /// The line is refused for this reason.
    Line(&'static str),
    /// The line has too few or too many words, and this is the usage of the command.
    Words(&'static str, &'static str),
    /// The word at the given index isn't of the required kind.
    Word(usize, &'static str),
    /// The words from the given index on aren't options of the command.
    Options(usize),
}

impl fmt::Display for LineRefusal {
    fn fmt<W: fmt::Write>(&self, f: &mut fmt::Formatter<W>) -> fmt::Result {
        match self {
            LineRefusal::Line(fault) => write!(f, "{}", *fault),
            LineRefusal::Words(fault, usage) => write!(f, "{} words: {}", *fault, *usage),
            LineRefusal::Word(place, kind) => {
                write!(f, "word {} is {}", place.saturating_add(1), *kind)
            }
            LineRefusal::Options(place) => write!(
                f,
                "from word {} on there are no options of the command",
                place.saturating_add(1)
            ),
        }
    }
}
