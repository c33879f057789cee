// What can be wrong with a line.
ghost use Rattle.std.specs.Prelude.{◌≡◌, Some};
ghost use Rattle.edition.specs.Sentences.{part_shown, sentence};
ghost use Rattle.edition.specs.declared.errors.LineError.TheVariants.{Memory};

use crate::setting::Setting;
use std::alloc::AllocFailed;
use std::fmt;

// What a line has at some place.
#[derive(Clone, Copy, PartialEq, Eq, Debug)]
pub enum Part {
    // `load` or `job`
    Command,
    // the name of a job
    Name,
    // the keyword of a setting
    Keyword(Setting),
    // a number of a setting
    Number(Setting),
}

// A column counts bytes from 1, and is that of the first byte of a field.
#[derive(Clone, Copy, PartialEq, Eq, Debug)]
pub enum LineError {
    // no memory for the words
    Memory,
    // the line ends where this part is wanted; the column is that of the comment's `#`, or one past the line's last byte
    Missing {
        column: usize,
        part: Part,
    },
    // a field that is not this part, which is wanted there
    Unexpected {
        column: usize,
        part: Part,
    },
    // a number above the limit of its setting
    TooLarge {
        column: usize,
        setting: Setting,
        limit: u32,
    },
    // a field behind `load`
    Surplus {
        column: usize,
    },
}

impl<T: Drop> From<AllocFailed<T>> for LineError {
    ghost from_gives = { λ _ r. r ≡ Memory };

    fn from(_e: AllocFailed<T>) -> LineError {
        LineError::Memory
    }
}

impl fmt::Display for Part {
    ghost output = { λ p. Some (part_shown p) };

    fn fmt<W: fmt::Write>(&self, f: &mut fmt::Formatter<W>) -> fmt::Result {
        match *self {
            Self::Command => write!(f, "'load' or 'job'"),
            Self::Name => write!(f, "the job's name"),
            Self::Keyword(setting) => write!(f, "the keyword '{setting}'"),
            Self::Number(setting) => write!(
                f,
                "a number for '{setting}', in decimal or as 0x and hexadecimal digits"
            ),
        }
    }
}

impl fmt::Display for LineError {
    ghost output = { λ e. Some (sentence e) };

    fn fmt<W: fmt::Write>(&self, f: &mut fmt::Formatter<W>) -> fmt::Result {
        match *self {
            Self::Memory => write!(f, "out of memory"),
            Self::Missing { column, part } => write!(
                f,
                "column {column}: the line ends, expected {part}"
            ),
            Self::Unexpected { column, part } => write!(f, "column {column}: expected {part}"),
            Self::TooLarge {
                column,
                setting,
                limit,
            } => write!(
                f,
                "column {column}: the number for '{setting}' is too large, at most {limit}"
            ),
            Self::Surplus { column } => write!(
                f,
                "column {column}: 'load' stands alone on its line"
            ),
        }
    }
}
