ghost use Rattle.std.specs.Prelude.{◌≡◌, Some};
ghost use Rattle.hextext.specs.Sentences.{byte_shown, sentence, hint};
ghost use Rattle.hextext.specs.declared.errors.TextError.TheVariants.{Memory};

use std::alloc::{AllocError, AllocFailed};
use std::fmt;

// Lines and columns count from 1, and a column counts bytes.
#[derive(Clone, Copy, PartialEq, Eq, Debug)]
pub enum TextError {
    // no memory for the words
    Memory,
    // outside a comment, a byte that is no hexadecimal digit, white space or `#`
    BadCharacter {
        line: usize,
        column: usize,
        byte: u8,
    },
    // a word with more than eight digits begins here
    WordTooLong {
        line: usize,
        column: usize,
    },
}

impl From<AllocError> for TextError {
    ghost from_gives = { λ _ r. r ≡ Memory };

    fn from(_e: AllocError) -> TextError {
        TextError::Memory
    }
}

impl<T: Drop> From<AllocFailed<T>> for TextError {
    ghost from_gives = { λ _ r. r ≡ Memory };

    fn from(_e: AllocFailed<T>) -> TextError {
        TextError::from(AllocError)
    }
}

// A byte as an error shows it: itself between quotes where it can be printed, else its two hexadecimal digits.
#[derive(Clone, Copy)]
struct Shown(u8);

impl fmt::Display for Shown {
    ghost output = { λ b. Some (byte_shown b.0) };

    fn fmt<W: fmt::Write>(&self, f: &mut fmt::Formatter<W>) -> fmt::Result {
        let byte = self.0;
        if (b' '..=b'~').contains(&byte) {
            let character = char::from(byte);
            write!(f, "'{character}'")
        } else {
            write!(f, "byte 0x{byte:02X}")
        }
    }
}

impl fmt::Display for TextError {
    ghost output = { λ e. Some (sentence e) };

    fn fmt<W: fmt::Write>(&self, f: &mut fmt::Formatter<W>) -> fmt::Result {
        match *self {
            Self::Memory => write!(f, "out of memory"),
            Self::BadCharacter { line, column, byte } => {
                let shown = Shown(byte);
                let hint = hint_at(byte);
                write!(
                    f,
                    "line {line}, column {column}: {shown} is no hexadecimal digit; a word is one to eight of 0-9 and A-F, and # starts a comment{hint}"
                )
            }
            Self::WordTooLong { line, column } => {
                write!(
                    f,
                    "line {line}, column {column}: this word has more than eight hexadecimal digits; a word has 32 bits"
                )
            }
        }
    }
}

// What to add for who wrote 0x.
fn hint_at(byte: u8) -> &'static str
    ensures { result.now ≡ hint byte }
{
    match byte {
        b'x' | b'X' => " (words are written without 0x)",
        _ => "",
    }
}
