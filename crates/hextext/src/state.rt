// Where a reader of a text stands, byte by byte.
ghost use Rattle.std.specs.Prelude.{◌≡◌, ◌+◌, ◌^◌, ◌<◌, ◌≤◌, IfOk};
ghost use Rattle.hextext.specs.Text.{classed, ended, unfinished, with_digit, inside_after, step};

use crate::TextError;
use std::marker::Model;

// The value of a hexadecimal digit. Its bound stands in a model, as that of `Part` does, and not in a
// ghost field: the definitions in specs/ make such values, and would owe a proof for each.
#[derive(Clone, Copy)]
pub struct HexDigit {
    value: u32,
}

impl Model for HexDigit {
    ghost use Rattle.std.specs.Prelude.{ℕ, ◌<◌};

    ghost Value = { ℕ };

    ghost view = { λ d. d.value };

    ghost invariant = { λ d. d.value < 16 };

    ghost inverse = { λ n. record { value = n } };
}

// What a byte is outside a comment.
#[derive(Clone, Copy)]
pub enum Class {
    Digit(HexDigit),
    Space,
    NewLine,
    Hash,
    Other(u8),
}

impl From<u8> for Class {
    ghost from_gives = { λ b c. c ≡ classed b };

    fn from(byte: u8) -> Class {
        match byte {
            b'\n' => Class::NewLine,
            b' ' | b'\t' | b'\r' | 0x0B | 0x0C => Class::Space,
            b'#' => Class::Hash,
            _ => match char::from(byte).to_digit(16) {
                Some(value) => Class::Digit(HexDigit { value }),
                None => Class::Other(byte),
            },
        }
    }
}

// The digits of a word that were read so far: their value, how many they are, and the column of the first.
#[derive(Clone, Copy)]
pub struct Part {
    value: u32,
    digits: u8,
    column: usize,
}

impl Model for Part {
    ghost use Rattle.std.specs.Prelude.{◌^◌, ◌<◌, ◌≤◌};
    ghost use Rattle.hextext.specs.WordPart.{WordPart};

    ghost Value = { WordPart };

    ghost view = { λ p. record { value = p.value; digits = p.digits; column = p.column } };

    // eight hexadecimal digits have 32 bits
    ghost invariant = { λ p. (p.digits ≤ 8) × (p.value < 16 ^ p.digits) };

    ghost inverse = { λ w. record { value = w.value; digits = w.digits; column = w.column } };
}

// What the reader is inside of: between words nothing, a comment, or a word of which this part was read.
#[derive(Clone, Copy)]
pub enum Inside {
    Nothing,
    Comment,
    Word(Part),
}

// Before a byte: its line and column, and what it stands inside of.
#[derive(Clone, Copy)]
pub struct State {
    pub line: usize,
    pub column: usize,
    pub inside: Inside,
}

impl State {
    // Before the first byte of a text.
    pub const START: State = State {
        line: 1,
        column: 1,
        inside: Inside::Nothing,
    };

    // The word that the reader is inside of.
    pub fn unfinished(&self) -> Option<u32>
        ensures { result ≡ unfinished self.now.inside }
    {
        match self.inside {
            Inside::Word(part) => Some(part.value),
            Inside::Nothing | Inside::Comment => None,
        }
    }

    // The word that a byte of this class ends.
    pub fn ended_by(&self, class: &Class) -> Option<u32>
        ensures { result ≡ ended self.now.inside class.now }
    {
        match class {
            Class::Digit(_) => None,
            _ => self.unfinished(),
        }
    }

    // What the reader is inside of behind a digit.
    #[tactic(auto, using(crate::proofs::Digits::seven_digits))]
    fn with_digit(&self, digit: HexDigit) -> Result<Inside, TextError>
        ensures { result ≡ with_digit self.now self.now.inside digit }
    {
        match self.inside {
            Inside::Nothing => Ok(Inside::Word(Part {
                value: digit.value,
                digits: 1,
                column: self.column,
            })),
            Inside::Comment => Ok(Inside::Comment),
            Inside::Word(part) if part.digits < 8 => Ok(Inside::Word(Part {
                value: part.value * 16 + digit.value,
                digits: part.digits + 1,
                ..part
            })),
            Inside::Word(part) => Err(TextError::WordTooLong {
                line: self.line,
                column: part.column,
            }),
        }
    }

    // What the reader is inside of behind a byte of this class.
    fn inside_after(&self, class: &Class) -> Result<Inside, TextError>
        ensures { result ≡ inside_after self.now class.now }
    {
        match (&self.inside, class) {
            (Inside::Comment, Class::NewLine) => Ok(Inside::Nothing),
            (Inside::Comment, _) => Ok(Inside::Comment),
            (_, Class::Digit(digit)) => self.with_digit(*digit),
            (_, Class::Space | Class::NewLine) => Ok(Inside::Nothing),
            (_, Class::Hash) => Ok(Inside::Comment),
            (_, Class::Other(byte)) => Err(TextError::BadCharacter {
                line: self.line,
                column: self.column,
                byte: *byte,
            }),
        }
    }

    // Where the reader stands behind a byte of this class, or the error that the byte is.
    pub fn after(&self, class: &Class) -> Result<State, TextError>
        requires line { self.now.line + 1 < 2 ^ 64 }
        requires column { self.now.column + 1 < 2 ^ 64 }
        ensures value { result ≡ step self.now class.now }
        ensures line { IfOk result (λ t. t.line ≤ self.now.line + 1) }
        ensures column { IfOk result (λ t. t.column ≤ self.now.column + 1) }
    {
        let inside = self.inside_after(class)?;
        match class {
            Class::NewLine => Ok(State {
                line: self.line + 1,
                column: 1,
                inside,
            }),
            _ => Ok(State {
                line: self.line,
                column: self.column + 1,
                inside,
            }),
        }
    }
}
