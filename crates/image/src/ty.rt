ghost use Rattle.image.specs.Types.{type_of, type_word, is_nonsense};
ghost use Rattle.std.specs.Prelude.{◌≡◌};

use crate::word::Word;

// What a typed word is: an integer, or the number of a tuple of a shape or of a block of a signature.
#[derive(Clone, Copy, PartialEq, Eq)]
pub enum Sort {
    Integer,
    Pointer { shape: u8 },
    Code { signature: u8 },
}

// The type of a register, a slot or a cell: nonsense, of which nothing is known, or a sort with a label.
#[derive(Clone, Copy)]
pub enum Ty {
    Nonsense,
    Typed { sort: Sort, label: u8 },
}

impl Ty {
    // The type that a word is by its kind, or none. No `TryFrom`: an error could say no more than that.
    pub fn decode(w: Word) -> Option<Ty>
        ensures { result ≡ type_of w }
    {
        match w.kind {
            0x10 => Some(Ty::Nonsense),
            0x11 => Some(Ty::Typed {
                sort: Sort::Integer,
                label: w.c,
            }),
            0x12 => Some(Ty::Typed {
                sort: Sort::Pointer { shape: w.a },
                label: w.c,
            }),
            0x13 => Some(Ty::Typed {
                sort: Sort::Code { signature: w.a },
                label: w.c,
            }),
            _ => None,
        }
    }

    pub fn is_nonsense(self) -> bool
        ensures { result ≡ is_nonsense self }
    {
        matches!(self, Ty::Nonsense)
    }
}

// How the type is written.
impl From<Ty> for Word {
    ghost from_gives = { λ t w. w ≡ type_word t };

    fn from(t: Ty) -> Word {
        match t {
            Ty::Nonsense => Word::new(0x10, 0, 0, 0),
            Ty::Typed { sort, label } => match sort {
                Sort::Integer => Word::new(0x11, 0, 0, label),
                Sort::Pointer { shape } => Word::new(0x12, shape, 0, label),
                Sort::Code { signature } => Word::new(0x13, signature, 0, label),
            },
        }
    }
}
