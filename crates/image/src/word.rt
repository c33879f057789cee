ghost use Rattle.image.specs.Words.{split, word};
ghost use Rattle.std.specs.Prelude.{◌≡◌};

// A word of an image in its four bytes: the kind on top, and a, b and c below it.
#[derive(Clone, Copy, PartialEq, Eq)]
pub struct Word {
    pub kind: u8,
    pub a: u8,
    pub b: u8,
    pub c: u8,
}

impl From<u32> for Word {
    ghost from_gives = { λ raw w. w ≡ split raw };

    fn from(raw: u32) -> Word {
        let [kind, a, b, c] = raw.to_be_bytes();
        Word::new(kind, a, b, c)
    }
}

impl Word {
    // A word by its kind and its three fields.
    pub fn new(kind: u8, a: u8, b: u8, c: u8) -> Word
        ensures { result ≡ word kind a b c }
    {
        Word { kind, a, b, c }
    }
}
